//! Natives of lists, of iterators and of mill/Lists: one function each, whose clause says that it answers as `native_model`
//! defines, over the world that is kept there.
//!
//! It stands on `native_model` and `jvm_heap`, beside `native_text`. What calls a native by its row is to stand above it,
//! and uses each one's equation with its definition.
#![tactic(auto)]

mod iterators;
mod lists;
mod passing;
mod results;
mod searching;
mod telling;

pub use iterators::{iterator_has_next, iterator_next, list_iterator};
pub use lists::{
    list_add, list_equals, list_get, list_hash, list_is_empty, list_made, list_made_for, list_of,
    list_of_array, list_set, list_size,
};
pub use passing::{list_each, list_filter, list_fold, list_map};
pub use searching::{list_contains, list_index};
pub use telling::list_text;
