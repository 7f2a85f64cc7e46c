//! Natives of texts, builders, boxes, numbers, throwables and other objects: one function each, whose clause says that it
//! answers as `native_model` defines, over the world that is kept there.
//!
//! It stands on `native_model` and `jvm_heap`. What calls a native by its row stands above it; natives of lists are in
//! `list_natives` beside it, and those of files in `os_natives`.
#![tactic(auto)]

mod asking;
mod boxes;
mod builders;
mod comparing;
mod described;
mod found;
mod names;
mod numbers;
mod objects;
mod parsing;
mod parts;
mod search;
mod strings;
mod texts;
mod throwables;

pub use asking::{append_object, objects_equal, text_of_object, throwable_caused};
pub use boxes::{
    boolean_box, boolean_box_equals, boolean_box_hash, boolean_of_box, int_box, int_box_equals,
    int_of_box, int_of_long_box, long_box, long_box_equals, long_box_hash, long_of_box,
    long_of_int_box,
};
pub use builders::{
    append_char, append_text, append_truth, builder_length, builder_made, builder_text,
};
pub use comparing::{text_compare, text_hash};
pub use described::object_text;
pub use names::{dotted, units_of_name};
pub use numbers::{
    int_abs, int_greater, int_less, int_sum, long_abs, long_greater, long_less, long_sum,
};
pub use objects::{
    array_clone, enum_made, enum_name, enum_ordinal, object_equals, object_hash, object_made,
    required,
};
pub use parsing::{int_parsed, long_parsed};
pub use parts::{text_between, text_contains, text_from, text_index};
pub use strings::{
    text_char_at, text_concat, text_ends, text_equals, text_is_empty, text_itself, text_length,
    text_starts,
};
pub use texts::{
    append_number, boolean_box_text, int_box_text, int_text, long_box_text, text_of_char,
    text_of_number, text_of_truth, units_of_ascii,
};
pub use throwables::{
    suppressed_added, throwable_cause, throwable_made, throwable_message, throwable_text,
};
