//! Where a step leads.

use jvm_heap::{PathReference, Slot};
use native_model::Budget;
use tree_value::Path;

/// How a run ends: with a result, with an exception by number, or with a budget that is spent.
#[derive(Clone, Copy, Drop)]
pub enum Ending {
    Gave(Option<Slot>),
    Threw(u32),
    Spent(Budget),
}

/// What a native asks of the outside.
#[derive(Drop)]
pub enum Need {
    File(PathReference, Path),
    Names(PathReference),
}

/// Where a step leads. It is stuck where a state meets what verification excludes.
#[derive(Drop)]
pub enum Move {
    Goes,
    Finishes(Ending),
    Needs(Need),
    Stuck,
}
