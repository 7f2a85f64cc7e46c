//! Where an instruction leads.

use class_model::ClassId;
use jvm_heap::{Slot, Slots};
use jvm_resolve::Callee;
use jvm_state::{Called, Pending};

/// What follows in a frame whose operands are taken, in the world as it then is.
#[derive(Drop)]
pub enum Effect {
    /// A result, or none.
    Results(Option<Slot>),
    Jumps(u32),
    Enters(Callee, Slots),
    /// A class is initialised before something is done.
    Opens(ClassId, Pending),
    /// A concatenation.
    Runs(Called, Slots),
    Returns(Option<Slot>),
    /// The exception of a number.
    Rethrows(u32),
}
