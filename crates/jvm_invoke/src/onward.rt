//! Where a result leads.

use jvm_heap::Slot;
use jvm_state::Move;

/// A move, or a value that goes on with the frames below; none for no value.
#[derive(Drop)]
pub enum Onward {
    Moves(Move),
    Gives(Option<Slot>),
}
