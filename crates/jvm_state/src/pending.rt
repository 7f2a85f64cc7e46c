//! What waits for a class.

use class_model::{ClassId, MemberId, SiteId};
use jvm_heap::{Slot, Slots};

/// What goes on when a class is initialised.
#[derive(Drop)]
pub enum Pending {
    Nothing,
    /// A static field is read.
    Reads(MemberId),
    /// A static field is written.
    Writes(MemberId, Slot),
    /// An object of a class is made.
    Makes(ClassId),
    /// A method of the program with its flags, and its arguments.
    Calls(MemberId, u16, Slots),
    /// An object is made by the `<init>` that a lambda's site names, with its arguments.
    Constructs(SiteId, Slots),
}
