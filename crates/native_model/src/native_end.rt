//! What a native answers.

ghost use Rattle.std.specs.Prelude.{◌≡◌, Some};
ghost use Rattle.jvm_heap.specs.declared.slot.Slot.TheVariants.{Int};
ghost use Rattle.native_model.specs.Answers.{truth};
ghost use Rattle.native_model.specs.declared.native_end.NativeEnd.TheVariants as ends;

use crate::budget::Budget;
use crate::throw::Throw;
use jvm_heap::{PathReference, Slot};
use jvm_tables::Callback;
use tree_value::Path;

/// The references that a callback is given, the receiver first.
#[derive(Clone, Copy, Drop)]
pub enum Handed {
    One(u32),
    Two(u32, u32),
    Three(u32, u32, u32),
}

/// What a native answers.
#[derive(Drop)]
pub enum NativeEnd {
    /// A value, or none.
    Gives(Option<Slot>),
    Throws(Throw),
    CallsBack(Callback, Handed),
    NeedsFile(PathReference, Path),
    NeedsNames(PathReference),
    Spends(Budget),
}

impl NativeEnd {
    /// A truth, which is 1 or 0.
    pub fn truth(is: bool) -> NativeEnd
        ensures { result ≡ ends.Gives (Some (Int (truth is))) }
    {
        NativeEnd::Gives(Some(Slot::Int(i32::from(is))))
    }
}
