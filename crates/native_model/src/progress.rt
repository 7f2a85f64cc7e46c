//! How far a native is.

ghost use Rattle.std.specs.Prelude.{◌≡◌};
ghost use Rattle.native_model.specs.Answers.{first_of, results, is_true};
ghost use Rattle.native_model.specs.Ends.{progress_of};

use jvm_heap::{Slot, Slots};
use tree_value::{Bytes, Paths};

/// What the last callback gave, or what was asked for.
#[derive(Drop)]
pub enum Last {
    Nothing,
    Slot(Slot),
    /// The bytes of a file, where there is one.
    File(Option<Bytes>),
    Names(Paths),
}

/// How far a native is.
#[derive(Drop)]
pub struct Progress {
    /// What its callbacks before the last gave, in order.
    pub given: Slots,
    /// How many callbacks and supplies were answered.
    pub answered: u32,
    pub last: Last,
}

impl Progress {
    /// What its first callback gave.
    pub fn first_result(&self) -> Option<Slot>
        ensures { result ≡ first_of (results (progress_of self.now)) }
    {
        if let Some((slot, _)) = self.given.as_slice().split_first() {
            return Some(*slot);
        }
        match &self.last {
            Last::Slot(slot) => Some(*slot),
            _ => None,
        }
    }
}

/// Whether a value that a callback gave is another number than 0.
pub fn is_true(slot: Slot) -> bool
    ensures { result ≡ is_true slot }
{
    match slot {
        Slot::Int(n) => n != 0,
        _ => true,
    }
}

/// The frame of a native that calls back: its arguments, the receiver first, and how far it is.
#[derive(Drop)]
pub struct NativeFrame {
    pub arguments: Slots,
    pub progress: Progress,
}
