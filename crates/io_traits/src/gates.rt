//! A gate at which a test can hold checks and bodies. It tells nothing.

/// What a group of tasks is about to do, or has done.
#[derive(Clone, Copy, Debug, PartialEq, Eq)]
pub enum Phase {
    /// Its entry is looked at.
    Check,
    /// Its body runs.
    Body,
}

/// Told of each phase of each group as it begins and ends.
pub trait Gate {
    fn arrive(&self, group: u32, phase: Phase);

    fn leave(&self, group: u32, phase: Phase);
}

/// The gate that holds nothing.
#[derive(Clone, Copy, Debug, PartialEq, Eq)]
pub struct NoGate;

impl Gate for NoGate {
    fn arrive(&self, _group: u32, _phase: Phase) {}

    fn leave(&self, _group: u32, _phase: Phase) {}
}
