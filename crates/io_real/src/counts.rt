//! The count of an adapter's faults.

ghost use Rattle.std.specs.Prelude.{◌≡◌};
ghost use Rattle.io_traits.specs.Causes.{HasCause};
ghost use Rattle.io_real.specs.Counts.{settled, kept_now, no_faults};

use io_traits::IoFault;

/// How many faults there were, and how many at the last `begin`. The count stands still at its last value.
#[derive(Clone, Copy, Debug, PartialEq, Eq)]
pub struct FaultCount {
    pub(crate) now: u64,
    pub(crate) kept: u64,
}

impl FaultCount {
    pub(crate) fn new() -> FaultCount
        ensures { result ≡ no_faults }
    {
        FaultCount { now: 0, kept: 0 }
    }

    // Counts the answer if it is a failure, and passes it on.
    pub(crate) fn settle<T>(&mut self, answer: Result<T, IoFault>) -> Result<T, IoFault>
        ensures answer { result ≡ answer }
        ensures count { self.new ≡ settled answer self.old }
        ensures cause { HasCause self.old.now self.new.now result }
    {
        if let Err(IoFault::Failed) = &answer {
            self.now = self.now.saturating_add(1);
        }
        answer
    }

    // Keeps the present count.
    pub(crate) fn keep(&mut self)
        ensures { self.new ≡ kept_now self.old }
    {
        self.kept = self.now;
    }
}
