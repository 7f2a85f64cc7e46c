//! Why a script has no answers.

use questions::Unanswered;
use std::alloc::{AllocError, AllocFailed};
use std::io;

#[derive(Clone, Copy, Debug, Drop)]
pub enum Stopped {
    Memory,
    BadQuestion,
    /// The files that the script wants could not be made.
    Outside,
}

impl From<AllocError> for Stopped {
    fn from(_error: AllocError) -> Stopped {
        Stopped::Memory
    }
}

impl<T: Drop> From<AllocFailed<T>> for Stopped {
    fn from(_error: AllocFailed<T>) -> Stopped {
        Stopped::Memory
    }
}

impl From<io::Error> for Stopped {
    fn from(_error: io::Error) -> Stopped {
        Stopped::Outside
    }
}

impl From<Unanswered> for Stopped {
    fn from(fault: Unanswered) -> Stopped {
        match fault {
            Unanswered::Memory => Stopped::Memory,
            Unanswered::BadQuestion => Stopped::BadQuestion,
        }
    }
}
