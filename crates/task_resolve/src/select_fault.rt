//! Why a selector selects nothing that a command can take.

ghost use Rattle.std.specs.Prelude.{◌≡◌};
ghost use Rattle.task_resolve.specs.declared.select_fault.SelectFault.TheVariants.{Memory};

use std::alloc::{AllocError, AllocFailed};
use thiserror::Error;

/// Why a selector gives no tasks.
#[derive(Clone, Copy, Debug, PartialEq, Eq, Drop, Error)]
pub enum SelectFault {
    /// It selects no task.
    #[error("no task")]
    NoTask,
    /// Arguments stand behind it, and it selects no Command.
    #[error("no command")]
    NoCommand,
    #[error("out of memory")]
    Memory,
}

impl From<AllocError> for SelectFault {
    ghost from_gives = { λ _ fault. fault ≡ Memory };

    fn from(_error: AllocError) -> SelectFault {
        SelectFault::Memory
    }
}

impl<T: Drop> From<AllocFailed<T>> for SelectFault {
    ghost from_gives = { λ _ fault. fault ≡ Memory };

    fn from(_error: AllocFailed<T>) -> SelectFault {
        SelectFault::Memory
    }
}
