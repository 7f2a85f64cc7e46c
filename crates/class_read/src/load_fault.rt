//! Why class files are no verified program.

ghost use Rattle.std.specs.Prelude.{◌≡◌};
ghost use Rattle.class_read.specs.declared.load_fault.LoadFault.TheVariants as load_fault;

use crate::limits::Limit;
use class_model::Name;
use class_verify::CheckFault;
use const_pool::ClassFault;
use std::alloc::{AllocError, AllocFailed};
use thiserror::Error;
use tree_value::{CopyFault, Path};

/// Why class files are no verified program.
#[derive(Debug, Drop, Error)]
pub enum LoadFault {
    /// The file at the path is the first by path that is no class file.
    #[error("no class file: {1}")]
    BadClass(Path, ClassFault),
    /// Two classes have the name, or a class and an external one, and no lesser name is such.
    #[error("a class comes twice")]
    DuplicateClass(Name),
    #[error("too many {0}")]
    TooMany(Limit),
    #[error("{0}")]
    Check(CheckFault),
    #[error("out of memory")]
    Memory,
}

impl From<AllocError> for LoadFault {
    ghost from_gives = { λ _ e. e ≡ load_fault.Memory };

    fn from(_e: AllocError) -> LoadFault {
        LoadFault::Memory
    }
}

impl<T: Drop> From<AllocFailed<T>> for LoadFault {
    ghost from_gives = { λ _ e. e ≡ load_fault.Memory };

    fn from(_e: AllocFailed<T>) -> LoadFault {
        LoadFault::Memory
    }
}

impl From<CopyFault> for LoadFault {
    ghost from_gives = { λ _ e. e ≡ load_fault.Memory };

    fn from(_e: CopyFault) -> LoadFault {
        LoadFault::Memory
    }
}
