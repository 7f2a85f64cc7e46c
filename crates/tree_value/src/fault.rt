ghost use Rattle.std.specs.Prelude.{◌≡◌};
ghost use Rattle.tree_value.specs.declared.fault.CopyFault.TheVariants.{Memory};

use std::alloc::{AllocError, AllocFailed};
use thiserror::Error;

/// Why a copy was not made.
#[derive(Debug, Drop, PartialEq, Eq, Error)]
pub enum CopyFault {
    #[error("out of memory")]
    Memory,
}

impl From<AllocError> for CopyFault {
    ghost from_gives = { λ _ fault. fault ≡ Memory };

    fn from(_error: AllocError) -> CopyFault {
        CopyFault::Memory
    }
}

impl<T: Drop> From<AllocFailed<T>> for CopyFault {
    ghost from_gives = { λ _ fault. fault ≡ Memory };

    fn from(_error: AllocFailed<T>) -> CopyFault {
        CopyFault::Memory
    }
}
