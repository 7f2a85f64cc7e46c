//! What a device answers where it refuses.

ghost use Rattle.std.specs.Prelude.{◌≡◌};
ghost use Rattle.io_traits.specs.declared.faults.IoFault.TheVariants.{Memory};

use std::alloc::{AllocError, AllocFailed};
use thiserror::Error;
use tree_value::CopyFault;

/// Why a device refused a call.
#[derive(Clone, Copy, Debug, PartialEq, Eq, Error)]
pub enum IoFault {
    /// The outside failed, and the device counted it.
    #[error("the device failed")]
    Failed,
    /// Memory was wanted and not there.
    #[error("out of memory")]
    Memory,
}

impl From<AllocError> for IoFault {
    ghost from_gives = { λ _ e. e ≡ Memory };

    fn from(_e: AllocError) -> IoFault {
        IoFault::Memory
    }
}

impl<T: Drop> From<AllocFailed<T>> for IoFault {
    ghost from_gives = { λ _ e. e ≡ Memory };

    fn from(_e: AllocFailed<T>) -> IoFault {
        IoFault::Memory
    }
}

impl From<CopyFault> for IoFault {
    ghost from_gives = { λ _ e. e ≡ Memory };

    fn from(_e: CopyFault) -> IoFault {
        IoFault::Memory
    }
}
