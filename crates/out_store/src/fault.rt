//! Why a call of the store of results refuses.

ghost use Rattle.std.specs.Prelude.{◌≡◌};
ghost use Rattle.out_store.specs.Faults.{fault_of};
ghost use Rattle.out_store.specs.declared.fault.OutFault.TheVariants.{Memory};

use io_traits::IoFault;
use std::alloc::{AllocError, AllocFailed};
use thiserror::Error;
use tree_value::CopyFault;
use value_text::ValueFault;

/// Why the store of results refused a call.
#[derive(Clone, Copy, Debug, PartialEq, Eq, Error)]
pub enum OutFault {
    /// The store failed, and counted it.
    #[error("the store failed")]
    Fault,
    /// Memory was wanted and not there.
    #[error("out of memory")]
    Memory,
}

impl From<IoFault> for OutFault {
    ghost from_gives = { λ fault out. out ≡ fault_of fault };

    fn from(fault: IoFault) -> OutFault {
        match fault {
            IoFault::Failed => OutFault::Fault,
            IoFault::Memory => OutFault::Memory,
        }
    }
}

impl From<AllocError> for OutFault {
    ghost from_gives = { λ _ out. out ≡ Memory };

    fn from(_error: AllocError) -> OutFault {
        OutFault::Memory
    }
}

impl<T: Drop> From<AllocFailed<T>> for OutFault {
    ghost from_gives = { λ _ out. out ≡ Memory };

    fn from(_error: AllocFailed<T>) -> OutFault {
        OutFault::Memory
    }
}

impl From<CopyFault> for OutFault {
    ghost from_gives = { λ _ out. out ≡ Memory };

    fn from(_fault: CopyFault) -> OutFault {
        OutFault::Memory
    }
}
