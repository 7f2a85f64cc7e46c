//! Why the heap refuses.

ghost use Rattle.std.specs.Prelude.{◌≡◌};
ghost use Rattle.jvm_heap.specs.declared.fault.HeapFault.TheVariants.{Memory};

use std::alloc::{AllocError, AllocFailed};
use thiserror::Error;
use tree_value::CopyFault;

/// Why no object is made or grown.
#[derive(Clone, Copy, Debug, PartialEq, Eq, Error)]
pub enum HeapFault {
    /// The cells of all objects would pass 4,194,304.
    #[error("the heap is full")]
    Full,
    #[error("out of memory")]
    Memory,
}

impl From<AllocError> for HeapFault {
    ghost from_gives = { λ _ fault. fault ≡ Memory };

    fn from(_error: AllocError) -> HeapFault {
        HeapFault::Memory
    }
}

impl<T: Drop> From<AllocFailed<T>> for HeapFault {
    ghost from_gives = { λ _ fault. fault ≡ Memory };

    fn from(_error: AllocFailed<T>) -> HeapFault {
        HeapFault::Memory
    }
}

impl From<CopyFault> for HeapFault {
    ghost from_gives = { λ _ fault. fault ≡ Memory };

    fn from(_error: CopyFault) -> HeapFault {
        HeapFault::Memory
    }
}
