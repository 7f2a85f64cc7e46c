ghost use Rattle.std.specs.Prelude.{◌≡◌};
ghost use Rattle.value_text.specs.declared.fault.ValueFault.TheVariants.{Memory};

use std::alloc::AllocError;
use thiserror::Error;

/// Why a value or its text was not made.
#[derive(Debug, Drop, PartialEq, Eq, Error)]
pub enum ValueFault {
    #[error("the text is not that of a value of the wanted type")]
    BadValue,
    #[error("out of memory")]
    Memory,
}

impl From<AllocError> for ValueFault {
    ghost from_gives = { λ _ fault. fault ≡ Memory };

    fn from(_error: AllocError) -> ValueFault {
        ValueFault::Memory
    }
}
