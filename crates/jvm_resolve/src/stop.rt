//! Why an attempt gives nothing.

ghost use Rattle.std.specs.Prelude.{◌≡◌};
ghost use Rattle.jvm_resolve.specs.declared.stop.Stop.TheVariants.{Memory};

use class_model::{CopyFault, Name};
use native_model::{Budget, StepFault, Throw};
use std::alloc::AllocError;

/// Why an attempt gives nothing: it throws, a budget is spent, or memory is wanted. It is stuck where a state meets
/// what verification excludes.
#[derive(Drop)]
pub enum Stop {
    Throws(Throw),
    Spends(Budget),
    Stuck,
    Memory,
}

impl From<AllocError> for Stop {
    ghost from_gives = { λ _ stop. stop ≡ Memory };

    fn from(_error: AllocError) -> Stop {
        Stop::Memory
    }
}

impl From<StepFault> for Stop {
    ghost from_gives = { λ _ stop. stop ≡ Memory };

    fn from(_fault: StepFault) -> Stop {
        Stop::Memory
    }
}
