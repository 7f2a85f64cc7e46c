//! Why code doesn't fit.

ghost use Rattle.std.specs.Prelude.{◌≡◌};
ghost use Rattle.class_verify.specs.declared.cause.Stop.TheVariants as stops;

use std::alloc::AllocError;

/// What is wrong at a place of the code.
#[derive(Clone, Copy, Debug, PartialEq, Eq, Drop)]
pub enum Cause {
    /// It uses floats or doubles.
    FloatUsed,
    /// No instruction stands there.
    BadCode,
    /// No instruction begins at a target.
    BadJump,
    /// The call site has no bootstrap method that is known, or breaks its rules.
    UnknownBootstrap,
    /// Kinds, limits or frames don't fit.
    BadFrame,
}

/// Why a walk over code ends early.
#[derive(Debug, Drop)]
pub(crate) enum Stop {
    Misfit(Cause),
    Memory,
}

impl From<AllocError> for Stop {
    ghost from_gives = { λ _ e. e ≡ stops.Memory };

    fn from(_e: AllocError) -> Stop {
        Stop::Memory
    }
}
