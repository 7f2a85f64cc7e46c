//! Refusals of verification.

ghost use Rattle.std.specs.Prelude.{◌≡◌};
ghost use Rattle.class_verify.specs.declared.fault.VerifyFault.TheVariants as verify_fault;

use class_model::MethodId;
use std::alloc::AllocError;
use thiserror::Error;

/// Why a class doesn't fit: the first method in file order that doesn't, and its first misfit by pc.
#[derive(Debug, Drop, Error)]
pub enum VerifyFault {
    /// The method's descriptor or its code uses floats or doubles.
    #[error("float used")]
    FloatUsed(MethodId),
    /// No instruction stands at the pc.
    #[error("bad code at {1}")]
    BadCode(MethodId, u32),
    /// No instruction begins at a target of the one at the pc.
    #[error("bad jump at {1}")]
    BadJump(MethodId, u32),
    /// The call site at the pc has no bootstrap method that is known, or breaks its rules.
    #[error("unknown bootstrap at {1}")]
    UnknownBootstrap(MethodId, u32),
    /// Kinds, limits or frames don't fit at the pc.
    #[error("bad frame at {1}")]
    BadFrame(MethodId, u32),
    #[error("out of memory")]
    Memory,
}

impl From<AllocError> for VerifyFault {
    ghost from_gives = { λ _ e. e ≡ verify_fault.Memory };

    fn from(_e: AllocError) -> VerifyFault {
        VerifyFault::Memory
    }
}
