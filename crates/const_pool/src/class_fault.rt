//! Why bytes are no class file, or no pool.

ghost use Rattle.std.specs.Prelude.{◌≡◌};
ghost use Rattle.const_pool.specs.declared.class_fault.ClassFault.TheVariants as class_fault;

use std::alloc::{AllocError, AllocFailed};
use thiserror::Error;

/// The first bad place of a class file, an offset in it. A pool that is read alone has those of its constants.
#[derive(Clone, Copy, Debug, PartialEq, Eq, Error)]
pub enum ClassFault {
    /// The file doesn't begin with `CAFEBABE`.
    #[error("bad magic")]
    BadMagic,
    /// The major version isn't one from 52 to 65.
    #[error("bad major version {0}")]
    BadMajor(u16),
    /// The bytes end within a constant, a number or the content of an attribute that begins there.
    #[error("cut short at {0}")]
    CutShort(u32),
    /// No constant, frame, frame type or annotation value of this tag may stand there.
    #[error("bad tag {1} at {0}")]
    BadTag(u32, u8),
    /// The text of a constant isn't modified UTF-8.
    #[error("bad text at {0}")]
    BadUtf8(u32),
    /// An index, or one of a constant, leads to no constant that may stand there.
    #[error("bad index at {0}")]
    BadIndex(u32),
    /// The content of an attribute doesn't end with it, its code has no length that code may have, its values are too
    /// deep, or it is code where none may be.
    #[error("bad attribute at {0}")]
    BadAttribute(u32),
    /// A known attribute stands where one of its name stands already.
    #[error("second attribute at {0}")]
    SecondAttribute(u32),
    /// A method that is neither abstract nor native has no code.
    #[error("code missing at {0}")]
    CodeMissing(u32),
    /// Bytes follow the class.
    #[error("bytes left at {0}")]
    BytesLeft(u32),
    #[error("out of memory")]
    Memory,
}

impl From<AllocError> for ClassFault {
    ghost from_gives = { λ _ e. e ≡ class_fault.Memory };

    fn from(_e: AllocError) -> ClassFault {
        ClassFault::Memory
    }
}

impl<T: Drop> From<AllocFailed<T>> for ClassFault {
    ghost from_gives = { λ _ e. e ≡ class_fault.Memory };

    fn from(_e: AllocFailed<T>) -> ClassFault {
        ClassFault::Memory
    }
}
