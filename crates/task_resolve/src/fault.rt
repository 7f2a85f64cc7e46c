//! Why the words of a command are refused.

ghost use Rattle.std.specs.Prelude.{◌≡◌};
ghost use Rattle.task_resolve.specs.Causes.{cause_text};
ghost use Rattle.task_resolve.specs.declared.fault.WordFault.TheVariants.{Memory};

use std::alloc::{AllocError, AllocFailed};
use thiserror::Error;
use tree_value::CopyFault;

/// What is wrong with a word.
#[derive(Clone, Copy, Debug, PartialEq, Eq, Drop)]
pub enum Why {
    /// The words end where a command, a number or a selector must stand.
    MissingWord,
    /// A word before the command that begins with `-` and is no option.
    UnknownOption,
    /// An option that stood before.
    SecondOption,
    /// A number with a sign or a leading zero or out of its range, or no number at all.
    BadNumber,
    /// No selector.
    BadSelector,
    /// A word where the command takes no more.
    ExtraWord,
    /// A command or an option that isn't accepted at this place or before this command.
    NotHere,
    /// A word above 4,096 bytes, or word 257.
    TooLong,
}

impl Why {
    /// The cause as it is printed.
    pub fn text(self) -> &'static str
        ensures { result.now ≡ cause_text self }
    {
        match self {
            Why::MissingWord => "missing word",
            Why::UnknownOption => "unknown option",
            Why::SecondOption => "second option",
            Why::BadNumber => "bad number",
            Why::BadSelector => "bad selector",
            Why::ExtraWord => "extra word",
            Why::NotHere => "not here",
            Why::TooLong => "too long",
        }
    }
}

/// Why words are no request: the first bad word, counted from 1, or want of memory.
#[derive(Debug, Drop, PartialEq, Eq, Error)]
pub enum WordFault {
    #[error("a bad word")]
    Words(u32, Why),
    #[error("out of memory")]
    Memory,
}

impl From<AllocError> for WordFault {
    ghost from_gives = { λ _ fault. fault ≡ Memory };

    fn from(_error: AllocError) -> WordFault {
        WordFault::Memory
    }
}

impl<T: Drop> From<AllocFailed<T>> for WordFault {
    ghost from_gives = { λ _ fault. fault ≡ Memory };

    fn from(_error: AllocFailed<T>) -> WordFault {
        WordFault::Memory
    }
}

impl From<CopyFault> for WordFault {
    ghost from_gives = { λ _ fault. fault ≡ Memory };

    fn from(_error: CopyFault) -> WordFault {
        WordFault::Memory
    }
}
