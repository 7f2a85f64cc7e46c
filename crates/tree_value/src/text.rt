ghost use Rattle.std.specs.Prelude.{◌≡◌, length, IfOk, IsErrOf, IsUtf8, ◌↔◌, [], IsTrue};
ghost use Rattle.tree_value.specs.declared.text.TextFault.TheVariants.{Memory};

use crate::fault::CopyFault;
use crate::sequence::TryCopy;
use std::alloc::{AllocError, AllocFailed, Global};
use std::marker::Model;
use thiserror::Error;

/// Bytes that are UTF-8 (RFC 3629).
#[derive(Debug, Drop)]
pub struct Text {
    bytes: Vec<u8>,
}

impl Model for Text {
    ghost use Rattle.std.specs.Prelude.{ℕ, List, IsUtf8};

    ghost Value = { List ℕ };

    ghost view = { λ text. text.bytes.items };

    ghost invariant = { λ text. IsUtf8 text.bytes.items };
}

/// Why bytes are no text.
#[derive(Debug, Drop, PartialEq, Eq, Error)]
pub enum TextFault {
    #[error("the bytes are not UTF-8")]
    BadText,
    #[error("out of memory")]
    Memory,
}

impl From<AllocError> for TextFault {
    ghost from_gives = { λ _ fault. fault ≡ Memory };

    fn from(_error: AllocError) -> TextFault {
        TextFault::Memory
    }
}

impl<T: Drop> From<AllocFailed<T>> for TextFault {
    ghost from_gives = { λ _ fault. fault ≡ Memory };

    fn from(_error: AllocFailed<T>) -> TextFault {
        TextFault::Memory
    }
}

impl Text {
    pub fn of(alloc: Global, bytes: &[u8]) -> Result<Text, TextFault>
        ensures ok { IfOk result (λ text. (text ≡ bytes.now) × IsUtf8 bytes.now) }
        ensures bad_text { IsErrOf result TextFault.BadText → ¬ (IsUtf8 bytes.now) }
    {
        if str::from_utf8(bytes).is_err() {
            return Err(TextFault::BadText);
        }
        Ok(Text {
            bytes: Vec::from_slice(alloc, bytes)?,
        })
    }

    pub fn as_slice(&self) -> &[u8]
        ensures bytes { result.now ≡ self.now }
        ensures text { IsUtf8 self.now }
    {
        self.bytes.as_slice()
    }

    pub fn into_vec(self) -> Vec<u8>
        ensures bytes { result.items ≡ self }
        ensures text { IsUtf8 self }
    {
        let Text { bytes } = self;
        bytes
    }

    pub fn is_empty(&self) -> bool
        ensures { IsTrue result ↔ (self.now ≡ []) }
    {
        self.bytes.is_empty()
    }

    pub fn len(&self) -> usize
        ensures { result ≡ length self.now }
    {
        self.bytes.len()
    }

    pub fn copy(&self) -> Result<Text, CopyFault>
        ensures { IfOk result (λ copy. copy ≡ self.now) }
    {
        Ok(Text {
            bytes: self.bytes.clone()?,
        })
    }
}

impl TryCopy for Text {
    fn try_copy(&self) -> Result<Text, CopyFault> {
        self.copy()
    }
}
