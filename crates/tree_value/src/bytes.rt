ghost use Rattle.std.specs.Prelude.{◌≡◌, ◌↔◌, length, [], IfOk, IsTrue};

use crate::fault::CopyFault;
use crate::sequence::TryCopy;
use std::alloc::{AllocError, Global};
use std::marker::Model;

/// The bytes of a file.
#[derive(Debug, Drop)]
pub struct Bytes {
    items: Vec<u8>,
}

impl Model for Bytes {
    ghost use Rattle.std.specs.Prelude.{ℕ, List};

    ghost Value = { List ℕ };

    ghost view = { λ bytes. bytes.items.items };
}

impl Bytes {
    pub fn from_vec(items: Vec<u8>) -> Bytes
        ensures { result ≡ items.items }
    {
        Bytes { items }
    }

    pub fn from_slice(alloc: Global, items: &[u8]) -> Result<Bytes, AllocError>
        ensures { IfOk result (λ bytes. bytes ≡ items.now) }
    {
        Ok(Bytes {
            items: Vec::from_slice(alloc, items)?,
        })
    }

    pub fn into_vec(self) -> Vec<u8>
        ensures { result.items ≡ self }
    {
        let Bytes { items } = self;
        items
    }

    pub fn as_slice(&self) -> &[u8]
        ensures { result.now ≡ self.now }
    {
        self.items.as_slice()
    }

    pub fn len(&self) -> usize
        ensures { result ≡ length self.now }
    {
        self.items.len()
    }

    pub fn is_empty(&self) -> bool
        ensures { IsTrue result ↔ (self.now ≡ []) }
    {
        self.items.is_empty()
    }

    pub fn copy(&self) -> Result<Bytes, CopyFault>
        ensures { IfOk result (λ copy. copy ≡ self.now) }
    {
        Ok(Bytes {
            items: self.items.clone()?,
        })
    }
}

impl TryCopy for Bytes {
    fn try_copy(&self) -> Result<Bytes, CopyFault> {
        self.copy()
    }
}
