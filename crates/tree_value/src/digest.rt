ghost use Rattle.std.specs.Prelude.{◌≡◌, length, IsOkAnd};
ghost use Rattle.tree_value.specs.Digests.{IsDigest};

use crate::fault::CopyFault;
use crate::sequence::TryCopy;
use std::marker::Model;

/// A SHA-256 digest (FIPS 180-4).
#[derive(Clone, Copy, Debug, PartialEq, Eq, PartialOrd, Ord)]
pub struct Digest {
    bytes: [u8; 32],
}

impl Model for Digest {
    ghost use Rattle.std.specs.Prelude.{ℕ, List, refl};
    ghost use Rattle.tree_value.specs.Digests.{IsDigest};

    ghost Value = { List ℕ };

    ghost view = { λ digest. digest.bytes };

    ghost invariant = { λ digest. IsDigest digest.bytes };

    ghost inverse = { λ bytes. record { bytes = bytes } };
}

// Every byte that the program holds is below 256.
fn prove_digest(bytes: &[u8])
    requires { length bytes.now ≡ 32 }
    ensures { IsDigest bytes.now }
{
    let _first = bytes[0];
}

impl Digest {
    pub fn of(bytes: [u8; 32]) -> Digest
        ensures { result ≡ bytes }
    {
        prove_digest(&bytes);
        Digest { bytes }
    }

    pub fn as_slice(&self) -> &[u8]
        ensures bytes { result.now ≡ self.now }
        ensures digest { IsDigest self.now }
    {
        &self.bytes
    }

    pub fn to_array(&self) -> [u8; 32]
        ensures { result ≡ self.now }
    {
        self.bytes
    }

    /// Takes no memory, so that it always succeeds.
    pub fn copy(&self) -> Result<Digest, CopyFault>
        ensures { IsOkAnd result (λ copy. copy ≡ self.now) }
    {
        Ok(*self)
    }
}

impl TryCopy for Digest {
    fn try_copy(&self) -> Result<Digest, CopyFault> {
        self.copy()
    }
}
