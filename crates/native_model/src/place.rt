//! Keys of the files of a dest.

ghost use Rattle.std.specs.Prelude.{◌≡◌, ◌<◌, ◌^◌, IfOk, Some, length, nat_eq, refl};
ghost use Rattle.std.specs.Ordering.{nat_cmp};
ghost use Rattle.std.specs.Cmp.{partial_equiv_from_equiv};
ghost use Rattle.std.specs.Cmp.Lexicographic.{pointwise, slice_cmp, nat_list_eq_equiv, nat_list_cmp_total, texts_ties, texts_po};

use std::alloc::{AllocError, Global};
use std::cmp::Ordering;
use std::marker::Model;

/// The bytes of a path, or of the front of one.
#[derive(Drop)]
pub struct Place {
    bytes: Vec<u8>,
}

impl Model for Place {
    ghost use Rattle.std.specs.Prelude.{ℕ, List};

    ghost Value = { List ℕ };

    ghost view = { λ place. place.bytes.items };
}

impl Place {
    pub fn from_vec(bytes: Vec<u8>) -> Place
        ensures { result ≡ bytes.items }
    {
        Place { bytes }
    }

    pub fn from_slice(alloc: Global, bytes: &[u8]) -> Result<Place, AllocError>
        ensures { IfOk result (λ place. place ≡ bytes.now) }
    {
        Ok(Place {
            bytes: Vec::from_slice(alloc, bytes)?,
        })
    }

    pub fn len(&self) -> usize
        ensures value { result ≡ length self.now }
        ensures few { result < 2 ^ 63 }
    {
        self.bytes.len()
    }

    pub fn as_slice(&self) -> &[u8]
        ensures { result.now ≡ self.now }
    {
        self.bytes.as_slice()
    }
}

impl PartialEq for Place {
    ghost eq = { pointwise nat_eq };

    ghost laws = { partial_equiv_from_equiv nat_list_eq_equiv };

    fn eq(&self, other: &Place) -> bool {
        self.as_slice() == other.as_slice()
    }
}

impl Eq for Place {
    ghost laws = { nat_list_eq_equiv };
}

impl PartialOrd for Place {
    ghost partial_cmp = { λ x y. Some (slice_cmp nat_cmp x y) };

    ghost laws = { texts_po };

    fn partial_cmp(&self, other: &Place) -> Option<Ordering> {
        Some(self.cmp(other))
    }
}

impl Ord for Place {
    ghost cmp = { slice_cmp nat_cmp };

    ghost total = { nat_list_cmp_total };

    ghost matches_partial_cmp = { λ x y. refl };

    ghost matches_eq = { texts_ties };

    fn cmp(&self, other: &Place) -> Ordering {
        self.as_slice().cmp(other.as_slice())
    }
}
