//! UTF-16 code units.

ghost use Rattle.std.specs.Prelude.{◌≡◌, ◌<◌, ◌++◌, ◌^◌, length, IfOk, OnOk, OnErr};
ghost use Rattle.std.specs.Prelude.{Some, nat_eq, refl};
ghost use Rattle.std.specs.Ordering.{nat_cmp};
ghost use Rattle.std.specs.Cmp.{partial_equiv_from_equiv};
ghost use Rattle.std.specs.Cmp.Lexicographic.{pointwise, slice_cmp, nat_list_eq_equiv, nat_list_cmp_total, texts_ties, texts_po};

use std::alloc::{AllocError, Global};
use std::cmp::Ordering;
use std::marker::Model;
use tree_value::CopyFault;

/// The UTF-16 code units of a text. A surrogate may stand without its other half.
#[derive(Drop)]
pub struct Units {
    items: Vec<u16>,
}

impl Model for Units {
    ghost use Rattle.std.specs.Prelude.{ℕ, List};

    ghost Value = { List ℕ };

    ghost view = { λ units. units.items.items };
}

impl Units {
    pub fn from_vec(items: Vec<u16>) -> Units
        ensures { result ≡ items.items }
    {
        Units { items }
    }

    pub fn from_slice(alloc: Global, items: &[u16]) -> Result<Units, AllocError>
        ensures { IfOk result (λ units. units ≡ items.now) }
    {
        Ok(Units {
            items: Vec::from_slice(alloc, items)?,
        })
    }

    pub fn as_slice(&self) -> &[u16]
        ensures { result.now ≡ self.now }
    {
        self.items.as_slice()
    }

    pub fn len(&self) -> usize
        ensures value { result ≡ length self.now }
        ensures few { result < 2 ^ 63 }
    {
        self.items.len()
    }

    /// Puts units behind those that are there.
    pub fn append(&mut self, more: &[u16]) -> Result<(), AllocError>
        ensures ok { OnOk result (self.new ≡ self.old ++ more.now) }
        ensures err { OnErr result (self.new ≡ self.old) }
    {
        self.items.extend_from_slice(more)
    }

    pub fn copy(&self) -> Result<Units, CopyFault>
        ensures { IfOk result (λ copy. copy ≡ self.now) }
    {
        Ok(Units {
            items: self.items.clone()?,
        })
    }
}

impl PartialEq for Units {
    ghost eq = { pointwise nat_eq };

    ghost laws = { partial_equiv_from_equiv nat_list_eq_equiv };

    fn eq(&self, other: &Units) -> bool {
        self.as_slice() == other.as_slice()
    }
}

impl Eq for Units {
    ghost laws = { nat_list_eq_equiv };
}

impl PartialOrd for Units {
    ghost partial_cmp = { λ x y. Some (slice_cmp nat_cmp x y) };

    ghost laws = { texts_po };

    fn partial_cmp(&self, other: &Units) -> Option<Ordering> {
        Some(self.cmp(other))
    }
}

impl Ord for Units {
    ghost cmp = { slice_cmp nat_cmp };

    ghost total = { nat_list_cmp_total };

    ghost matches_partial_cmp = { λ x y. refl };

    ghost matches_eq = { texts_ties };

    fn cmp(&self, other: &Units) -> Ordering {
        self.as_slice().cmp(other.as_slice())
    }
}
