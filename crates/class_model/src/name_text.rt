//! Names.

ghost use Rattle.std.specs.Prelude.{◌≡◌, ◌↔◌, IsTrue, IfOk, OnOk, IsErrOf, IsOkUnless, length};
ghost use Rattle.std.specs.Prelude.{bytes_eq, refl, Some};
ghost use Rattle.std.specs.Cmp.{partial_equiv_from_equiv, partial_order_from_agreeing_total};
ghost use Rattle.std.specs.Cmp.Lexicographic.{slice_cmp, nat_list_cmp_total, nat_list_eq_equiv};
ghost use Rattle.std.specs.Ordering.{nat_cmp};
ghost use Rattle.std.proofs.Common.{sym};
ghost use Rattle.std.proofs.lemmas.Map.Text.{is_eq-slice_cmp};
ghost use Rattle.class_model.specs.ModifiedUtf8.{IsName};
ghost use Rattle.class_model.specs.declared.name_text.NameFault.TheVariants as name_fault;
ghost use Rattle.class_model.specs.declared.name_text.CopyFault.TheVariants as copy_fault;

use crate::modified_utf8::is_modified_utf8;
use std::alloc::{AllocError, Global};
use std::cmp::Ordering;
use std::marker::Model;
use thiserror::Error;

/// The name of a class, field or method, or a descriptor: 1 to 65,535 bytes of modified UTF-8.
#[derive(Debug, Drop)]
pub struct Name {
    bytes: Vec<u8>,
}

impl Model for Name {
    ghost use Rattle.std.specs.Prelude.{List, ℕ};
    ghost use Rattle.class_model.specs.ModifiedUtf8.{IsName};

    ghost Value = { List ℕ };

    ghost view = { λ n. n.bytes.items };

    ghost invariant = { λ n. IsName n.bytes.items };
}

/// Why bytes are no name.
#[derive(Clone, Copy, Debug, PartialEq, Eq, Error)]
pub enum NameFault {
    /// They are empty, longer than 65,535 or not modified UTF-8.
    #[error("not a name")]
    BadName,
    #[error("out of memory")]
    Memory,
}

/// Why a value wasn't copied.
#[derive(Clone, Copy, Debug, PartialEq, Eq, Error)]
pub enum CopyFault {
    #[error("out of memory")]
    Memory,
}

impl From<AllocError> for NameFault {
    ghost from_gives = { λ _ e. e ≡ name_fault.Memory };

    fn from(_e: AllocError) -> NameFault {
        NameFault::Memory
    }
}

impl From<AllocError> for CopyFault {
    ghost from_gives = { λ _ e. e ≡ copy_fault.Memory };

    fn from(_e: AllocError) -> CopyFault {
        CopyFault::Memory
    }
}

fn is_name(bytes: &[u8]) -> bool
    ensures { IsTrue result ↔ IsName bytes.now }
{
    if bytes.is_empty() {
        return false;
    }
    if bytes.len() > 65535 {
        return false;
    }
    is_modified_utf8(bytes)
}

impl Name {
    /// The name with these bytes. `BadName` comes before any memory is asked for.
    pub fn of(alloc: Global, bytes: &[u8]) -> Result<Name, NameFault>
        ensures ok { IfOk result (λ name. name ≡ bytes.now) }
        ensures bad { IsErrOf result NameFault.BadName ↔ (IsName bytes.now → ⊥) }
    {
        if !is_name(bytes) {
            return Err(NameFault::BadName);
        }
        Ok(Name::of_valid(alloc, bytes)?)
    }

    /// The name with these bytes, which are one.
    pub fn of_valid(alloc: Global, bytes: &[u8]) -> Result<Name, AllocError>
        requires { IsName bytes.now }
        ensures { IfOk result (λ name. name ≡ bytes.now) }
    {
        let bytes = Vec::from_slice(alloc, bytes)?;
        Ok(Name { bytes })
    }

    /// An equal name.
    pub fn copy(&self) -> Result<Name, CopyFault>
        ensures { IfOk result (λ name. name ≡ self.now) }
    {
        let bytes = self.bytes.clone()?;
        Ok(Name { bytes })
    }

    /// Its bytes, which are not empty.
    pub fn as_slice(&self) -> &[u8]
        ensures value { result.now ≡ self.now }
        ensures name { IsName self.now }
    {
        self.bytes.as_slice()
    }
}

impl PartialEq for Name {
    ghost eq = { λ a b. bytes_eq a b };

    ghost laws = { partial_equiv_from_equiv nat_list_eq_equiv };

    fn eq(&self, other: &Name) -> bool {
        self.bytes == other.bytes
    }
}

impl Eq for Name {
    ghost laws = { nat_list_eq_equiv };
}

// Names are in the order of their bytes.
impl PartialOrd for Name {
    ghost partial_cmp = { λ a b. Some (slice_cmp nat_cmp a b) };

    ghost laws = { partial_order_from_agreeing_total (slice_cmp nat_cmp) nat_list_cmp_total (λ a b. refl) (λ a b. sym (is_eq-slice_cmp a b)) };

    fn partial_cmp(&self, other: &Name) -> Option<Ordering> {
        Some(self.cmp(other))
    }
}

impl Ord for Name {
    ghost cmp = { slice_cmp nat_cmp };

    ghost total = { nat_list_cmp_total };

    ghost matches_partial_cmp = { λ a b. refl };

    ghost matches_eq = { λ a b. sym (is_eq-slice_cmp a b) };

    fn cmp(&self, other: &Name) -> Ordering {
        self.bytes.cmp(&other.bytes)
    }
}
