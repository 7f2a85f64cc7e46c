//! Programs that have no index.

ghost use Rattle.std.specs.Prelude.{◌≡◌, ◌<◌, [], ◌∷◌, length, Some, None, option_copied, slice_get, if◌then◌else◌};
ghost use Rattle.class_index.specs.Places.{place_in};
ghost use Rattle.jvm_tables.specs.Externals.{externals};
ghost use Rattle.class_index.specs.Least.{lesser_of, least_from};
ghost use Rattle.class_index.specs.Supers.{is_extensible, lacks, missing_by, marked_names};
ghost use Rattle.class_index.specs.declared.fault.IndexFault.TheVariants as index_fault;

use crate::hierarchy::{NamePlaces, find};
use crate::outline::Outline;
use class_model::Name;
use jvm_tables::{EXTERNALS, external_at};
use std::alloc::AllocError;
use std::cmp::Ordering;
use thiserror::Error;

/// Why a program has no index.
#[derive(Debug, Drop, Error)]
pub enum IndexFault {
    /// A class has a superclass of this name, which is neither in the program nor extensible.
    #[error("a superclass is missing")]
    MissingSuper(Name),
    /// A chain of supers or superinterfaces returns to the class of this name.
    #[error("a class is above itself")]
    CyclicSuper(Name),
    #[error("out of memory")]
    Memory,
}

impl From<AllocError> for IndexFault {
    ghost from_gives = { λ _ e. e ≡ index_fault.Memory };

    fn from(_e: AllocError) -> IndexFault {
        IndexFault::Memory
    }
}

#[tactic(auto, using(crate::proofs::Outers::none_past, crate::proofs::Outers::told))]
fn is_extensible(row: usize) -> bool
    ensures { result ≡ is_extensible (slice_get externals row) }
{
    if row >= EXTERNALS.len() {
        return false;
    }
    match external_at(row as u32) {
        Some(found) => found.is_extensible,
        None => false,
    }
}

fn lacks(places: &NamePlaces, own: usize, name: &Name) -> bool
    ensures { result ≡ lacks own (place_in places.now name.now) }
{
    match find(places, name.as_slice()) {
        None => true,
        Some(at) => {
            if at < own {
                false
            } else {
                !is_extensible(at - own)
            }
        }
    }
}

fn lesser<'a>(least: Option<&'a Name>, name: &'a Name) -> &'a Name
    ensures { result.now ≡ lesser_of (option_copied least.entry) name.now }
{
    match least {
        None => name,
        Some(least) => match least.cmp(name) {
            Ordering::Greater => name,
            _ => least,
        },
    }
}

/// The lesser of two names, if the second one counts.
fn chosen<'a>(least: Option<&'a Name>, name: &'a Name, counts: bool) -> Option<&'a Name>
    ensures { option_copied result ≡ (if counts then Some (lesser_of (option_copied least.entry) name.now) else option_copied least.entry) }
{
    if counts {
        Some(lesser(least, name))
    } else {
        least
    }
}

/// The lesser of a name and that of the class's superclass, if that is missing.
fn without<'a>(
    places: &NamePlaces,
    own: usize,
    class: &'a Outline,
    least: Option<&'a Name>,
) -> Option<&'a Name>
    ensures { option_copied result ≡ least_from (option_copied least.entry) (missing_by (place_in places.now) own (class.now ∷ [])) }
{
    match &class.super_class {
        Some(name) => chosen(least, name, lacks(places, own, name)),
        None => least,
    }
}

/// The least name of a superclass that is missing.
#[tactic(auto, using(crate::proofs::Leasts::missing_more))]
pub(crate) fn least_missing<'a>(
    places: &NamePlaces,
    own: usize,
    classes: &'a [Outline],
) -> Option<&'a Name>
    ensures { option_copied result ≡ least_from None (missing_by (place_in places.now) own classes.now) }
{
    let mut least = None;
    for class in classes {
        least = without(places, own, class, least);
    }
    least
}

/// The least name of a class that is marked.
#[tactic(auto, using(crate::proofs::Leasts::marked_more))]
pub(crate) fn least_marked<'a>(all: &'a [Outline], marks: &[bool]) -> Option<&'a Name>
    requires { length all.now ≡ length marks.now }
    ensures { option_copied result ≡ least_from None (marked_names all.now marks.now) }
{
    let mut least = None;
    for at in 0..all.len() {
        least = chosen(least, &all[at].name, marks[at]);
    }
    least
}
