//! The hierarchy of classes as a graph of their places.

ghost use Rattle.std.specs.Prelude.{◌≡◌, ◌<◌, ℕ, Some, IfOk, map, filter_map, length, ◌^◌};
ghost use Rattle.class_index.specs.Hierarchy.{names, place_of, super_by, directs_by};
ghost use Rattle.class_index.specs.Places.{IsPlaces, place_in};

use crate::lists::push_some;
use crate::outline::Outline;
use crate::texts::SharedText;
use class_model::{CopyFault, Name};
use place_graph::Places;
use sqlite_items::Items;
use std::alloc::{AllocError, Global};
use std::collections::BTreeMap;

pub(crate) fn copy_of(name: &Name) -> Result<Name, AllocError>
    ensures { IfOk result (λ copy. copy ≡ name.now) }
{
    match name.copy() {
        Ok(copy) => Ok(copy),
        Err(CopyFault::Memory) => Err(AllocError),
    }
}

/// The places of classes by their names.
pub(crate) type NamePlaces = BTreeMap<Vec<u8>, u32>;

/// The place of each name, the first one where classes share it.
pub(crate) fn places_of(alloc: Global, all: &[Outline]) -> Result<NamePlaces, AllocError>
    requires { length all.now < 2 ^ 32 }
    ensures { IfOk result (λ places. IsPlaces 0 (names all.now) (place_in places)) }
{
    let mut places = BTreeMap::new(alloc);
    let mut at = all.len();
    while at > 0 {
        at -= 1;
        let name = Vec::from_slice(alloc, all[at].name.as_slice())?;
        places.insert(name, at as u32)?;
    }
    Ok(places)
}

fn place_named(places: &NamePlaces, name: &[u8]) -> Option<u32>
    ensures { result ≡ place_in places.now name.now }
{
    places.get(name).copied()
}

pub(crate) fn find(places: &NamePlaces, name: &[u8]) -> Option<usize>
    ensures { result ≡ place_in places.now name.now }
{
    match place_named(places, name) {
        Some(place) => Some(place as usize),
        None => None,
    }
}

pub(crate) fn super_of(places: &NamePlaces, class: &Outline) -> Option<u32>
    ensures { result ≡ super_by (place_in places.now) class.now }
{
    match &class.super_class {
        Some(name) => place_named(places, name.as_slice()),
        None => None,
    }
}

fn interfaces_of(
    alloc: Global,
    places: &NamePlaces,
    interfaces: &[SharedText],
) -> Result<Places, AllocError>
    ensures { IfOk result (λ found. found ≡ filter_map (place_in places.now) interfaces.now) }
{
    let mut found = Items::new(alloc);
    for name in interfaces {
        push_some(&mut found, place_named(places, name.as_slice()))?;
    }
    Ok(found)
}

fn directs_of(alloc: Global, places: &NamePlaces, class: &Outline) -> Result<Places, AllocError>
    ensures { IfOk result (λ found. found ≡ directs_by (place_in places.now) class.now) }
{
    let mut found = interfaces_of(alloc, places, class.interfaces.as_slice())?;
    push_some(&mut found, super_of(places, class))?;
    Ok(found)
}

/// The direct superinterfaces and the superclass of each class.
pub(crate) fn hierarchy_of(
    alloc: Global,
    places: &NamePlaces,
    all: &[Outline],
) -> Result<Items<Places>, AllocError>
    ensures { IfOk result (λ graph. graph ≡ map (directs_by (place_in places.now)) all.now) }
{
    let mut graph = Items::new(alloc);
    for class in all {
        graph.push(directs_of(alloc, places, class)?)?;
    }
    Ok(graph)
}

/// The superclass of each class.
pub(crate) fn supers_of(
    alloc: Global,
    places: &NamePlaces,
    all: &[Outline],
) -> Result<Items<Option<u32>>, AllocError>
    ensures { IfOk result (λ supers. supers ≡ map (super_by (place_in places.now)) all.now) }
{
    let mut supers = Items::new(alloc);
    for class in all {
        supers.push(super_of(places, class))?;
    }
    Ok(supers)
}
