//! Looking for methods in a class and above it (JVMS 5.4.3.3).

ghost use Rattle.std.specs.Prelude.{◌≡◌, ◌<◌, ◌^◌, List, length, All, option_map};
ghost use Rattle.place_graph.specs.Graphs.{AreWithin, edges_of};
ghost use Rattle.class_index.specs.Members.{HasFewMembers, member_from, wanted_method};
ghost use Rattle.class_index.specs.Lookups.{nearest, is_interface, in_interface, is_beaten, specific, most_specific, first_in, the_one, resolved, AreSupers, field_at, first_field};
ghost use Rattle.class_index.specs.Added.{added};

use crate::members::{Method, Wanted, member_in, wanted_method};
use crate::outline::Outline;
use crate::subtype::contains;
use place_graph::Places;

/// A method, and the place of the class that declares it.
#[derive(Clone, Copy, Debug, PartialEq, Eq, Drop)]
pub struct Found {
    pub place: u32,
    pub method: Method,
}

/// How many methods there are to choose from.
#[derive(Clone, Copy, Debug, PartialEq, Eq, Drop)]
pub enum Choice {
    Nothing,
    One(Found),
    Many,
}

/// The nearest method along a class and its superclasses.
pub(crate) fn nearest(
    own: usize,
    all: &[Outline],
    supers: &[Option<u32>],
    name: &[u8],
    descriptor: &[u8],
    wanted: Wanted,
    from: usize,
) -> Option<Found>
    requires members { All HasFewMembers all.now }
    requires few { length all.now < 2 ^ 32 }
    requires place { from < length all.now }
    requires same { length supers.now ≡ length all.now }
    requires supers { AreSupers (length all.now) supers.now }
    ensures { result ≡ nearest (wanted_method own all.now name.now descriptor.now wanted) supers.now (length all.now) from }
{
    let mut place = from;
    for _ in 0..all.len() {
        if let Some(method) = wanted_method(own, all, name, descriptor, wanted, place) {
            return Some(Found {
                place: place as u32,
                method,
            });
        }
        match supers[place] {
            Some(next) => place = next as usize,
            None => return None,
        }
    }
    None
}

fn is_interface(all: &[Outline], place: usize) -> bool
    requires { place < length all.now }
    ensures { result ≡ is_interface all.now place }
{
    all[place].flags & 0x0200 != 0
}

/// The method of a place that may be found there as in a superinterface.
fn in_interface(
    own: usize,
    all: &[Outline],
    name: &[u8],
    descriptor: &[u8],
    place: usize,
) -> Option<Method>
    requires members { All HasFewMembers all.now }
    requires few { length all.now < 2 ^ 32 }
    requires place { place < length all.now }
    ensures { result ≡ in_interface own all.now name.now descriptor.now place }
{
    if is_interface(all, place) {
        wanted_method(own, all, name, descriptor, Wanted::Overriding, place)
    } else {
        None
    }
}

/// Whether one of the others has such a method and is a subinterface of the place.
fn is_beaten(
    own: usize,
    all: &[Outline],
    above: &[Places],
    name: &[u8],
    descriptor: &[u8],
    place: usize,
    others: &[u32],
) -> bool
    requires members { All HasFewMembers all.now }
    requires few { length all.now < 2 ^ 32 }
    requires same { length above.now ≡ length all.now }
    requires others { AreWithin (length all.now) others.now }
    ensures { result ≡ is_beaten (in_interface own all.now name.now descriptor.now) (edges_of above.now) place others.now }
{
    for other in others {
        if in_interface(own, all, name, descriptor, *other as usize).is_some()
            && contains(above[*other as usize].as_slice(), place)
        {
            return true;
        }
    }
    false
}

/// The method of a place, if it is maximally specific among those above a class and isn't abstract.
fn specific(
    own: usize,
    all: &[Outline],
    above: &[Places],
    name: &[u8],
    descriptor: &[u8],
    place: usize,
    others: &[u32],
) -> Option<Found>
    requires members { All HasFewMembers all.now }
    requires few { length all.now < 2 ^ 32 }
    requires same { length above.now ≡ length all.now }
    requires place { place < length all.now }
    requires others { AreWithin (length all.now) others.now }
    ensures { result ≡ specific (in_interface own all.now name.now descriptor.now) (edges_of above.now) others.now place }
{
    let method = in_interface(own, all, name, descriptor, place)?;
    if method.is_abstract {
        return None;
    }
    if is_beaten(own, all, above, name, descriptor, place, others) {
        return None;
    }
    Some(Found {
        place: place as u32,
        method,
    })
}

fn added(choice: Choice, next: Option<Found>) -> Choice
    ensures { result ≡ added choice next }
{
    match next {
        None => choice,
        Some(found) => match choice {
            Choice::Nothing => Choice::One(found),
            _ => Choice::Many,
        },
    }
}

/// The maximally-specific superinterface methods that aren't abstract.
pub(crate) fn most_specific(
    own: usize,
    all: &[Outline],
    above: &[Places],
    name: &[u8],
    descriptor: &[u8],
    others: &[u32],
) -> Choice
    requires members { All HasFewMembers all.now }
    requires few { length all.now < 2 ^ 32 }
    requires same { length above.now ≡ length all.now }
    requires others { AreWithin (length all.now) others.now }
    ensures { result ≡ most_specific (in_interface own all.now name.now descriptor.now) (edges_of above.now) others.now }
{
    let mut choice = Choice::Nothing;
    for place in others {
        choice = added(
            choice,
            specific(own, all, above, name, descriptor, *place as usize, others),
        );
    }
    choice
}

/// The first superinterface method.
fn first_in(
    own: usize,
    all: &[Outline],
    name: &[u8],
    descriptor: &[u8],
    places: &[u32],
) -> Option<Found>
    requires members { All HasFewMembers all.now }
    requires few { length all.now < 2 ^ 32 }
    requires places { AreWithin (length all.now) places.now }
    ensures { result ≡ first_in (in_interface own all.now name.now descriptor.now) places.now }
{
    for place in places {
        if let Some(method) = in_interface(own, all, name, descriptor, *place as usize) {
            return Some(Found {
                place: *place,
                method,
            });
        }
    }
    None
}

/// The method of a name and descriptor that a class at a place has (JVMS 5.4.3.3).
pub(crate) fn resolved(
    own: usize,
    all: &[Outline],
    supers: &[Option<u32>],
    above: &[Places],
    name: &[u8],
    descriptor: &[u8],
    place: usize,
) -> Option<Found>
    requires members { All HasFewMembers all.now }
    requires few { length all.now < 2 ^ 32 }
    requires place { place < length all.now }
    requires same { length supers.now ≡ length all.now }
    requires supers { AreSupers (length all.now) supers.now }
    requires rows { length above.now ≡ length all.now }
    requires above { AreWithin (length all.now) (edges_of above.now place) }
    ensures { result ≡ resolved own all.now supers.now (edges_of above.now) name.now descriptor.now place }
{
    match nearest(own, all, supers, name, descriptor, Wanted::Any, place) {
        Some(found) => Some(found),
        None => in_superinterfaces(own, all, above, name, descriptor, above[place].as_slice()),
    }
}

fn in_superinterfaces(
    own: usize,
    all: &[Outline],
    above: &[Places],
    name: &[u8],
    descriptor: &[u8],
    others: &[u32],
) -> Option<Found>
    requires members { All HasFewMembers all.now }
    requires few { length all.now < 2 ^ 32 }
    requires same { length above.now ≡ length all.now }
    requires others { AreWithin (length all.now) others.now }
    ensures { result ≡ the_one (most_specific (in_interface own all.now name.now descriptor.now) (edges_of above.now) others.now)
        (first_in (in_interface own all.now name.now descriptor.now) others.now) }
{
    match most_specific(own, all, above, name, descriptor, others) {
        Choice::One(found) => Some(found),
        _ => first_in(own, all, name, descriptor, others),
    }
}

/// The field of a name and descriptor that the class at a place declares.
#[tactic(auto, using(crate::proofs::Listings::member_within))]
pub(crate) fn field_at(all: &[Outline], name: &[u8], descriptor: &[u8], place: usize) -> Option<u32>
    requires members { All HasFewMembers all.now }
    requires place { place < length all.now }
    ensures { result ≡ field_at all.now name.now descriptor.now place }
{
    field_in(&all[place], name, descriptor)
}

#[tactic(auto, using(crate::proofs::Listings::member_within))]
fn field_in(class: &Outline, name: &[u8], descriptor: &[u8]) -> Option<u32>
    requires { HasFewMembers class.now }
    ensures { result ≡ option_map (λ f. f.0) (member_from 0 name.now descriptor.now class.now.fields) }
{
    let (at, _) = member_in(class.fields.as_slice(), name, descriptor)?;
    Some(at as u32)
}

/// The first of the places that has the field.
pub(crate) fn first_field(
    all: &[Outline],
    name: &[u8],
    descriptor: &[u8],
    places: &[u32],
) -> Option<(u32, u32)>
    requires members { All HasFewMembers all.now }
    requires few { length all.now < 2 ^ 32 }
    requires places { AreWithin (length all.now) places.now }
    ensures { result ≡ first_field (field_at all.now name.now descriptor.now) places.now }
{
    for place in places {
        if let Some(at) = field_at(all, name, descriptor, *place as usize) {
            return Some((*place, at));
        }
    }
    None
}
