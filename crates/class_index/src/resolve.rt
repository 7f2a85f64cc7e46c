//! Resolution of fields and methods (JVMS 5.4.3).

ghost use Rattle.std.specs.Prelude.{◌≡◌, ◌+◌, ◌<◌, ◌≤◌, ◌^◌, ◌∷◌, ℕ, length, All, IfSome, codes, option_map, option_and_then};
ghost use Rattle.place_graph.specs.Graphs.{AreWithin, edges_of};
ghost use Rattle.class_index.specs.Resolution.{member_of, above, of_array};
ghost use Rattle.class_index.specs.Lookups.{resolved, field_at, first_field, AreSupers};
ghost use Rattle.class_index.specs.Members.{HasFewMembers};
ghost use Rattle.class_index.specs.Hierarchy.{id_of, supers, all_of};
ghost use Rattle.jvm_tables.specs.Natives.{is_array, native_of};

use crate::hierarchy::find;
use crate::index::Index;
use crate::lookup::{self, Found};
use crate::members::native_method;
use crate::outline::Outline;
use class_model::{ClassId, MemberId};
use jvm_tables::{external, native_row};
use place_graph::Places;

fn is_array(name: &[u8]) -> bool
    ensures { result ≡ is_array name.now }
{
    matches!(name, [b'[', ..])
}

/// The class at a place.
pub(crate) fn class_at(own: usize, place: u32) -> ClassId
    ensures { result ≡ id_of own place }
{
    if (place as usize) < own {
        ClassId::Own(place)
    } else {
        ClassId::Outer(place - own as u32)
    }
}

/// The member of a place.
pub(crate) fn member_of(own: usize, place: u32, at: u32) -> MemberId
    ensures { result ≡ member_of own place at }
{
    MemberId {
        class: class_at(own, place),
        at,
    }
}

impl Index {
    ghost use Rattle.class_index.specs.Declarations.{IsMethodId, IsFieldId};
    ghost use Rattle.class_index.specs.Resolution.{resolve_field, owner_place, method_through, resolve_method};
    ghost use Rattle.class_index.specs.Hierarchy.{all_of, names, place_of};

    /// How many classes are the program's.
    pub(crate) fn own(&self) -> usize
        ensures value { result ≡ length self.now }
        ensures few { result < 2 ^ 32 }
    {
        self.own
    }

    pub(crate) fn outlines(&self) -> &[Outline]
        ensures value { result.now ≡ all_of self.now }
        ensures members { All HasFewMembers result.now }
        ensures few { length result.now < 2 ^ 32 }
    {
        self.all.as_slice()
    }

    pub(crate) fn superclasses(&self) -> &[Option<u32>]
        ensures value { result.now ≡ supers (all_of self.now) }
        ensures same { length result.now ≡ length (all_of self.now) }
        ensures within { AreSupers (length (all_of self.now)) result.now }
    {
        self.supers.as_slice()
    }

    pub(crate) fn rows(&self) -> &[Places]
        ensures same { length result.now ≡ length (all_of self.now) }
        ensures above { edges_of result.now ≡ above (all_of self.now) }
        ensures within { (place : ℕ) → AreWithin (length (all_of self.now)) (edges_of result.now place) }
    {
        self.above.as_slice()
    }

    /// The place of the class of a name.
    pub(crate) fn named(&self, name: &[u8]) -> Option<usize>
        ensures value { result ≡ place_of (names (all_of self.now)) name.now }
        ensures within { IfSome result (λ place. place < length (all_of self.now)) }
    {
        find(&self.places, name)
    }

    /// The field at a place or above it.
    fn field_from(&self, name: &[u8], descriptor: &[u8], place: usize) -> Option<(u32, u32)>
        requires { place < length (all_of self.now) }
        ensures { result ≡ first_field (field_at (all_of self.now) name.now descriptor.now) (place ∷ above (all_of self.now) place) }
    {
        let all = self.outlines();
        let rows = self.rows();
        if let Some(at) = lookup::field_at(all, name, descriptor, place) {
            return Some((place as u32, at));
        }
        lookup::first_field(all, name, descriptor, rows[place].as_slice())
    }

    /// The method of a class at a place or above it.
    fn method_from(&self, name: &[u8], descriptor: &[u8], place: usize) -> Option<Found>
        requires { place < length (all_of self.now) }
        ensures { result ≡ resolved (length self.now) (all_of self.now) (supers (all_of self.now)) (above (all_of self.now)) name.now descriptor.now place }
    {
        let all = self.outlines();
        let supers = self.superclasses();
        let rows = self.rows();
        lookup::resolved(self.own(), all, supers, rows, name, descriptor, place)
    }

    /// The field that a reference resolves to (JVMS 5.4.3.2). Access is not looked at.
    pub fn resolve_field(&self, owner: &[u8], name: &[u8], descriptor: &[u8]) -> Option<MemberId>
        ensures value { result ≡ resolve_field self.now owner.now name.now descriptor.now }
        ensures there { IfSome result (IsFieldId self.now) }
    {
        let place = self.named(owner)?;
        let (place, at) = self.field_from(name, descriptor, place)?;
        Some(member_of(self.own(), place, at))
    }

    /// Where the methods of an owner are looked for: an array class has those of Object.
    fn owner_place(&self, owner: &[u8]) -> Option<usize>
        ensures value { result ≡ owner_place self.now owner.now }
        ensures within { IfSome result (λ place. place < length (all_of self.now)) }
    {
        if !is_array(owner) {
            return self.named(owner);
        }
        match external(b"java/lang/Object") {
            Some(row) => Some(self.own() + row.at as usize),
            None => None,
        }
    }

    pub(crate) fn number(&self, place: usize) -> u32
        requires { place < length (all_of self.now) }
        ensures { result ≡ place }
    {
        let _all = &self.all;
        place as u32
    }

    fn method_through(
        &self,
        owner: &[u8],
        name: &[u8],
        descriptor: &[u8],
        place: usize,
    ) -> Option<Found>
        requires { place < length (all_of self.now) }
        ensures { result ≡ method_through self.now owner.now name.now descriptor.now place }
    {
        match array_method(self.number(place), owner, name, descriptor) {
            Some(found) => Some(found),
            None => self.method_from(name, descriptor, place),
        }
    }

    /// The method that a reference resolves to (JVMS 5.4.3.3, for interfaces too). Access is not looked at. Where the
    /// standard lets any superinterface method be chosen, it is the first, depth first, in declared order.
    pub fn resolve_method(&self, owner: &[u8], name: &[u8], descriptor: &[u8]) -> Option<MemberId>
        ensures value { result ≡ resolve_method self.now owner.now name.now descriptor.now }
        ensures there { IfSome result (IsMethodId self.now) }
    {
        let place = self.owner_place(owner)?;
        let found = self.method_through(owner, name, descriptor, place)?;
        Some(member_of(self.own(), found.place, found.method.at))
    }
}

/// The method that arrays have beside those of Object.
fn array_method(place: u32, owner: &[u8], name: &[u8], descriptor: &[u8]) -> Option<Found>
    ensures { result ≡ of_array place (is_array owner.now) (native_of owner.now name.now descriptor.now) }
{
    if !is_array(owner) {
        return None;
    }
    match native_row(owner, name, descriptor) {
        Some(row) => Some(Found {
            place,
            method: native_method(&row),
        }),
        None => None,
    }
}
