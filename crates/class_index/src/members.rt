//! Fields and methods that classes declare.

ghost use Rattle.std.specs.Prelude.{◌≡◌, ◌<◌, ◌^◌, length, option_map, slice_get, option_and_then, Some, IsSome};
ghost use Rattle.class_model.specs.Shape.{has_flag};
ghost use Rattle.std.specs.List.{All};
ghost use Rattle.jvm_tables.specs.Externals.{externals, said, method_said};
ghost use Rattle.jvm_tables.specs.Natives.{said as native_said};
ghost use Rattle.class_index.specs.Members.{is_named, member_from, method_of, outer_method, in_arrays, native_method, abstract_method, declared, wanted_method, HasFewMembers, is_abstract_of};
ghost use Rattle.class_index.specs.Declarations.{own_declaration, outer_declaration, said as view_said};

use crate::outline::{MemberOutline, Outline};
use jvm_tables::{
    ExternalMethod, ExternalRow, Family, NativeRow, external_at, native_at, native_row,
};

/// A method that a class declares: its place in file order, or the row of a native; and what its flags say.
#[derive(Clone, Copy, Debug, PartialEq, Eq, Drop)]
pub struct Method {
    pub at: u32,
    pub is_private: bool,
    pub is_static: bool,
    pub is_abstract: bool,
    pub is_native: bool,
    /// A native that arrays alone have, as `clone`. No class overrides it.
    pub is_of_arrays: bool,
}

impl Method {
    ghost use Rattle.class_index.specs.Members.{has_code};

    /// A method has code exactly where it is neither abstract nor native (JVMS 4.7.3).
    pub fn has_code(&self) -> bool
        ensures { result ≡ has_code self.now }
    {
        !(self.is_abstract || self.is_native)
    }
}

/// A method as its class declares it.
#[derive(Clone, Copy, Drop)]
pub struct MethodView<'a> {
    pub name: &'a [u8],
    pub descriptor: &'a [u8],
    pub method: Method,
}

/// Which methods are looked for.
#[derive(Clone, Copy, Debug, PartialEq, Eq, Drop)]
pub enum Wanted {
    Any,
    /// Neither private nor static.
    Overriding,
}

fn is_named(member: &MemberOutline, name: &[u8], descriptor: &[u8]) -> bool
    ensures { result ≡ is_named name.now descriptor.now member.now }
{
    member.name.as_slice() == name && member.descriptor.as_slice() == descriptor
}

/// The first member of a name and descriptor.
pub(crate) fn member_in(
    members: &[MemberOutline],
    name: &[u8],
    descriptor: &[u8],
) -> Option<(usize, u16)>
    ensures { result ≡ member_from 0 name.now descriptor.now members.now }
{
    for (at, member) in members.iter().enumerate() {
        if is_named(member, name, descriptor) {
            return Some((at, member.flags));
        }
    }
    None
}

fn has_flag(flags: u16, flag: u16) -> bool
    ensures { result ≡ has_flag flag flags }
{
    flags & flag != 0
}

/// The method of a number and its flags (JVMS 4.6).
fn method_of(at: u32, flags: u16) -> Method
    ensures { result ≡ method_of (at, flags) }
{
    Method {
        at,
        is_private: has_flag(flags, 0x0002),
        is_static: has_flag(flags, 0x0008),
        is_abstract: has_flag(flags, 0x0400),
        is_native: has_flag(flags, 0x0100),
        is_of_arrays: false,
    }
}

#[tactic(auto, using(crate::proofs::Listings::member_within))]
fn own_method(class: &Outline, name: &[u8], descriptor: &[u8]) -> Option<Method>
    requires { HasFewMembers class.now }
    ensures { result ≡ option_map method_of (member_from 0 name.now descriptor.now class.now.methods) }
{
    let (at, flags) = member_in(class.methods.as_slice(), name, descriptor)?;
    Some(method_of(at as u32, flags))
}

/// The method of a number that a class file declares.
pub(crate) fn own_view(class: &Outline, at: u32) -> MethodView<'_>
    requires { IsSome (own_declaration at class.now) }
    ensures { Some (view_said result) ≡ own_declaration at class.now }
{
    let member = &class.methods.as_slice()[at as usize];
    MethodView {
        name: member.name.as_slice(),
        descriptor: member.descriptor.as_slice(),
        method: method_of(at, member.flags),
    }
}

fn in_arrays(family: Family) -> bool
    ensures { result ≡ in_arrays family }
{
    match family {
        Family::Arrays => true,
        Family::Alone => false,
        Family::Lists => false,
        Family::Throwables => false,
    }
}

pub(crate) fn native_method(row: &NativeRow) -> Method
    ensures { result ≡ native_method (native_said row.now) }
{
    Method {
        at: row.at,
        is_private: false,
        is_static: row.is_static,
        is_abstract: false,
        is_native: true,
        is_of_arrays: in_arrays(row.family),
    }
}

fn is_abstract_of(method: Option<ExternalMethod>, name: &[u8], descriptor: &[u8]) -> bool
    ensures { result ≡ is_abstract_of name.now descriptor.now (option_map method_said method) }
{
    match method {
        Some(method) => method.name.as_bytes() == name
            && method.descriptor.as_bytes() == descriptor,
        None => false,
    }
}

/// The number of the abstract method of an external interface, which is that after the last native.
pub const ABSTRACT_AT: u32 = 118;

fn outer_method(row: &ExternalRow, name: &[u8], descriptor: &[u8]) -> Option<Method>
    ensures { result ≡ outer_method name.now descriptor.now (said row.now).1 }
{
    match native_row(row.class.as_bytes(), name, descriptor) {
        Some(found) => Some(native_method(&found)),
        None => {
            if is_abstract_of(row.abstract_method, name, descriptor) {
                Some(abstract_method())
            } else {
                None
            }
        }
    }
}

fn abstract_method() -> Method
    ensures { result ≡ abstract_method }
{
    Method {
        at: ABSTRACT_AT,
        is_private: false,
        is_static: false,
        is_abstract: true,
        is_native: false,
        is_of_arrays: false,
    }
}

/// The method of a number that the external class of a row has.
pub(crate) fn outer_view(row: u32, at: u32) -> MethodView<'static>
    requires { IsSome (option_and_then (outer_declaration at) (slice_get externals row)) }
    ensures { Some (view_said result) ≡ option_and_then (outer_declaration at) (slice_get externals row) }
{
    if let Some(native) = native_at(at) {
        return MethodView {
            name: native.name.as_bytes(),
            descriptor: native.descriptor.as_bytes(),
            method: native_method(&native),
        };
    }
    let declared = external_at(row).unwrap().abstract_method.unwrap();
    MethodView {
        name: declared.name.as_bytes(),
        descriptor: declared.descriptor.as_bytes(),
        method: abstract_method(),
    }
}

fn method_of_row(row: u32, name: &[u8], descriptor: &[u8]) -> Option<Method>
    ensures { result ≡ option_and_then (outer_method name.now descriptor.now) (slice_get externals row) }
{
    match external_at(row) {
        Some(found) => outer_method(&found, name, descriptor),
        None => None,
    }
}

/// The method of a name and descriptor that the class at a place declares.
pub(crate) fn declared(
    own: usize,
    all: &[Outline],
    name: &[u8],
    descriptor: &[u8],
    place: usize,
) -> Option<Method>
    requires members { All HasFewMembers all.now }
    requires place { place < length all.now }
    requires few { length all.now < 2 ^ 32 }
    ensures { result ≡ declared own all.now name.now descriptor.now place }
{
    if place < own {
        own_method(&all[place], name, descriptor)
    } else {
        method_of_row((place - own) as u32, name, descriptor)
    }
}

/// The same, where it is wanted.
pub(crate) fn wanted_method(
    own: usize,
    all: &[Outline],
    name: &[u8],
    descriptor: &[u8],
    wanted: Wanted,
    place: usize,
) -> Option<Method>
    requires members { All HasFewMembers all.now }
    requires place { place < length all.now }
    requires few { length all.now < 2 ^ 32 }
    ensures { result ≡ wanted_method own all.now name.now descriptor.now wanted place }
{
    let found = declared(own, all, name, descriptor, place)?;
    match wanted {
        Wanted::Any => Some(found),
        Wanted::Overriding => {
            if found.is_private || found.is_static {
                None
            } else {
                Some(found)
            }
        }
    }
}
