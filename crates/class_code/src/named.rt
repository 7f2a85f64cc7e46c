//! Constants by what they name, borrowed from the pool (JVMS 4.4).

ghost use Rattle.std.specs.Prelude.{◌≡◌, option_map, option_copied, option_and_then};
ghost use Rattle.class_model.specs.Constants.{constant_at};
ghost use Rattle.class_code.specs.Named.{member_by, handle_to, handle_at, method_type_at, with_text, with_member, named_of, named_at};
ghost use Rattle.class_code.specs.Parts.{member_ref, handle_ref, named};

use crate::constants::{descriptor_at, name_at};
use class_model::{Constant, Pool};

/// A field or method by the texts of its constant.
#[derive(Clone, Copy, Debug)]
pub struct MemberView<'a> {
    pub owner: &'a [u8],
    pub name: &'a [u8],
    pub descriptor: &'a [u8],
}

/// A method handle: its kind from 1 to 9, and its member with the tag of that.
#[derive(Clone, Copy, Debug)]
pub struct HandleView<'a> {
    pub kind: u8,
    pub tag: u8,
    pub member: MemberView<'a>,
}

/// A constant that instructions and call sites may name. Numbers are by their bits; a member has its tag.
#[derive(Clone, Copy, Debug)]
pub enum NamedView<'a> {
    Int(u32),
    Float(u32),
    Long(u64),
    Double(u64),
    Text(&'a [u8]),
    Class(&'a [u8]),
    MethodType(&'a [u8]),
    Member(u8, MemberView<'a>),
    Handle(HandleView<'a>),
}

/// The member of a class and a name and type of these numbers.
fn member_by(pool: &Pool, owner: u16, name_type: u16) -> Option<MemberView<'_>>
    ensures { option_map member_ref result ≡ member_by pool.now owner name_type }
{
    let Some(owner) = pool.class_name(owner) else {
        return None;
    };
    let Some(name) = name_at(pool, name_type) else {
        return None;
    };
    match descriptor_at(pool, name_type) {
        Some(descriptor) => Some(MemberView {
            owner,
            name,
            descriptor,
        }),
        None => None,
    }
}

fn handle_to(pool: &Pool, kind: u8, reference: u16) -> Option<HandleView<'_>>
    ensures { option_map handle_ref result ≡ option_and_then (handle_to pool.now kind) (constant_at pool.now reference) }
{
    match pool.constant(reference) {
        Some(
            Constant::Ref {
                tag,
                class,
                name_type,
            },
        ) => match member_by(pool, *class, *name_type) {
            Some(member) => Some(HandleView {
                kind,
                tag: *tag,
                member,
            }),
            None => None,
        },
        _ => None,
    }
}

/// The method handle of a number.
#[tactic(auto, unfolding(crate::specs::Named::handle_at))]
pub fn handle_at(pool: &Pool, number: u16) -> Option<HandleView<'_>>
    ensures { option_map handle_ref result ≡ handle_at pool.now number }
{
    match pool.constant(number) {
        Some(Constant::Handle { kind, reference }) => handle_to(pool, *kind, *reference),
        _ => None,
    }
}

/// The descriptor of the method type of a number.
#[tactic(auto, unfolding(crate::specs::Named::method_type_at))]
pub fn method_type_at(pool: &Pool, number: u16) -> Option<&[u8]>
    ensures { option_copied result ≡ method_type_at pool.now number }
{
    match pool.constant(number) {
        Some(Constant::MethodType(descriptor)) => pool.text(*descriptor),
        _ => None,
    }
}

/// A constant whose name is a text of the pool.
fn with_text<'a>(pool: &'a Pool, constant: &Constant) -> Option<NamedView<'a>>
    ensures { option_map named result ≡ with_text pool.now constant.now }
{
    match constant {
        Constant::Text(number) => match pool.text(*number) {
            Some(text) => Some(NamedView::Text(text)),
            None => None,
        },
        Constant::Class(number) => match pool.text(*number) {
            Some(text) => Some(NamedView::Class(text)),
            None => None,
        },
        Constant::MethodType(number) => match pool.text(*number) {
            Some(text) => Some(NamedView::MethodType(text)),
            None => None,
        },
        _ => None,
    }
}

fn with_member<'a>(pool: &'a Pool, constant: &Constant) -> Option<NamedView<'a>>
    ensures { option_map named result ≡ with_member pool.now constant.now }
{
    match constant {
        Constant::Ref {
            tag,
            class,
            name_type,
        } => match member_by(pool, *class, *name_type) {
            Some(member) => Some(NamedView::Member(*tag, member)),
            None => None,
        },
        Constant::Handle { kind, reference } => match handle_to(pool, *kind, *reference) {
            Some(handle) => Some(NamedView::Handle(handle)),
            None => None,
        },
        _ => None,
    }
}

pub(crate) fn named_of<'a>(pool: &'a Pool, constant: &Constant) -> Option<NamedView<'a>>
    ensures { option_map named result ≡ named_of pool.now constant.now }
{
    match constant {
        Constant::Integer(bits) => Some(NamedView::Int(*bits)),
        Constant::Float(bits) => Some(NamedView::Float(*bits)),
        Constant::Long(bits) => Some(NamedView::Long(*bits)),
        Constant::Double(bits) => Some(NamedView::Double(*bits)),
        Constant::Text(_) | Constant::Class(_) | Constant::MethodType(_) => {
            with_text(pool, constant)
        }
        Constant::Ref { .. } | Constant::Handle { .. } => with_member(pool, constant),
        _ => None,
    }
}

/// The constant of a number by what it names: a number, a text, a class, a method type, a member or a method handle.
/// `None` for any other constant, and where a number that it has leads to none of its sort.
#[tactic(auto, unfolding(crate::specs::Named::named_at))]
pub fn named_at(pool: &Pool, number: u16) -> Option<NamedView<'_>>
    ensures { option_map named result ≡ named_at pool.now number }
{
    match pool.constant(number) {
        Some(constant) => named_of(pool, constant),
        None => None,
    }
}
