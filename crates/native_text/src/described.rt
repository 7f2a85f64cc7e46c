//! The text of an object that has none of its own.

ghost use Rattle.std.specs.Prelude.{◌≡◌, ◌++◌, ◌∷◌, [], IfOk, OnOk};
ghost use Rattle.jvm_heap.specs.Contents.{base_of, kind_of};
ghost use Rattle.jvm_heap.specs.Renaming.{renamed_base, renamed_kind, renamed_object};
ghost use Rattle.native_model.specs.Ends.{Answers};
ghost use Rattle.native_model.specs.Plain.{object_text};
ghost use Rattle.native_model.specs.Worlds.{letter_of, base_descriptor, array_name, class_of};
ghost use Rattle.native_text.specs.Found.{object_units};

use crate::names::dotted;
use crate::texts::units_of_ascii;
use jvm_heap::{ArrayBase, ArrayKind, Content, Object, Units};
use jvm_tables::ElementKind;
use native_model::{Naming, NativeEnd, StepFault, Throw, World};
use std::alloc::{AllocError, Global};

/// The letter of an element in descriptors (JVMS 4.3.2).
fn letter_of(kind: ElementKind) -> u8
    ensures { result ∷ [] ≡ letter_of kind }
{
    match kind {
        ElementKind::Boolean => b'Z',
        ElementKind::Char => b'C',
        ElementKind::Float => b'F',
        ElementKind::Double => b'D',
        ElementKind::Byte => b'B',
        ElementKind::Short => b'S',
        ElementKind::Int => b'I',
        ElementKind::Long => b'J',
    }
}

fn push_class(name: &mut Vec<u8>, class: &[u8]) -> Result<(), AllocError>
    ensures { OnOk result (name.new.items ≡ name.old.items ++ 0x4c ∷ class.now ++ 0x3b ∷ []) }
{
    name.push(b'L')?;
    name.extend_from_slice(class)?;
    name.push(b';')?;
    Ok(())
}

/// What an array is made of in the end, behind its dimensions.
fn push_base<N: Naming>(name: &mut Vec<u8>, base: ArrayBase, names: &N) -> Result<(), AllocError>
    ensures { OnOk result (name.new.items ≡ name.old.items
        ++ base_descriptor (renamed_base (N.class_name names.now) (base_of base))) }
{
    match base {
        ArrayBase::Primitive(kind) => {
            name.push(letter_of(kind))?;
            Ok(())
        }
        ArrayBase::Class(class) => push_class(name, names.name_of(class)),
    }
}

/// The name of an array's class (JVMS 4.4.1).
fn array_name<N: Naming>(alloc: Global, kind: ArrayKind, names: &N) -> Result<Vec<u8>, AllocError>
    ensures { IfOk result (λ name. name.items
        ≡ array_name (renamed_kind (N.class_name names.now) (kind_of kind))) }
{
    let mut name = vec![in alloc; b'['; kind.depth as usize]?;
    push_base(&mut name, kind.base, names)?;
    Ok(name)
}

/// The name of an object's class.
fn class_of<N: Naming>(alloc: Global, object: &Object, names: &N) -> Result<Vec<u8>, AllocError>
    ensures { IfOk result (λ name. name.items ≡ class_of
        (renamed_object (N.class_name names.now) (N.site_origin names.now) object.now)) }
{
    match object.content() {
        Content::Plain { class, .. } => Vec::from_slice(alloc, names.name_of(*class)),
        Content::Throwable { class, .. } => Vec::from_slice(alloc, names.name_of(*class)),
        Content::Enumerated { class, .. } => Vec::from_slice(alloc, names.name_of(*class)),
        Content::Listed { class, .. } => Vec::from_slice(alloc, names.name_of(*class)),
        Content::Array { kind, .. } => array_name(alloc, *kind, names),
        Content::Text { .. } => Vec::from_slice(alloc, b"java/lang/String".as_slice()),
        Content::BoxedInt { .. } => Vec::from_slice(alloc, b"java/lang/Integer".as_slice()),
        Content::BoxedLong { .. } => Vec::from_slice(alloc, b"java/lang/Long".as_slice()),
        Content::BoxedBoolean { .. } => Vec::from_slice(alloc, b"java/lang/Boolean".as_slice()),
        Content::Builder { .. } => Vec::from_slice(alloc, b"java/lang/StringBuilder".as_slice()),
        Content::Iterator { .. } => Vec::from_slice(alloc, b"java/util/Iterator".as_slice()),
        Content::PathReference { .. } => Vec::from_slice(alloc, b"mill/PathRef".as_slice()),
        Content::Lambda { .. } => Vec::from_slice(alloc, b"mill/Lambda".as_slice()),
    }
}

fn object_units<N: Naming>(object: u32, world: &World<N>) -> Result<Option<Units>, StepFault>
    ensures { IfOk result (λ found. found ≡ object_units object world.now.world) }
{
    let alloc = world.allocator();
    let Some(found) = world.object(object) else {
        return Ok(None);
    };
    let class = class_of(alloc, found, world.names())?;
    let mut units = dotted(alloc, class.as_slice())?;
    let number = format!(in alloc; "@{object:x}")?;
    let number = units_of_ascii(alloc, number.as_bytes())?;
    units.extend_from_slice(number.as_slice())?;
    Ok(Some(Units::from_vec(units)))
}

/// `Object.toString()`: the name of its class with dots, `@`, and its number in hexadecimal.
#[tactic(auto, using(crate::proofs::Named::object_told))]
pub fn object_text<N: Naming>(object: u32, world: &mut World<N>) -> Result<NativeEnd, StepFault>
    ensures { Answers (object_text object world.old.world) result world.old world.new }
{
    match object_units(object, world)? {
        Some(units) => world.give_text(units),
        None => Ok(NativeEnd::Throws(Throw::IncompatibleChange)),
    }
}
