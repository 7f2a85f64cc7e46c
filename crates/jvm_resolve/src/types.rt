//! Types of objects, and what an object may be used as (JVMS 4.10.1.2, 6.5 checkcast).

ghost use Rattle.std.specs.Prelude.{◌≡◌, ◌+◌, ◌-◌, ◌≤◌, ◌∷◌, option_map, option_and_then, option_copied, Some, None, if◌then◌else◌};
ghost use Rattle.class_model.specs.Constants.{is_array_descriptor};
ghost use Rattle.class_model.specs.TypeForms.{type_of as type_of_form, arrays, component};
ghost use Rattle.class_model.specs.Descriptors.{field_type, object, primitive};
ghost use Rattle.class_code.specs.Uses.{class_of_type};
ghost use Rattle.jvm_heap.specs.Contents.{kind_of};
ghost use Rattle.jvm_heap.specs.Objects as objects;
ghost use Rattle.jvm_heap.specs.Renaming.{renamed_object, renamed_kind};
ghost use Rattle.jvm_model.specs.Plans.{end_of};
ghost use Rattle.jvm_model.specs.Attempts.{fine};
ghost use Rattle.jvm_model.specs.Types.{base_type, array_type, object_class, interface_of, type_named, type_of, is_assignable, is_instance, is_known, is_there};
ghost use Rattle.jvm_resolve.specs.Ends.{EndsAs, origin_of};
ghost use Rattle.jvm_resolve.specs.Forms.{is_object, class_unless_array};

use crate::lookups::{Lookups, OriginView};
use crate::stop::Stop;
use class_model::{TypeForm, field_type_in};
use jvm_heap::{ArrayBase, ArrayKind, Content, Object};
use jvm_tables::ElementKind;
use native_model::Throw;
use std::alloc::Global;
use tree_value::Bytes;

fn class_form(name: &[u8]) -> TypeForm<'_>
    ensures { type_of_form result ≡ object name.now }
{
    TypeForm {
        dimensions: 0,
        letter: b'L',
        class: name,
    }
}

#[tactic(auto, unfolding(class_model::specs::Descriptors::field_type))]
fn array_form(name: &[u8]) -> Option<TypeForm<'_>>
    ensures { option_map type_of_form result ≡ (if is_array_descriptor name.now then field_type name.now else None) }
{
    let Some((b'[', _)) = name.split_first() else {
        return None;
    };
    let Some((form, rest)) = field_type_in(name) else {
        return None;
    };
    if rest.is_empty() { Some(form) } else { None }
}

/// The type that a Class constant names, which for an array is its descriptor (JVMS 4.4.1).
pub fn type_named(name: &[u8]) -> TypeForm<'_>
    ensures { type_of_form result ≡ type_named name.now }
{
    match array_form(name) {
        Some(form) => form,
        None => class_form(name),
    }
}

/// The class that a type is of, or its elements are; none of a primitive type.
#[tactic(auto, using(crate::proofs::Dimensions::class_of_arrays))]
fn class_in(form: TypeForm<'_>) -> Option<&[u8]>
    ensures { option_copied result ≡ class_of_type (type_of_form form.entry) }
{
    if form.letter == b'L' {
        Some(form.class)
    } else {
        None
    }
}

/// Refuses a class that isn't there.
fn is_there<P: Lookups>(alloc: Global, program: &P, class: Option<&[u8]>) -> Result<(), Stop>
    ensures { EndsAs (λ done. tt) result (end_of (P.oracle program.now) (is_there (option_copied class.entry))) }
{
    let Some(name) = class else {
        return Ok(());
    };
    match program.class_flags(name) {
        Some(_) => Ok(()),
        None => Err(Stop::Throws(Throw::AbsentClass(Bytes::from_slice(alloc, name)?))),
    }
}

/// The class of a type is there, or for an array that of its elements (JVMS 5.3).
pub fn is_known<P: Lookups>(alloc: Global, program: &P, form: TypeForm<'_>) -> Result<(), Stop>
    ensures { EndsAs (λ done. tt) result (end_of (P.oracle program.now) (is_known (type_of_form form.entry))) }
{
    is_there(alloc, program, class_in(form))
}

/// Two types of which the second is no array.
fn component_is_assignable<P: Lookups>(program: &P, low: TypeForm<'_>, high: TypeForm<'_>) -> bool
    ensures { end_of (P.oracle program.now) (is_assignable (component low.entry) (component high.entry)) ≡ fine result }
{
    if low.letter == b'L' {
        return high.letter == b'L' && program.is_below(low.class, high.class);
    }
    high.letter != b'L' && low.letter == high.letter
}

fn is_object(form: TypeForm<'_>) -> bool
    ensures { result ≡ is_object (component form.entry) }
{
    form.letter == b'L' && form.class == b"java/lang/Object".as_slice()
}

/// A type of so many dimensions, and one of none.
#[tactic(auto, using(crate::proofs::Dimensions::assignments))]
fn is_assignable_to_component<P: Lookups>(
    program: &P,
    left: u8,
    low: TypeForm<'_>,
    high: TypeForm<'_>,
) -> bool
    ensures { end_of (P.oracle program.now) (is_assignable (arrays left (component low.entry)) (component high.entry))
        ≡ fine result }
{
    if left > 0 {
        return is_object(high);
    }
    component_is_assignable(program, low, high)
}

/// Whether a value of a type may be used as one of another: arrays are Objects, and arrays of what their elements may
/// be used as.
#[tactic(auto, using(crate::proofs::Dimensions::assignments))]
pub fn is_assignable<P: Lookups>(program: &P, low: TypeForm<'_>, high: TypeForm<'_>) -> bool
    ensures { end_of (P.oracle program.now) (is_assignable (type_of_form low.entry) (type_of_form high.entry)) ≡ fine result }
{
    if low.dimensions < high.dimensions {
        return false;
    }
    is_assignable_to_component(program, low.dimensions - high.dimensions, low, high)
}

fn letter_of(kind: ElementKind) -> u8
    ensures { primitive result ≡ base_type (objects.primitive kind) }
{
    match kind {
        ElementKind::Boolean => b'Z',
        ElementKind::Char => b'C',
        ElementKind::Float => b'F',
        ElementKind::Double => b'D',
        ElementKind::Byte => b'B',
        ElementKind::Short => b'S',
        ElementKind::Int => b'I',
        ElementKind::Long => b'J',
    }
}

/// The type of the arrays of a kind.
pub fn array_form_of<P: Lookups>(program: &P, kind: ArrayKind) -> TypeForm<'_>
    ensures { type_of_form result ≡ array_type (renamed_kind (P.class_name program.now) (kind_of kind)) }
{
    match kind.base {
        ArrayBase::Primitive(element) => TypeForm {
            dimensions: kind.depth,
            letter: letter_of(element),
            class: &[],
        },
        ArrayBase::Class(class) => TypeForm {
            dimensions: kind.depth,
            letter: b'L',
            class: program.name_of(class),
        },
    }
}

/// The interface of a lambda.
pub(crate) fn interface_of(origin: OriginView<'_>) -> &[u8]
    ensures { result.now ≡ interface_of (origin_of origin.entry) }
{
    match origin.site.interface() {
        Some(name) => name,
        None => b"java/lang/Object",
    }
}

/// The name of an object's class; empty for an array.
pub fn class_of<'a, P: Lookups>(program: &'a P, object: &Object) -> &'a [u8]
    ensures { result.now
        ≡ class_unless_array (renamed_object (P.class_name program.now) (P.site_origin program.now) object.now) }
{
    match object.content() {
        Content::Plain { class, .. }
        | Content::Throwable { class, .. }
        | Content::Enumerated { class, .. }
        | Content::Listed { class, .. } => program.name_of(*class),
        Content::Array { .. } => &[],
        Content::Text { .. } => b"java/lang/String",
        Content::BoxedInt { .. } => b"java/lang/Integer",
        Content::BoxedLong { .. } => b"java/lang/Long",
        Content::BoxedBoolean { .. } => b"java/lang/Boolean",
        Content::Builder { .. } => b"java/lang/StringBuilder",
        Content::Iterator { .. } => b"java/util/Iterator",
        Content::PathReference { .. } => b"mill/PathRef",
        Content::Lambda { .. } => b"mill/Lambda",
    }
}

/// The type of an object.
pub fn type_of<'a, P: Lookups>(program: &'a P, object: &Object) -> TypeForm<'a>
    ensures { type_of_form result
        ≡ type_of (renamed_object (P.class_name program.now) (P.site_origin program.now) object.now) }
{
    match object.content() {
        Content::Array { kind, .. } => array_form_of(program, *kind),
        Content::Lambda { site, .. } => class_form(interface_of(program.origin(*site))),
        _ => class_form(class_of(program, object)),
    }
}

/// Whether an object may be used as one of a type.
pub fn is_instance<P: Lookups>(program: &P, object: &Object, form: TypeForm<'_>) -> bool
    ensures { end_of (P.oracle program.now) (is_instance
        (renamed_object (P.class_name program.now) (P.site_origin program.now) object.now)
        (type_of_form form.entry)) ≡ fine result }
{
    is_assignable(program, type_of(program, object), form)
}
