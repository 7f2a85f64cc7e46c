//! Values of the small types (JVMS 2.11.1, and 6.5 of putfield, putstatic).

ghost use Rattle.std.specs.Prelude.{◌≡◌, ◌%◌, ◌^◌, pos, Some, option_map};
ghost use Rattle.std.specs.Int.{w8, w16, w32, cast_signed, cast_unsigned};
ghost use Rattle.class_model.specs.Descriptors.{field_type};
ghost use Rattle.class_model.specs.TypeForms.{type_of};
ghost use Rattle.jvm_model.specs.Arrays.{element_of_letter, narrowed_to, narrowed_slot, narrowed_by};

use class_model::{TypeForm, field_type_in};
use jvm_heap::Slot;
use jvm_tables::ElementKind;

fn as_boolean(n: i32) -> i32
    ensures { result ≡ pos (cast_unsigned w32 n % 2) }
{
    i32::from((n.cast_unsigned() & 1) as u8)
}

fn as_byte(n: i32) -> i32
    ensures { result ≡ cast_signed w8 (cast_unsigned w32 n % 2 ^ 8) }
{
    i32::from(((n.cast_unsigned() & 0xff) as u8).cast_signed())
}

fn as_char(n: i32) -> i32
    ensures { result ≡ pos (cast_unsigned w32 n % 2 ^ 16) }
{
    i32::from((n.cast_unsigned() & 0xffff) as u16)
}

fn as_short(n: i32) -> i32
    ensures { result ≡ cast_signed w16 (cast_unsigned w32 n % 2 ^ 16) }
{
    i32::from(((n.cast_unsigned() & 0xffff) as u16).cast_signed())
}

fn narrowed_to(kind: ElementKind, n: i32) -> i32
    ensures { result ≡ narrowed_to kind n }
{
    match kind {
        ElementKind::Boolean => as_boolean(n),
        ElementKind::Byte => as_byte(n),
        ElementKind::Char => as_char(n),
        ElementKind::Short => as_short(n),
        _ => n,
    }
}

fn narrowed_slot(kind: ElementKind, slot: Slot) -> Slot
    ensures { result ≡ narrowed_slot kind slot }
{
    match slot {
        Slot::Int(n) => Slot::Int(narrowed_to(kind, n)),
        other => other,
    }
}

/// The kind of elements of a letter.
fn element_of_letter(letter: u8) -> ElementKind
    ensures { result ≡ element_of_letter letter }
{
    match letter {
        b'Z' => ElementKind::Boolean,
        b'C' => ElementKind::Char,
        b'F' => ElementKind::Float,
        b'D' => ElementKind::Double,
        b'B' => ElementKind::Byte,
        b'S' => ElementKind::Short,
        b'I' => ElementKind::Int,
        _ => ElementKind::Long,
    }
}

#[tactic(auto, using(crate::proofs::Forms::forms))]
fn narrowed_as(form: TypeForm<'_>, slot: Slot) -> Slot
    ensures { result ≡ narrowed_by (Some (type_of form.entry)) slot }
{
    if form.dimensions > 0 {
        return slot;
    }
    if form.letter == b'L' {
        return slot;
    }
    narrowed_slot(element_of_letter(form.letter), slot)
}

/// A value as one of the type that a descriptor spells.
#[tactic(auto, unfolding(class_model::specs::Descriptors::field_type))]
pub(crate) fn narrowed_by(descriptor: &[u8], slot: Slot) -> Slot
    ensures { result ≡ narrowed_by (field_type descriptor.now) slot }
{
    let Some((form, rest)) = field_type_in(descriptor) else {
        return slot;
    };
    if rest.is_empty() {
        narrowed_as(form, slot)
    } else {
        slot
    }
}
