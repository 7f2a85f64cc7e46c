//! Annotations (JVMS 4.7.16).

ghost use Rattle.std.specs.Prelude.{◌≡◌, ◌++◌, true, is_some, None, OnOk, IfErr};
ghost use Rattle.std.specs.Str.{byte};
ghost use Rattle.class_model.specs.declared.annotation.Element.{out-Element};
ghost use Rattle.class_model.specs.Constants.{constant_at, text_at, is_some_that};
ghost use Rattle.class_model.specs.Descriptors.{is_field_descriptor, is_return_descriptor};
ghost use Rattle.class_model.specs.Annotations.{IsCounted, IsPairBy, IsNoteBy, IsElementBy, IsElement, IsAnnotation, is_value_of};
ghost use Rattle.class_model.specs.Spelling as spelling;
ghost use Rattle.class_write.specs.Order.{Refuses};
ghost use Rattle.class_write.specs.Misfits as misfits;
ghost use Rattle.const_pool.specs.declared.write_fault.WriteFault.TheVariants as faults;

use crate::item_lists::{WriteItem, put_count, write_counted};
use class_model::{Element, GREATEST_DEPTH, Note, Pair, Pool};
use const_pool::{AttributeId, AttributePart, Part, WriteFault, put_u2};

#[tactic(auto, using(crate::proofs::Faults::faults))]
fn put_const(
    out: &mut Vec<u8>,
    pool: &Pool,
    part: Part,
    tag: u8,
    index: u16,
) -> Result<(), WriteFault>
    ensures ok { OnOk result (out.new.items ≡ out.old.items ++ spelling.u1 tag
        ++ spelling.u2 index) }
    ensures shaped { OnOk result (is_some_that (is_value_of tag) (constant_at pool.now index)
        ≡ true) }
    ensures none { OnOk result (misfits.constant_value pool.now part tag index ≡ None) }
    ensures fault { IfErr result (λ e. Refuses e (misfits.constant_value pool.now part tag index)) }
{
    if !pool.is_value_of(tag, index) {
        return Err(WriteFault::BadShape(part));
    }
    out.push(tag)?;
    put_u2(out, index)?;
    Ok(())
}

#[tactic(auto, using(crate::proofs::Faults::faults))]
fn put_enum(
    out: &mut Vec<u8>,
    pool: &Pool,
    part: Part,
    kind: u16,
    name: u16,
) -> Result<(), WriteFault>
    ensures ok { OnOk result (out.new.items ≡ out.old.items ++ spelling.u1 (byte "e")
        ++ spelling.u2 kind ++ spelling.u2 name) }
    ensures kind { OnOk result (is_some_that is_field_descriptor (text_at pool.now kind) ≡ true) }
    ensures name { OnOk result (is_some (text_at pool.now name) ≡ true) }
    ensures none { OnOk result (misfits.enum_value pool.now part kind name ≡ None) }
    ensures fault { IfErr result (λ e. Refuses e (misfits.enum_value pool.now part kind name)) }
{
    if !pool.is_field_type(kind) {
        return Err(WriteFault::BadShape(part));
    }
    if !pool.is_text(name) {
        return Err(WriteFault::BadShape(part));
    }
    out.push(b'e')?;
    put_u2(out, kind)?;
    put_u2(out, name)?;
    Ok(())
}

#[tactic(auto, using(crate::proofs::Faults::faults))]
fn put_class(out: &mut Vec<u8>, pool: &Pool, part: Part, class: u16) -> Result<(), WriteFault>
    ensures ok { OnOk result (out.new.items ≡ out.old.items ++ spelling.u1 (byte "c")
        ++ spelling.u2 class) }
    ensures shaped { OnOk result (is_some_that is_return_descriptor (text_at pool.now class)
        ≡ true) }
    ensures none { OnOk result (misfits.class_value pool.now part class ≡ None) }
    ensures fault { IfErr result (λ e. Refuses e (misfits.class_value pool.now part class)) }
{
    if !pool.is_return_type(class) {
        return Err(WriteFault::BadShape(part));
    }
    out.push(b'c')?;
    put_u2(out, class)?;
    Ok(())
}

/// Writes a value of at most a depth.
#[cycle(element)]
#[tactic(auto, using(crate::proofs::Faults::faults))]
fn put_element(
    out: &mut Vec<u8>,
    pool: &Pool,
    part: Part,
    depth: u8,
    element: &Element,
) -> Result<(), WriteFault>
    ensures ok { OnOk result (out.new.items ≡ out.old.items ++ spelling.element depth element.now) }
    ensures shaped { OnOk result (IsElement pool.now depth element.now) }
    ensures none { OnOk result (misfits.element pool.now part depth element.now ≡ None) }
    ensures fault { IfErr result
        (λ e. Refuses e (misfits.element pool.now part depth element.now)) }
{
    if depth == 0 {
        return Err(WriteFault::BadShape(part));
    }
    put_layer(out, pool, part, depth - 1, element)?;
    Ok(())
}

/// Writes a value whose own values have at most a depth.
#[cycle(element)]
#[tactic(auto, using(crate::proofs::Faults::faults))]
fn put_layer(
    out: &mut Vec<u8>,
    pool: &Pool,
    part: Part,
    depth: u8,
    element: &Element,
) -> Result<(), WriteFault>
    ensures ok { OnOk result (out.new.items ≡ out.old.items
        ++ spelling.element_by (spelling.element depth) (out-Element element.now)) }
    ensures shaped { OnOk result
        (IsElementBy (IsElement pool.now depth) pool.now (out-Element element.now)) }
    ensures none { OnOk result (misfits.layer pool.now part depth element.now ≡ None) }
    ensures fault { IfErr result (λ e. Refuses e (misfits.layer pool.now part depth element.now)) }
{
    match element {
        Element::Const { tag, index } => put_const(out, pool, part, *tag, *index),
        Element::Enum { kind, name } => {
            put_enum(out, pool, part, *kind, *name)?;
            Ok(())
        }
        Element::OfClass(class) => put_class(out, pool, part, *class),
        Element::Nested(note) => {
            out.push(b'@')?;
            put_note(out, pool, part, depth, note)?;
            Ok(())
        }
        Element::Many(values) => {
            out.push(b'[')?;
            put_values(out, pool, part, depth, values.as_slice())?;
            Ok(())
        }
    }
}

/// Writes values behind their count. This loop and that of pairs are their own, since a cycle of calls through a
/// `WriteItem` gets no proof.
#[cycle(element)]
fn put_values(
    out: &mut Vec<u8>,
    pool: &Pool,
    part: Part,
    depth: u8,
    values: &[Element],
) -> Result<(), WriteFault>
    ensures ok { OnOk result (out.new.items ≡ out.old.items
        ++ spelling.counted (spelling.element depth) values.now) }
    ensures shaped { OnOk result (IsCounted (IsElement pool.now depth) values.now) }
    ensures none { OnOk result (misfits.values (misfits.element pool.now part depth) part values.now
        ≡ None) }
    ensures fault { IfErr result
        (λ e. Refuses e (misfits.values (misfits.element pool.now part depth) part values.now)) }
{
    put_count(out, part, values.len())?;
    for i in 0..values.len() {
        put_element(out, pool, part, depth, &values[i])?;
    }
    Ok(())
}

#[cycle(element)]
#[tactic(auto, using(crate::proofs::Faults::faults), unfolding(class_model::specs::Spelling::pair_by, crate::specs::Misfits::pair_by))]
fn put_pair(
    out: &mut Vec<u8>,
    pool: &Pool,
    part: Part,
    depth: u8,
    pair: &Pair,
) -> Result<(), WriteFault>
    ensures ok { OnOk result (out.new.items ≡ out.old.items
        ++ spelling.pair_by (spelling.element depth) pair.now) }
    ensures shaped { OnOk result (IsPairBy (IsElement pool.now depth) pool.now pair.now) }
    ensures none { OnOk result
        (misfits.pair_by (misfits.element pool.now part depth) pool.now part pair.now ≡ None) }
    ensures fault { IfErr result
        (λ e. Refuses e (misfits.pair_by
        (misfits.element pool.now part depth) pool.now part pair.now)) }
{
    if !pool.is_text(pair.name) {
        return Err(WriteFault::BadShape(part));
    }
    put_u2(out, pair.name)?;
    put_element(out, pool, part, depth, &pair.value)?;
    Ok(())
}

/// Writes pairs behind their count.
#[cycle(element)]
fn put_pairs(
    out: &mut Vec<u8>,
    pool: &Pool,
    part: Part,
    depth: u8,
    pairs: &[Pair],
) -> Result<(), WriteFault>
    ensures ok { OnOk result (out.new.items ≡ out.old.items
        ++ spelling.counted (spelling.pair_by (spelling.element depth)) pairs.now) }
    ensures shaped { OnOk result
        (IsCounted (IsPairBy (IsElement pool.now depth) pool.now) pairs.now) }
    ensures none { OnOk result
        (misfits.pairs (misfits.element pool.now part depth) pool.now part pairs.now ≡ None) }
    ensures fault { IfErr result
        (λ e. Refuses e (misfits.pairs
        (misfits.element pool.now part depth) pool.now part pairs.now)) }
{
    put_count(out, part, pairs.len())?;
    for i in 0..pairs.len() {
        put_pair(out, pool, part, depth, &pairs[i])?;
    }
    Ok(())
}

/// Writes an annotation whose values have at most a depth.
#[cycle(element)]
#[tactic(auto, using(crate::proofs::Faults::faults), unfolding(class_model::specs::Spelling::note_by, crate::specs::Misfits::note_by))]
fn put_note(
    out: &mut Vec<u8>,
    pool: &Pool,
    part: Part,
    depth: u8,
    note: &Note,
) -> Result<(), WriteFault>
    ensures ok { OnOk result (out.new.items ≡ out.old.items
        ++ spelling.note_by (spelling.element depth) note.now) }
    ensures shaped { OnOk result (IsNoteBy (IsElement pool.now depth) pool.now note.now) }
    ensures none { OnOk result
        (misfits.note_by (misfits.element pool.now part depth) pool.now part note.now ≡ None) }
    ensures fault { IfErr result
        (λ e. Refuses e (misfits.note_by
        (misfits.element pool.now part depth) pool.now part note.now)) }
{
    if !pool.is_field_type(note.kind) {
        return Err(WriteFault::BadShape(part));
    }
    put_u2(out, note.kind)?;
    put_pairs(out, pool, part, depth, note.pairs.as_slice())?;
    Ok(())
}

/// Writes annotations of this attribute.
#[derive(Drop)]
struct AnnotationWriter<'p> {
    pool: &'p Pool,
    id: AttributeId,
}

impl WriteItem for AnnotationWriter<'_> {
    ghost use Rattle.class_model.specs.Annotations.{IsAnnotation};
    ghost use Rattle.class_model.specs.Spelling as spelling;
    ghost use Rattle.const_pool.specs.declared.write_fault.AttributePart.TheVariants as items;
    ghost use Rattle.class_write.specs.Misfits as misfits;

    type Item = Note;

    ghost text = { λ s. spelling.note_by (spelling.element spelling.greatest_depth) };

    ghost is_shaped = { λ s. IsAnnotation s.pool.now };

    ghost misfit = { λ s number. misfits.annotation s.pool.now
        (misfits.at s.id (items.Annotation number)) };

    fn write(&self, out: &mut Vec<u8>, number: u32, item: &Note) -> Result<(), WriteFault> {
        let part = Part::Attribute(self.id, AttributePart::Annotation(number));
        put_note(out, self.pool, part, GREATEST_DEPTH, item)
    }
}

/// Writes the annotations that are this attribute.
pub(crate) fn put_annotations(
    out: &mut Vec<u8>,
    pool: &Pool,
    id: AttributeId,
    notes: &[Note],
) -> Result<(), WriteFault>
    ensures ok { OnOk result (out.new.items ≡ out.old.items
        ++ spelling.counted
        (spelling.note_by (spelling.element spelling.greatest_depth)) notes.now) }
    ensures shaped { OnOk result (IsCounted (IsAnnotation pool.now) notes.now) }
    ensures none { OnOk result (misfits.annotations pool.now id notes.now ≡ None) }
    ensures fault { IfErr result (λ e. Refuses e (misfits.annotations pool.now id notes.now)) }
{
    let part = Part::Attribute(id, AttributePart::Annotations);
    write_counted(out, &AnnotationWriter { pool, id }, part, notes)
}
