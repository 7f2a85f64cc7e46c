//! Annotations (JVMS 4.7.16).

ghost use Rattle.std.specs.Prelude.{◌≡◌, ◌==◌, ◌≤◌, ◌-◌, codes, Ok, Err};
ghost use Rattle.std.specs.List.{list_any};
ghost use Rattle.class_text.specs.Readers.{many_at, counted_at};
ghost use Rattle.class_text.specs.Elements.{is_constant_tag, pair_by, note_by, enum_at, tagged_by, element_at, note_at};
ghost use Rattle.const_pool.specs.Faults.{GivesFront};

use crate::item_lists::{ReadItem, counted_in};
use crate::numbers::{u1_in, u2_in};
use crate::targets::{Target, index_in};
use class_model::{Element, Elements, GREATEST_DEPTH, Note, Notes, Pair, Pairs};
use const_pool::{ClassFault, JudgedPool, offset_of};
use sqlite_items::Items;
use std::alloc::Global;

fn is_constant_tag(tag: u8) -> bool
    ensures { result ≡ is_constant_tag tag }
{
    matches!(
        tag,
        b'B' | b'C' | b'D' | b'F' | b'I' | b'J' | b'S' | b'Z' | b's'
    )
}

#[tactic(auto, unfolding(class_text::specs::Elements::enum_at))]
fn enum_in<'a>(
    pool: &JudgedPool,
    end: u32,
    bytes: &'a [u8],
) -> Result<(Element, &'a [u8]), ClassFault>
    ensures { GivesFront result (enum_at pool.now end bytes.now) }
{
    let (kind, rest) = index_in(pool, Target::FieldType, end, bytes)?;
    let (name, rest) = index_in(pool, Target::Text, end, rest)?;
    Ok((Element::Enum { kind, name }, rest))
}

/// A value that may be so deep, in the attribute at a place.
#[cycle(element)]
#[tactic(auto, unfolding(class_text::specs::Elements::element_at))]
fn element_in<'a>(
    alloc: Global,
    pool: &JudgedPool,
    at: u32,
    depth: u8,
    end: u32,
    bytes: &'a [u8],
) -> Result<(Element, &'a [u8]), ClassFault>
    ensures { GivesFront result (element_at at pool.now depth end bytes.now) }
{
    if depth == 0 {
        return Err(ClassFault::BadAttribute(at));
    }
    let (tag, rest) = u1_in(end, bytes)?;
    tagged_in(
        alloc,
        pool,
        at,
        depth - 1,
        offset_of(end, bytes),
        tag,
        end,
        rest,
    )
}

/// What stands behind the tag of a value, which stands at a place.
#[cycle(element)]
#[tactic(auto, unfolding(class_text::specs::Elements::tagged_by))]
fn tagged_in<'a>(
    alloc: Global,
    pool: &JudgedPool,
    at: u32,
    depth: u8,
    place: u32,
    tag: u8,
    end: u32,
    bytes: &'a [u8],
) -> Result<(Element, &'a [u8]), ClassFault>
    ensures { GivesFront result
        (tagged_by (element_at at pool.now depth) pool.now place tag end bytes.now) }
{
    if is_constant_tag(tag) {
        let (index, rest) = index_in(pool, Target::ValueOf(tag), end, bytes)?;
        return Ok((Element::Const { tag, index }, rest));
    }
    if tag == b'e' {
        return enum_in(pool, end, bytes);
    }
    if tag == b'c' {
        let (class, rest) = index_in(pool, Target::ReturnType, end, bytes)?;
        return Ok((Element::OfClass(class), rest));
    }
    if tag == b'@' {
        let (note, rest) = note_in(alloc, pool, at, depth, end, bytes)?;
        return Ok((Element::Nested(note), rest));
    }
    if tag == b'[' {
        let (values, rest) = counted_elements_in(alloc, pool, at, depth, end, bytes)?;
        return Ok((Element::Many(values), rest));
    }
    Err(ClassFault::BadTag(place, tag))
}

/// An annotation whose values may be so deep.
#[cycle(element)]
#[tactic(auto, unfolding(class_text::specs::Elements::note_by))]
fn note_in<'a>(
    alloc: Global,
    pool: &JudgedPool,
    at: u32,
    depth: u8,
    end: u32,
    bytes: &'a [u8],
) -> Result<(Note, &'a [u8]), ClassFault>
    ensures { GivesFront result (note_by (element_at at pool.now depth) pool.now end bytes.now) }
{
    let (kind, rest) = index_in(pool, Target::FieldType, end, bytes)?;
    let (pairs, rest) = counted_pairs_in(alloc, pool, at, depth, end, rest)?;
    Ok((Note { kind, pairs }, rest))
}

#[cycle(element)]
#[tactic(auto, unfolding(class_text::specs::Readers::counted_after))]
fn counted_pairs_in<'a>(
    alloc: Global,
    pool: &JudgedPool,
    at: u32,
    depth: u8,
    end: u32,
    bytes: &'a [u8],
) -> Result<(Pairs, &'a [u8]), ClassFault>
    ensures { GivesFront result
        (counted_at (pair_by (element_at at pool.now depth) pool.now) end bytes.now) }
{
    let (count, rest) = u2_in(end, bytes)?;
    pairs_in(alloc, pool, at, depth, count, end, rest)
}

/// So many pairs.
#[cycle(element)]
fn pairs_in<'a>(
    alloc: Global,
    pool: &JudgedPool,
    at: u32,
    depth: u8,
    count: u16,
    end: u32,
    bytes: &'a [u8],
) -> Result<(Pairs, &'a [u8]), ClassFault>
    ensures { GivesFront result
        (many_at (pair_by (element_at at pool.now depth) pool.now) count end bytes.now) }
{
    let mut items = Items::new(alloc);
    let mut rest = bytes;
    for i in 0..count {
        match pair_in(alloc, pool, at, depth, end, rest) {
            Ok((item, more)) => {
                items.push(item)?;
                rest = more;
            }
            Err(fault) => return Err(fault),
        }
    }
    Ok((items, rest))
}

#[cycle(element)]
#[tactic(auto, unfolding(class_text::specs::Elements::pair_by))]
fn pair_in<'a>(
    alloc: Global,
    pool: &JudgedPool,
    at: u32,
    depth: u8,
    end: u32,
    bytes: &'a [u8],
) -> Result<(Pair, &'a [u8]), ClassFault>
    ensures { GivesFront result (pair_by (element_at at pool.now depth) pool.now end bytes.now) }
{
    let (name, rest) = index_in(pool, Target::Text, end, bytes)?;
    let (value, rest) = element_in(alloc, pool, at, depth, end, rest)?;
    Ok((Pair { name, value }, rest))
}

#[cycle(element)]
#[tactic(auto, unfolding(class_text::specs::Readers::counted_after))]
fn counted_elements_in<'a>(
    alloc: Global,
    pool: &JudgedPool,
    at: u32,
    depth: u8,
    end: u32,
    bytes: &'a [u8],
) -> Result<(Elements, &'a [u8]), ClassFault>
    ensures { GivesFront result (counted_at (element_at at pool.now depth) end bytes.now) }
{
    let (count, rest) = u2_in(end, bytes)?;
    elements_in(alloc, pool, at, depth, count, end, rest)
}

/// So many values.
#[cycle(element)]
fn elements_in<'a>(
    alloc: Global,
    pool: &JudgedPool,
    at: u32,
    depth: u8,
    count: u16,
    end: u32,
    bytes: &'a [u8],
) -> Result<(Elements, &'a [u8]), ClassFault>
    ensures { GivesFront result (many_at (element_at at pool.now depth) count end bytes.now) }
{
    let mut items = Items::new(alloc);
    let mut rest = bytes;
    for i in 0..count {
        match element_in(alloc, pool, at, depth, end, rest) {
            Ok((item, more)) => {
                items.push(item)?;
                rest = more;
            }
            Err(fault) => return Err(fault),
        }
    }
    Ok((items, rest))
}

/// An annotation of the attribute at a place.
#[tactic(auto, unfolding(class_text::specs::Elements::note_at))]
fn annotation_in<'a>(
    alloc: Global,
    pool: &JudgedPool,
    at: u32,
    end: u32,
    bytes: &'a [u8],
) -> Result<(Note, &'a [u8]), ClassFault>
    ensures { GivesFront result (note_at at pool.now end bytes.now) }
{
    note_in(alloc, pool, at, GREATEST_DEPTH, end, bytes)
}

/// Reads annotations of the attribute at a place.
#[derive(Drop)]
struct AnnotationReader<'p> {
    alloc: Global,
    pool: &'p JudgedPool,
    at: u32,
}

impl ReadItem for AnnotationReader<'_> {
    ghost use Rattle.class_text.specs.Elements.{note_at};

    type Item = Note;

    ghost one = { λ s. note_at s.at s.pool.now };

    fn read<'a>(&self, end: u32, bytes: &'a [u8]) -> Result<(Note, &'a [u8]), ClassFault> {
        annotation_in(self.alloc, self.pool, self.at, end, bytes)
    }
}

/// The annotations of the attribute at a place, behind their count.
pub(crate) fn annotations_in<'a>(
    alloc: Global,
    pool: &JudgedPool,
    at: u32,
    end: u32,
    bytes: &'a [u8],
) -> Result<(Notes, &'a [u8]), ClassFault>
    ensures { GivesFront result (counted_at (note_at at pool.now) end bytes.now) }
{
    counted_in(alloc, &AnnotationReader { alloc, pool, at }, end, bytes)
}
