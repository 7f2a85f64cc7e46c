//! Task annotations and the values of their elements (JVMS 4.7.16).

ghost use Rattle.std.specs.Prelude.{◌≡◌, is_some, find, count_by, option_copied};
ghost use Rattle.std.specs.List.{list_all};
ghost use Rattle.task_annotations.specs.Annotations.{notes_of, annotations_in, is_of_task, is_pair_of, value_of, is_known, stands_once, are_known_once, text_in, int_in, array_in};

use class_model::{Attribute, Constant, Element, Note, Pair, Pool};

/// The annotations that an attribute has, where it is one of annotations.
fn notes_of(attribute: &Attribute) -> Option<&[Note]>
    ensures { option_copied result ≡ notes_of attribute.now }
{
    match attribute {
        Attribute::Annotations { list, .. } => Some(list.as_slice()),
        _ => None,
    }
}

fn has_notes(attribute: &Attribute) -> bool
    ensures { result ≡ is_some (notes_of attribute.now) }
{
    notes_of(attribute).is_some()
}

fn with_notes(attributes: &[Attribute]) -> Option<&Attribute>
    ensures { option_copied result ≡ find (λ a. is_some (notes_of a)) attributes.now }
{
    attributes.iter().find(|attribute| has_notes(attribute))
}

/// The annotations among the attributes of a method that are visible at run time.
#[tactic(auto, unfolding(crate::specs::Annotations::annotations_in))]
pub(crate) fn annotations_in(attributes: &[Attribute]) -> &[Note]
    ensures { result.now ≡ annotations_in attributes.now }
{
    match with_notes(attributes) {
        None => &[],
        Some(attribute) => match notes_of(attribute) {
            Some(notes) => notes,
            None => &[],
        },
    }
}

/// Whether an annotation is one of a task.
pub(crate) fn is_of_task(pool: &Pool, note: &Note) -> bool
    ensures { result ≡ is_of_task pool.now note.now }
{
    pool.text_or_empty(note.kind) == b"Lmill/Task;".as_slice()
}

/// The first of the annotations that is one of a task.
pub(crate) fn first_of_task<'a>(pool: &Pool, notes: &'a [Note]) -> Option<&'a Note>
    ensures { option_copied result ≡ find (is_of_task pool.now) notes.now }
{
    notes.iter().find(|note| is_of_task(pool, note))
}

/// How many of the annotations are of a task.
pub(crate) fn count_of_task(pool: &Pool, notes: &[Note]) -> usize
    ensures { result ≡ count_by (is_of_task pool.now) notes.now }
{
    notes.iter().filter(|note| is_of_task(pool, note)).count()
}

pub(crate) fn is_pair_of(pool: &Pool, name: &[u8], pair: &Pair) -> bool
    ensures { result ≡ is_pair_of pool.now name.now pair.now }
{
    pool.text_or_empty(pair.name) == name
}

/// The value of the first pair of a name.
#[tactic(auto, unfolding(crate::specs::Annotations::value_of))]
pub(crate) fn value_of<'a>(pool: &Pool, name: &[u8], pairs: &'a [Pair]) -> Option<&'a Element>
    ensures { option_copied result ≡ value_of pool.now name.now pairs.now }
{
    let pair = pairs.iter().find(|pair| is_pair_of(pool, name, pair))?;
    Some(&pair.value)
}

fn is_known(pool: &Pool, pair: &Pair) -> bool
    ensures { result ≡ is_known pool.now pair.now }
{
    is_pair_of(pool, b"name", pair)
        || is_pair_of(pool, b"kind", pair)
        || is_pair_of(pool, b"inputs", pair)
        || is_pair_of(pool, b"path", pair)
        || is_pair_of(pool, b"budget", pair)
}

fn are_known(pool: &Pool, pairs: &[Pair]) -> bool
    ensures { result ≡ list_all (is_known pool.now) pairs.now }
{
    pairs.iter().all(|pair| is_known(pool, pair))
}

fn count_of(pool: &Pool, name: &[u8], pairs: &[Pair]) -> usize
    ensures { result ≡ count_by (is_pair_of pool.now name.now) pairs.now }
{
    pairs
        .iter()
        .filter(|pair| is_pair_of(pool, name, pair))
        .count()
}

fn stands_once(pool: &Pool, name: &[u8], pairs: &[Pair]) -> bool
    ensures { result ≡ stands_once pool.now name.now pairs.now }
{
    count_of(pool, name, pairs) <= 1
}

/// Whether each pair is of an element that a task has, and none has two.
#[tactic(auto, unfolding(crate::specs::Annotations::are_known_once))]
pub(crate) fn are_known_once(pool: &Pool, pairs: &[Pair]) -> bool
    ensures { result ≡ are_known_once pool.now pairs.now }
{
    are_known(pool, pairs)
        && stands_once(pool, b"name", pairs)
        && stands_once(pool, b"kind", pairs)
        && stands_once(pool, b"inputs", pairs)
        && stands_once(pool, b"path", pairs)
        && stands_once(pool, b"budget", pairs)
}

/// A value that is a text.
pub(crate) fn text_in<'a>(pool: &'a Pool, value: &Element) -> Option<&'a [u8]>
    ensures { option_copied result ≡ text_in pool.now value.now }
{
    match value {
        Element::Const { tag: b's', index } => pool.text(*index),
        _ => None,
    }
}

/// The bits of a value that is an int.
pub(crate) fn int_in(pool: &Pool, value: &Element) -> Option<u32>
    ensures { result ≡ int_in pool.now value.now }
{
    let Element::Const { tag: b'I', index } = value else {
        return None;
    };
    match pool.constant(*index) {
        Some(Constant::Integer(bits)) => Some(*bits),
        _ => None,
    }
}

/// The values of a value that is an array.
pub(crate) fn array_in(value: &Element) -> Option<&[Element]>
    ensures { option_copied result ≡ array_in value.now }
{
    match value {
        Element::Many(values) => Some(values.as_slice()),
        _ => None,
    }
}
