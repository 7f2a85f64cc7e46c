//! The texts of selectors.

ghost use Rattle.std.specs.Prelude.{◌≡◌, ◌<◌, length, map, IfOk, IsTrue};
ghost use Rattle.std.specs.List.{list_all};
ghost use Rattle.task_model.specs.TaskNames.{is_name_segment};
ghost use Rattle.task_resolve.specs.Segments.{inner, choices, is_braced, is_choice, is_segment, segment, parts, is_selector, segments};

use crate::request::{Segment, Segments};
use std::alloc::{AllocError, Global};
use task_model::is_name_segment;
use tree_value::{Lines, Sequence, Text, TextFault};

fn inner(text: &[u8]) -> &[u8]
    requires { 1 < length text.now }
    ensures { result.now ≡ inner text.now }
{
    &text[1..text.len() - 1]
}

fn is_braced(text: &[u8]) -> bool
    requires { 1 < length text.now }
    ensures { result ≡ is_braced text.now }
{
    text[0] == b'{' && text[text.len() - 1] == b'}'
}

fn are_choices(text: &[u8]) -> bool
    requires { 1 < length text.now }
    ensures { result ≡ list_all is_name_segment (choices text.now) }
{
    inner(text)
        .split(|byte| *byte == b',')
        .all(|name| is_name_segment(name))
}

fn is_choice(text: &[u8]) -> bool
    ensures { result ≡ is_choice text.now }
{
    text.len() > 1 && is_braced(text) && are_choices(text)
}

#[tactic(auto, unfolding(crate::specs::Segments::is_segment))]
fn is_segment(text: &[u8]) -> bool
    ensures { result ≡ is_segment text.now }
{
    text == b"_".as_slice() || text == b"__".as_slice() || is_name_segment(text) || is_choice(text)
}

/// Whether the word is a selector.
#[tactic(auto, unfolding(crate::specs::Segments::is_selector))]
pub(crate) fn is_selector(word: &[u8]) -> bool
    ensures { result ≡ is_selector word.now }
{
    word.split(|byte| *byte == b'.').all(is_segment)
}

fn name_text(alloc: Global, text: &[u8]) -> Result<Text, AllocError>
    requires { IsTrue (is_name_segment text.now) }
    ensures { IfOk result (λ name. name ≡ text.now) }
{
    match Text::of(alloc, text) {
        Ok(name) => Ok(name),
        Err(TextFault::BadText) => unreachable!(),
        Err(TextFault::Memory) => Err(AllocError),
    }
}

fn name_texts(alloc: Global, names: &[&[u8]]) -> Result<Lines, AllocError>
    requires { IsTrue (list_all is_name_segment (map (λ name. name.now) names.now)) }
    ensures { IfOk result (λ texts. texts ≡ map (λ name. name.now) names.now) }
{
    let mut texts = Vec::with_capacity(alloc, names.len())?;
    for name in names {
        texts.push(name_text(alloc, name)?)?;
    }
    Ok(Sequence::from_vec(texts))
}

fn choice_texts(alloc: Global, text: &[u8]) -> Result<Lines, AllocError>
    requires some { 1 < length text.now }
    requires names { IsTrue (list_all is_name_segment (choices text.now)) }
    ensures { IfOk result (λ texts. texts ≡ choices text.now) }
{
    let names = choice_parts(alloc, text)?;
    name_texts(alloc, &names)
}

fn choice_parts(alloc: Global, text: &[u8]) -> Result<Vec<&[u8]>, AllocError>
    requires { 1 < length text.now }
    ensures { IfOk result (λ parts. map (λ part. part.now) parts.items ≡ choices text.now) }
{
    inner(text).split(|byte| *byte == b',').collect(alloc)
}

#[tactic(auto, unfolding(crate::specs::Segments::is_segment, crate::specs::Segments::segment))]
fn segment(alloc: Global, text: &[u8]) -> Result<Segment, AllocError>
    requires { IsTrue (is_segment text.now) }
    ensures { IfOk result (λ made. made ≡ segment text.now) }
{
    if text == b"_".as_slice() {
        Ok(Segment::One)
    } else if text == b"__".as_slice() {
        Ok(Segment::Any)
    } else if is_name_segment(text) {
        Ok(Segment::Literal(name_text(alloc, text)?))
    } else {
        Ok(Segment::Choice(choice_texts(alloc, text)?))
    }
}

pub(crate) fn word_parts(alloc: Global, word: &[u8]) -> Result<Vec<&[u8]>, AllocError>
    ensures { IfOk result (λ made. map (λ part. part.now) made.items ≡ parts word.now) }
{
    word.split(|byte| *byte == b'.').collect(alloc)
}

fn segments_of(alloc: Global, parts: &[&[u8]]) -> Result<Segments, AllocError>
    requires { IsTrue (list_all is_segment (map (λ part. part.now) parts.now)) }
    ensures { IfOk result (λ made. made ≡ map segment (map (λ part. part.now) parts.now)) }
{
    let mut made = Vec::with_capacity(alloc, parts.len())?;
    for part in parts {
        made.push(segment(alloc, part)?)?;
    }
    Ok(Sequence::from_vec(made))
}

/// The segments of a selector.
#[tactic(auto, unfolding(crate::specs::Segments::is_selector, crate::specs::Segments::segments))]
pub(crate) fn segments(alloc: Global, word: &[u8]) -> Result<Segments, AllocError>
    requires { IsTrue (is_selector word.now) }
    ensures { IfOk result (λ made. made ≡ segments word.now) }
{
    let parts = word_parts(alloc, word)?;
    segments_of(alloc, &parts)
}
