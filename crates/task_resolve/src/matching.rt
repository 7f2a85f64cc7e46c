//! Which names a selector's segments match.
//!
//! For each end of a name a mark says whether the segments that were looked at match it. They are looked at from the
//! last one on, and each makes the next marks from those before, so a name costs the selector's segments times its
//! own, however many of them are `__`. The marks stand from that of the empty end to that of the whole name.

ghost use Rattle.std.specs.Prelude.{◌≡◌, ℕ, ◌+◌, ◌-◌, ◌<◌, ◌≤◌, ◌^◌, ◌∷◌, [], List, length, map, IfOk, slice_index_or};
ghost use Rattle.std.specs.List.{list_any};
ghost use Rattle.std.specs.Str.{bytes_eq};
ghost use Rattle.task_model.specs.TaskNames.{name_segments};
ghost use Rattle.task_resolve.specs.Matching.{fits, matches};
ghost use Rattle.task_resolve.specs.Marks.{AreMarks, is_any, next_mark};
ghost use Rattle.task_resolve.specs.declared.request.Segment.{Segment};

use crate::request::Segment;
use crate::segments::word_parts;
use std::alloc::{AllocError, Global};
use tree_value::Text;

fn is_among(texts: &[Text], name: &[u8]) -> bool
    ensures { result ≡ list_any (λ text. bytes_eq text name.now) texts.now }
{
    texts.iter().any(|text| text.as_slice() == name)
}

/// Whether a segment of a name fits one of a selector, which isn't `__`.
fn fits(segment: &Segment, name: &[u8]) -> bool
    ensures { result ≡ fits segment.now name.now }
{
    match segment {
        Segment::Literal(text) => text.as_slice() == name,
        Segment::One => true,
        Segment::Any => false,
        Segment::Choice(texts) => is_among(texts.as_slice(), name),
    }
}

fn is_any(segment: &Segment) -> bool
    ensures { result ≡ is_any segment.now }
{
    match segment {
        Segment::Literal(_) => false,
        Segment::One => false,
        Segment::Any => true,
        Segment::Choice(_) => false,
    }
}

fn name_at<'n>(names: &[&'n [u8]], place: usize) -> &'n [u8]
    requires { place < length names.now }
    ensures { result.now ≡ slice_index_or (map (λ name. name.now) names.now) place [] }
{
    names[place]
}

#[tactic(auto, unfolding(crate::specs::Marks::next_mark))]
fn next_mark(segment: &Segment, names: &[&[u8]], marks: &[bool], last: bool, count: usize) -> bool
    requires marks { length marks.now ≡ length names.now + 1 }
    requires count { count ≤ length names.now }
    ensures { result ≡ next_mark segment.now (map (λ name. name.now) names.now) marks.now last count }
{
    if is_any(segment) {
        marks[count] || count > 0 && last
    } else {
        count > 0 && fits(segment, name_at(names, names.len() - count)) && marks[count - 1]
    }
}

/// The marks with one more segment before those of the marks.
fn next_marks(
    alloc: Global,
    segment: &Segment,
    names: &[&[u8]],
    marks: &[bool],
) -> Result<Vec<bool>, AllocError>
    requires { length marks.now ≡ length names.now + 1 }
    ensures counted { IfOk result (λ next. length next.items ≡ length names.now + 1) }
    ensures right { IfOk result (λ next. (segments : List Segment) → AreMarks segments (map (λ name. name.now) names.now) marks.now
        → AreMarks (segment.now ∷ segments) (map (λ name. name.now) names.now) next.items) }
{
    let mut next = Vec::with_capacity(alloc, marks.len())?;
    let mut last = false;
    for count in 0..marks.len() {
        last = next_mark(segment, names, marks, last, count);
        next.push(last)?;
    }
    Ok(next)
}

/// The marks of no segments, which match the empty end alone.
fn first_marks(alloc: Global, len: usize) -> Result<Vec<bool>, AllocError>
    requires { len < 2 ^ 63 }
    ensures { IfOk result (λ marks. (names : List (List ℕ)) → length names ≡ len → AreMarks [] names marks.items) }
{
    let mut marks = Vec::with_capacity(alloc, len + 1)?;
    for count in 0..len + 1 {
        marks.push(count == 0)?;
    }
    Ok(marks)
}

fn are_matched(alloc: Global, segments: &[Segment], names: &[&[u8]]) -> Result<bool, AllocError>
    ensures { IfOk result (λ matched. matched ≡ matches segments.now (map (λ name. name.now) names.now)) }
{
    let mut marks = first_marks(alloc, names.len())?;
    for done in 0..segments.len() {
        let segment = &segments[segments.len() - 1 - done];
        marks = next_marks(alloc, segment, names, &marks)?;
    }
    Ok(marks[names.len()])
}

/// Whether a selector's segments match a task's name.
pub(crate) fn is_matched(
    alloc: Global,
    segments: &[Segment],
    name: &[u8],
) -> Result<bool, AllocError>
    ensures { IfOk result (λ matched. matched ≡ matches segments.now (name_segments name.now)) }
{
    let names = word_parts(alloc, name)?;
    are_matched(alloc, segments, &names)
}
