//! Looking for a part of a text, in time that grows with both lengths and not with their product: what a place told of
//! the part is used for the places behind it.

ghost use Rattle.std.specs.Prelude.{◌≡◌, ◌+◌, ◌-◌, ◌<◌, ◌≤◌, ◌^◌, IfOk, IfSome, length};
ghost use Rattle.native_model.specs.Texts.{place_from};
ghost use Rattle.native_text.specs.Searching.{Agrees, Reaches, IsOverlaps};

use std::alloc::{AllocError, Global};

/// How far the part stands at a place, where so many units are known.
fn reach_from(part: &[u16], text: &[u16], at: usize, known: usize) -> usize
    requires in_part { known ≤ length part.now }
    requires in_text { at + known ≤ length text.now }
    requires agrees { Agrees part.now text.now at known }
    ensures { Reaches part.now text.now at result }
{
    let mut reached = known;
    while reached < part.len() && reached < text.len() - at {
        if text[at + reached] != part[reached] {
            return reached;
        }
        reached += 1;
    }
    reached
}

/// The same behind a place whose reach is known. What stands behind that place in the part stands here too.
fn reach_behind(
    part: &[u16],
    text: &[u16],
    overlaps: &[usize],
    start: usize,
    end: usize,
    at: usize,
) -> usize
    requires in_text { at ≤ length text.now }
    requires behind { at < end → start < at }
    requires known { at < end → Reaches part.now text.now start (end - start) }
    requires told { IsOverlaps part.now overlaps.now }
    requires enough { at < end → at - start < length overlaps.now }
    ensures { Reaches part.now text.now at result }
{
    if at >= end {
        return reach_from(part, text, at, 0);
    }
    let again = overlaps[at - start];
    if again < end - at {
        return again;
    }
    reach_from(part, text, at, end - at)
}

/// For each place of a part how far the part stands there again; at the first all of it does.
#[tactic(auto, using(crate::proofs::Searching::searching))]
fn overlaps_of(alloc: Global, part: &[u16]) -> Result<Vec<usize>, AllocError>
    requires { 0 < length part.now }
    ensures told { IfOk result (λ overlaps. IsOverlaps part.now overlaps.items) }
    ensures all { IfOk result (λ overlaps. length overlaps.items ≡ length part.now) }
{
    let mut overlaps = Vec::with_capacity(alloc, part.len())?;
    overlaps.push(part.len())?;
    let mut start = 0;
    let mut end = 0;
    for at in 1..part.len() {
        let reached = reach_behind(part, part, overlaps.as_slice(), start, end, at);
        if at + reached > end {
            start = at;
            end = at + reached;
        }
        overlaps.push(reached)?;
    }
    Ok(overlaps)
}

/// The first place of a text at which a part stands.
#[tactic(auto, using(crate::proofs::Searching::searching))]
pub(crate) fn place_of(
    alloc: Global,
    text: &[u16],
    part: &[u16],
) -> Result<Option<usize>, AllocError>
    ensures place { IfOk result (λ found. found ≡ place_from 0 part.now text.now) }
    ensures within { IfOk result (λ found. IfSome found (λ at. at ≤ length text.now)) }
{
    if part.is_empty() {
        return Ok(Some(0));
    }
    let overlaps = overlaps_of(alloc, part)?;
    let mut start = 0;
    let mut end = 0;
    for at in 0..text.len() {
        let reached = reach_behind(part, text, overlaps.as_slice(), start, end, at);
        if reached == part.len() {
            return Ok(Some(at));
        }
        if at + reached > end {
            start = at;
            end = at + reached;
        }
    }
    Ok(None)
}
