//! What callbacks gave.

ghost use Rattle.std.specs.Prelude.{◌≡◌, ◌++◌, IfOk, map, slice_get};
ghost use Rattle.native_model.specs.Answers.{results};
ghost use Rattle.native_model.specs.Ends.{progress_of};
ghost use Rattle.native_model.specs.Lists.{last_is_true, last_or, number_in};

use jvm_heap::Slot;
use native_model::{Last, Progress, is_true};
use std::alloc::{AllocError, Global};

/// The reference in a slot; null in any other.
pub(crate) fn number_in(slot: Slot) -> u32
    ensures { result ≡ number_in slot }
{
    match slot {
        Slot::Ref(n) => n,
        _ => 0,
    }
}

/// The references in slots, copied.
pub(crate) fn numbers_in(alloc: Global, slots: &[Slot]) -> Result<Vec<u32>, AllocError>
    ensures { IfOk result (λ numbers. numbers.items ≡ map number_in slots.now) }
{
    slots.iter().map(|slot| number_in(*slot)).collect(alloc)
}

/// The references that callbacks gave, in order.
pub(crate) fn numbers_given(alloc: Global, progress: &Progress) -> Result<Vec<u32>, AllocError>
    ensures { IfOk result (λ numbers. numbers.items ≡ map number_in (results (progress_of progress.now))) }
{
    let mut numbers = numbers_in(alloc, progress.given.as_slice())?;
    match &progress.last {
        Last::Slot(slot) => {
            numbers.push(number_in(*slot))?;
            Ok(numbers)
        }
        _ => Ok(numbers),
    }
}

/// Whether the last callback gave another number than 0.
pub(crate) fn last_is_true(progress: &Progress) -> bool
    ensures { result ≡ last_is_true (progress_of progress.now) }
{
    match &progress.last {
        Last::Slot(slot) => is_true(*slot),
        _ => false,
    }
}

/// The last reference in slots, or the first one where there are none.
#[tactic(auto, using(crate::proofs::Answered::answers))]
fn last_in(first: u32, slots: &[Slot]) -> u32
    ensures { result ≡ last_or first slots.now }
{
    match slots.split_last() {
        Some((slot, _)) => number_in(*slot),
        None => first,
    }
}

/// The reference that was given last, or the first one where none was given.
#[tactic(auto, using(crate::proofs::Answered::answers))]
pub(crate) fn last_or(first: u32, progress: &Progress) -> u32
    ensures { result ≡ last_or first (results (progress_of progress.now)) }
{
    match &progress.last {
        Last::Slot(slot) => number_in(*slot),
        _ => last_in(first, progress.given.as_slice()),
    }
}

/// What a callback gave, by its place among them.
pub(crate) fn result_at(progress: &Progress, at: usize) -> Option<Slot>
    ensures { result ≡ slice_get (results (progress_of progress.now)) at }
{
    if at < progress.given.len() {
        return Some(progress.given.get(at));
    }
    match &progress.last {
        Last::Slot(slot) if at == progress.given.len() => Some(*slot),
        _ => None,
    }
}

/// The element that is to be handed to the next callback.
pub(crate) fn next_element(elements: &[u32], progress: &Progress) -> Option<u32>
    ensures { result ≡ slice_get elements.now progress.now.answered }
{
    elements.get(progress.answered as usize).copied()
}
