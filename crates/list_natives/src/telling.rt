//! The text of a list, which asks each element for its own.

ghost use Rattle.std.specs.Prelude.{◌≡◌, ◌++◌, ◌∷◌, IfOk, OnOk, filter, slice_get};
ghost use Rattle.std.specs.List.{list_all};
ghost use Rattle.native_model.specs.Answers.{gives_text, or_mismatch, results};
ghost use Rattle.native_model.specs.Ends.{progress_of, Answers};
ghost use Rattle.native_model.specs.Lists.{element_texts, is_there, list_text, list_told, with_commas};
ghost use Rattle.list_natives.specs.Told.{element_told, is_told, separator, taken, text_told, texts_told};

use crate::results::result_at;
use jvm_heap::{Slot, Units};
use jvm_tables::Callback;
use native_model::{Handed, Last, Naming, NativeEnd, Progress, StepFault, Throw, World};
use std::alloc::{AllocError, Global};

/// The element of a place among those that are no null.
fn next_there(elements: &[u32], place: u32) -> Option<u32>
    ensures { result ≡ slice_get (filter is_there elements.now) place }
{
    let mut rest = elements;
    let mut left = place;
    'each: while let Some((first, behind)) = rest.split_first() {
        if *first != 0 {
            if left == 0 {
                return Some(*first);
            }
            left -= 1;
        }
        rest = behind;
    }
    None
}

/// Whether what a callback gave is a text, or null.
fn is_told<N: Naming>(slot: Slot, world: &World<N>) -> bool
    ensures { result ≡ is_told world.now.world slot }
{
    match slot {
        Slot::Ref(0) => true,
        Slot::Ref(n) => world.text(n).is_some(),
        _ => false,
    }
}

fn are_told<N: Naming>(slots: &[Slot], world: &World<N>) -> bool
    ensures { result ≡ list_all (is_told world.now.world) slots.now }
{
    let mut rest = slots;
    'each: while let Some((first, behind)) = rest.split_first() {
        if !is_told(*first, world) {
            return false;
        }
        rest = behind;
    }
    true
}

/// Whether all that callbacks gave are texts.
#[tactic(auto, using(crate::proofs::Listed::told_lists))]
fn all_told<N: Naming>(progress: &Progress, world: &World<N>) -> bool
    ensures { result ≡ list_all (is_told world.now.world) (results (progress_of progress.now)) }
{
    let before = are_told(progress.given.as_slice(), world);
    match &progress.last {
        Last::Slot(slot) => before && is_told(*slot, world),
        _ => before,
    }
}

/// The text that a callback gave.
fn push_text<N: Naming>(
    units: &mut Vec<u16>,
    slot: Slot,
    world: &World<N>,
) -> Result<(), AllocError>
    ensures { OnOk result (units.new.items ≡ units.old.items ++ text_told world.now.world slot) }
{
    match slot {
        Slot::Ref(0) => units.extend_from_slice(&[0x6e, 0x75, 0x6c, 0x6c]),
        Slot::Ref(n) => match world.text(n) {
            Some(text) => units.extend_from_slice(text),
            None => Ok(()),
        },
        _ => Ok(()),
    }
}

/// The text of an element, by what its callback gave.
fn push_element<N: Naming>(
    units: &mut Vec<u16>,
    element: u32,
    given: Option<Slot>,
    world: &World<N>,
) -> Result<(), AllocError>
    ensures { OnOk result (units.new.items ≡ units.old.items ++ element_told world.now.world element given) }
{
    if element == 0 {
        return units.extend_from_slice(&[0x6e, 0x75, 0x6c, 0x6c]);
    }
    match given {
        Some(slot) => push_text(units, slot, world),
        None => units.extend_from_slice(&[0x6e, 0x75, 0x6c, 0x6c]),
    }
}

/// A comma and a blank, where more follows.
fn push_separator(units: &mut Vec<u16>, behind: &[u32]) -> Result<(), AllocError>
    ensures { OnOk result (units.new.items ≡ units.old.items ++ separator behind.now) }
{
    if behind.is_empty() {
        return Ok(());
    }
    units.extend_from_slice(&[0x2c, 0x20])
}

/// How many results an element takes.
fn taken(element: u32) -> usize
    ensures { result ≡ taken element }
{
    if element == 0 { 0 } else { 1 }
}

/// The texts of elements, with commas.
fn elements_told<N: Naming>(
    alloc: Global,
    elements: &[u32],
    progress: &Progress,
    world: &World<N>,
) -> Result<Vec<u16>, AllocError>
    ensures { IfOk result (λ units. units.items ≡ 0x5b ∷ with_commas (element_texts elements.now
        (texts_told world.now.world (results (progress_of progress.now))))) }
{
    let mut units = vec![in alloc; 0x5b]?;
    let mut rest = elements;
    let mut next = 0;
    'each: while let Some((first, behind)) = rest.split_first() {
        push_element(&mut units, *first, result_at(progress, next), world)?;
        push_separator(&mut units, behind)?;
        next += taken(*first);
        rest = behind;
    }
    Ok(units)
}

/// The text of a list by those of its elements. `None` where a callback gave no text.
fn list_units<N: Naming>(
    elements: &[u32],
    progress: &Progress,
    world: &World<N>,
) -> Result<Option<Units>, StepFault>
    ensures { IfOk result (λ found. list_told elements.now (progress_of progress.now) world.now.world
        ≡ or_mismatch found (λ units. gives_text units world.now.world)) }
{
    if !all_told(progress, world) {
        return Ok(None);
    }
    let mut units = elements_told(world.allocator(), elements, progress, world)?;
    units.push(0x5d)?;
    Ok(Some(Units::from_vec(units)))
}

/// `List.toString()`: of the form `[a, b]`, with `null` for a null. Each other element is asked for its text, one callback
/// an element.
pub fn list_text<N: Naming>(
    list: u32,
    progress: &Progress,
    world: &mut World<N>,
) -> Result<NativeEnd, StepFault>
    ensures { Answers (list_text list (progress_of progress.now) world.old.world)
        result world.old world.new }
{
    let Some((_, elements)) = world.list(list) else {
        return Ok(NativeEnd::Throws(Throw::ClassCast));
    };
    if let Some(element) = next_there(elements, progress.answered) {
        return Ok(NativeEnd::CallsBack(Callback::ToString, Handed::One(element)));
    }
    match list_units(elements, progress, world)? {
        Some(units) => world.give_text(units),
        None => Ok(NativeEnd::Throws(Throw::IncompatibleChange)),
    }
}
