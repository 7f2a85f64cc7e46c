//! Natives that hand each element of a list to a callback.

ghost use Rattle.std.specs.Prelude.{◌≡◌, ◌++◌, IfOk, OnOk};
ghost use Rattle.native_model.specs.Answers.{results};
ghost use Rattle.native_model.specs.Ends.{answer_of, progress_of, Answers};
ghost use Rattle.native_model.specs.Lists.{list_each, list_map, list_filter, list_fold, passed};
ghost use Rattle.list_natives.specs.Kept.{kept_of};

use crate::results::{last_or, numbers_given, result_at};
use jvm_heap::Slot;
use jvm_tables::Callback;
use native_model::{Handed, Naming, NativeEnd, Progress, StepFault, Throw, World, is_true};
use std::alloc::{AllocError, Global};

/// `List.forEach(Consumer)`, and `Lists.each(List, Consumer)`.
pub fn list_each<N: Naming>(
    list: u32,
    consumer: u32,
    progress: &Progress,
    world: &World<N>,
) -> NativeEnd
    ensures { list_each list consumer (progress_of progress.now) world.now.world
        ≡ answer_of result world.now.world }
{
    let Some((_, elements)) = world.list(list) else {
        return NativeEnd::Throws(Throw::ClassCast);
    };
    let at = progress.answered as usize;
    if at < elements.len() {
        NativeEnd::CallsBack(Callback::Accept, Handed::Two(consumer, elements[at]))
    } else {
        NativeEnd::Gives(None)
    }
}

/// `Lists.map(List, Function)`.
pub fn list_map<N: Naming>(
    list: u32,
    function: u32,
    progress: &Progress,
    world: &mut World<N>,
) -> Result<NativeEnd, StepFault>
    ensures { Answers (list_map list function (progress_of progress.now) world.old.world)
        result world.old world.new }
{
    let Some((_, elements)) = world.list(list) else {
        return Ok(NativeEnd::Throws(Throw::ClassCast));
    };
    let at = progress.answered as usize;
    if at < elements.len() {
        let handed = Handed::Two(function, elements[at]);
        return Ok(NativeEnd::CallsBack(Callback::Apply, handed));
    }
    let numbers = numbers_given(world.allocator(), progress)?;
    world.give_list(numbers)
}

/// Keeps an element for which a callback gave true.
fn keep(kept: &mut Vec<u32>, element: u32, slot: Slot) -> Result<(), AllocError>
    ensures { OnOk result (kept.new.items ≡ kept.old.items ++ kept_of slot element) }
{
    if is_true(slot) {
        kept.push(element)?;
    }
    Ok(())
}

/// The elements for which a callback gave true.
fn passed(alloc: Global, elements: &[u32], progress: &Progress) -> Result<Vec<u32>, AllocError>
    ensures { IfOk result (λ kept. kept.items ≡ passed elements.now (results (progress_of progress.now))) }
{
    let mut kept = Vec::new(alloc);
    for at in 0..elements.len() {
        let Some(slot) = result_at(progress, at) else {
            return Ok(kept);
        };
        keep(&mut kept, elements[at], slot)?;
    }
    Ok(kept)
}

/// `Lists.filter(List, Predicate)`.
pub fn list_filter<N: Naming>(
    list: u32,
    predicate: u32,
    progress: &Progress,
    world: &mut World<N>,
) -> Result<NativeEnd, StepFault>
    ensures { Answers (list_filter list predicate (progress_of progress.now) world.old.world)
        result world.old world.new }
{
    let Some((_, elements)) = world.list(list) else {
        return Ok(NativeEnd::Throws(Throw::ClassCast));
    };
    let at = progress.answered as usize;
    if at < elements.len() {
        let handed = Handed::Two(predicate, elements[at]);
        return Ok(NativeEnd::CallsBack(Callback::Test, handed));
    }
    let kept = passed(world.allocator(), elements, progress)?;
    world.give_list(kept)
}

/// `Lists.fold(List, Object, BiFunction)`.
pub fn list_fold<N: Naming>(
    list: u32,
    first: u32,
    function: u32,
    progress: &Progress,
    world: &World<N>,
) -> NativeEnd
    ensures { list_fold list first function (progress_of progress.now) world.now.world
        ≡ answer_of result world.now.world }
{
    let Some((_, elements)) = world.list(list) else {
        return NativeEnd::Throws(Throw::ClassCast);
    };
    let so_far = last_or(first, progress);
    let at = progress.answered as usize;
    if at < elements.len() {
        let handed = Handed::Three(function, so_far, elements[at]);
        NativeEnd::CallsBack(Callback::ApplyTwo, handed)
    } else {
        NativeEnd::Gives(Some(Slot::Ref(so_far)))
    }
}
