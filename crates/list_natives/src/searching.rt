//! Natives that look for an object in a list: they ask it, one callback an element.

ghost use Rattle.std.specs.Prelude.{◌≡◌, ◌<◌, ◌^◌, nat_eq, position, IfSome, length};
ghost use Rattle.native_model.specs.Ends.{answer_of, progress_of};
ghost use Rattle.native_model.specs.Lists.{list_contains, list_index};

use crate::results::{last_is_true, next_element};
use jvm_heap::Slot;
use jvm_tables::Callback;
use native_model::{Handed, Naming, NativeEnd, Progress, Throw, World};

fn place_of_null(elements: &[u32]) -> Option<usize>
    ensures place { result ≡ position (nat_eq 0) elements.now }
    ensures within { IfSome result (λ at. at < length elements.now) }
{
    elements.iter().position(|element| 0 == *element)
}

/// `List.contains(Object)`. Null is looked for without a callback.
pub fn list_contains<N: Naming>(
    list: u32,
    object: u32,
    progress: &Progress,
    world: &World<N>,
) -> NativeEnd
    ensures { list_contains list object (progress_of progress.now) world.now.world
        ≡ answer_of result world.now.world }
{
    let Some((_, elements)) = world.list(list) else {
        return NativeEnd::Throws(Throw::ClassCast);
    };
    if object == 0 {
        return NativeEnd::truth(place_of_null(elements).is_some());
    }
    if last_is_true(progress) {
        return NativeEnd::truth(true);
    }
    match next_element(elements, progress) {
        Some(element) => NativeEnd::CallsBack(Callback::Equals, Handed::Two(object, element)),
        None => NativeEnd::truth(false),
    }
}

/// `List.indexOf(Object)`: -1 where no element is equal. Null is looked for without a callback. The budget of
/// instructions keeps the number of callbacks below 2^31.
pub fn list_index<N: Naming>(
    list: u32,
    object: u32,
    progress: &Progress,
    world: &World<N>,
) -> NativeEnd
    requires { progress.now.answered < 2 ^ 31 }
    ensures { list_index list object (progress_of progress.now) world.now.world
        ≡ answer_of result world.now.world }
{
    let Some((_, elements)) = world.list(list) else {
        return NativeEnd::Throws(Throw::ClassCast);
    };
    if object == 0 {
        return match place_of_null(elements) {
            Some(at) => NativeEnd::Gives(Some(Slot::Int(at as i32))),
            None => NativeEnd::Gives(Some(Slot::Int(-1))),
        };
    }
    if last_is_true(progress) {
        let at = progress.answered.saturating_sub(1);
        return NativeEnd::Gives(Some(Slot::Int(at as i32)));
    }
    match next_element(elements, progress) {
        Some(element) => NativeEnd::CallsBack(Callback::Equals, Handed::Two(object, element)),
        None => NativeEnd::Gives(Some(Slot::Int(-1))),
    }
}
