//! Natives of iterators.

ghost use Rattle.std.specs.Prelude.{◌≡◌, Ok};
ghost use Rattle.native_model.specs.Ends.{answer_of, Answers};
ghost use Rattle.native_model.specs.Lists.{list_iterator, iterator_has_next, iterator_next};

use jvm_heap::Slot;
use native_model::{Naming, NativeEnd, StepFault, Throw, World};

/// `List.iterator()`.
pub fn list_iterator<N: Naming>(list: u32, world: &mut World<N>) -> Result<NativeEnd, StepFault>
    ensures { Answers (list_iterator list world.old.world) result world.old world.new }
{
    match world.list(list) {
        Some(_) => world.give_iterator(list),
        None => Ok(NativeEnd::Throws(Throw::ClassCast)),
    }
}

/// `Iterator.hasNext()`, of the list as it now is.
pub fn iterator_has_next<N: Naming>(iterator: u32, world: &World<N>) -> NativeEnd
    ensures { iterator_has_next iterator world.now.world ≡ answer_of result world.now.world }
{
    match world.iterator(iterator) {
        Some((list, next)) => match world.list(list) {
            Some((_, elements)) => NativeEnd::truth((next as usize) < elements.len()),
            None => NativeEnd::Throws(Throw::ClassCast),
        },
        None => NativeEnd::Throws(Throw::ClassCast),
    }
}

/// `Iterator.next()`.
pub fn iterator_next<N: Naming>(iterator: u32, world: &mut World<N>) -> NativeEnd
    ensures { Answers (iterator_next iterator world.old.world) (Ok result) world.old world.new }
{
    let Some((list, next)) = world.iterator(iterator) else {
        return NativeEnd::Throws(Throw::ClassCast);
    };
    let Some((_, elements)) = world.list(list) else {
        return NativeEnd::Throws(Throw::ClassCast);
    };
    if next as usize >= elements.len() {
        return NativeEnd::Throws(Throw::NoSuchElement);
    }
    let element = elements[next as usize];
    world.set_next(iterator, next + 1);
    NativeEnd::Gives(Some(Slot::Ref(element)))
}
