//! Natives that make, read and change lists.

ghost use Rattle.std.specs.Prelude.{◌≡◌, Ok, IfOk, map, nat_eq, option_map};
ghost use Rattle.std.specs.List.{list_any};
ghost use Rattle.native_model.specs.Ends.{answer_of, Answers};
ghost use Rattle.native_model.specs.Lists.{is_fixed, number_in, list_made, list_made_for, list_size, list_is_empty, list_get, list_set, list_add, list_equals, list_hash, list_of, list_of_array};
ghost use Rattle.native_model.specs.Worlds as worlds;
ghost use Rattle.native_model.specs.Worlds.{seen, as_array};

use crate::results::numbers_in;
use jvm_heap::Slot;
use native_model::{Naming, NativeEnd, StepFault, Throw, World};

/// Whether lists of a class can't change.
fn is_fixed(class: &[u8]) -> bool
    ensures { result ≡ is_fixed class.now }
{
    class == b"mill/FixedList".as_slice()
}

/// `new ArrayList()`.
pub fn list_made(list: u32) -> NativeEnd
    ensures { (w : worlds.World) → list_made list w ≡ answer_of result w }
{
    let _ = list;
    NativeEnd::Gives(None)
}

/// `new ArrayList(int)`, of any number.
pub fn list_made_for(list: u32, room: i32) -> NativeEnd
    ensures { (w : worlds.World) → list_made_for list room w ≡ answer_of result w }
{
    let _ = (list, room);
    NativeEnd::Gives(None)
}

/// `List.size()`.
pub fn list_size<N: Naming>(list: u32, world: &World<N>) -> NativeEnd
    ensures { list_size list world.now.world ≡ answer_of result world.now.world }
{
    match world.list(list) {
        Some((_, elements)) => NativeEnd::Gives(Some(Slot::Int(elements.len() as i32))),
        None => NativeEnd::Throws(Throw::ClassCast),
    }
}

/// `List.isEmpty()`.
pub fn list_is_empty<N: Naming>(list: u32, world: &World<N>) -> NativeEnd
    ensures { list_is_empty list world.now.world ≡ answer_of result world.now.world }
{
    match world.list(list) {
        Some((_, elements)) => NativeEnd::truth(elements.is_empty()),
        None => NativeEnd::Throws(Throw::ClassCast),
    }
}

/// `List.get(int)`.
pub fn list_get<N: Naming>(list: u32, index: i32, world: &World<N>) -> NativeEnd
    ensures { list_get list index world.now.world ≡ answer_of result world.now.world }
{
    match world.list(list) {
        Some((_, elements)) => {
            if index >= 0 && (index as usize) < elements.len() {
                NativeEnd::Gives(Some(Slot::Ref(elements[index as usize])))
            } else {
                NativeEnd::Throws(Throw::ListBounds(index, elements.len() as u32))
            }
        }
        None => NativeEnd::Throws(Throw::ClassCast),
    }
}

/// `List.set(int, Object)`, which gives the element that was there.
pub fn list_set<N: Naming>(list: u32, index: i32, element: u32, world: &mut World<N>) -> NativeEnd
    ensures { Answers (list_set list index element world.old.world) (Ok result) world.old world.new }
{
    let Some((class, elements)) = world.list(list) else {
        return NativeEnd::Throws(Throw::ClassCast);
    };
    if is_fixed(class) {
        return NativeEnd::Throws(Throw::Unsupported);
    }
    if index < 0 || index as usize >= elements.len() {
        return NativeEnd::Throws(Throw::ListBounds(index, elements.len() as u32));
    }
    let before = elements[index as usize];
    world.set_element(list, index as u32, element);
    NativeEnd::Gives(Some(Slot::Ref(before)))
}

/// `List.add(Object)`.
pub fn list_add<N: Naming>(
    list: u32,
    element: u32,
    world: &mut World<N>,
) -> Result<NativeEnd, StepFault>
    ensures { Answers (list_add list element world.old.world) result world.old world.new }
{
    let Some((class, _)) = world.list(list) else {
        return Ok(NativeEnd::Throws(Throw::ClassCast));
    };
    if is_fixed(class) {
        return Ok(NativeEnd::Throws(Throw::Unsupported));
    }
    world.add_element(list, element)
}

/// `List.equals(Object)`.
pub fn list_equals(list: u32, other: u32) -> NativeEnd
    ensures { (w : worlds.World) → list_equals list other w ≡ answer_of result w }
{
    let _ = (list, other);
    NativeEnd::Throws(Throw::Unsupported)
}

/// `List.hashCode()`.
pub fn list_hash(list: u32) -> NativeEnd
    ensures { (w : worlds.World) → list_hash list w ≡ answer_of result w }
{
    let _ = list;
    NativeEnd::Throws(Throw::Unsupported)
}

fn has_null(elements: &[u32]) -> bool
    ensures { result ≡ list_any (nat_eq 0) elements.now }
{
    elements.iter().any(|element| 0 == *element)
}

/// `List.of` of some elements.
pub fn list_of<N: Naming>(elements: Vec<u32>, world: &mut World<N>) -> Result<NativeEnd, StepFault>
    ensures { Answers (list_of elements.items world.old.world) result world.old world.new }
{
    if has_null(elements.as_slice()) {
        return Ok(NativeEnd::Throws(Throw::NullPointer));
    }
    world.give_list(elements)
}

/// The references in an array, copied.
fn array_numbers<N: Naming>(array: u32, world: &World<N>) -> Result<Option<Vec<u32>>, StepFault>
    ensures { IfOk result (λ found. option_map (λ v. v.items) found
        ≡ option_map (λ a. map number_in a.1) (seen as_array array world.now.world)) }
{
    match world.array(array) {
        Some(slots) => Ok(Some(numbers_in(world.allocator(), slots)?)),
        None => Ok(None),
    }
}

/// `List.of(Object[])`.
pub fn list_of_array<N: Naming>(array: u32, world: &mut World<N>) -> Result<NativeEnd, StepFault>
    ensures { Answers (list_of_array array world.old.world) result world.old world.new }
{
    match array_numbers(array, world)? {
        Some(elements) => list_of(elements, world),
        None => Ok(NativeEnd::Throws(Throw::IncompatibleChange)),
    }
}
