//! Natives of Object, Objects and Enum.

ghost use Rattle.std.specs.Prelude.{◌≡◌, ◌<◌, ◌^◌, IfOk, Ok, option_map};
ghost use Rattle.jvm_heap.specs.Contents.{kind_of};
ghost use Rattle.jvm_heap.specs.Renaming.{renamed_kind};
ghost use Rattle.native_model.specs.Ends.{answer_of, Answers};
ghost use Rattle.native_model.specs.Plain.{object_made, object_hash, object_equals, array_clone, required, enum_made, enum_name, enum_ordinal};
ghost use Rattle.native_model.specs.Worlds as worlds;
ghost use Rattle.native_model.specs.Worlds.{seen, as_array};

use jvm_heap::{ArrayKind, Slot, Slots};
use native_model::{Naming, NativeEnd, StepFault, Throw, World};

/// `new Object()`, and a constructor of a StringBuilder.
pub fn object_made(object: u32) -> NativeEnd
    ensures { (w : worlds.World) → object_made object w ≡ answer_of result w }
{
    let _ = object;
    NativeEnd::Gives(None)
}

/// `Object.hashCode()`: the object's number, which the heap's limit keeps below 2^31.
pub fn object_hash(object: u32) -> NativeEnd
    requires { object < 2 ^ 31 }
    ensures { (w : worlds.World) → object_hash object w ≡ answer_of result w }
{
    NativeEnd::Gives(Some(Slot::Int(object as i32)))
}

/// `Object.equals(Object)`.
pub fn object_equals(object: u32, other: u32) -> NativeEnd
    ensures { (w : worlds.World) → object_equals object other w ≡ answer_of result w }
{
    NativeEnd::truth(object == other)
}

/// The kind of an array, and its elements copied.
fn array_copy<N: Naming>(
    array: u32,
    world: &World<N>,
) -> Result<Option<(ArrayKind, Slots)>, StepFault>
    ensures { IfOk result (λ found. option_map (λ a. (
      renamed_kind
          (N.class_name world.now.names) (kind_of a.0),
      a.1,
    )) found
        ≡ seen as_array array world.now.world) }
{
    match world.array_parts(array) {
        Some((kind, elements)) => {
            let copy = Slots::from_slice(world.allocator(), elements)?;
            Ok(Some((kind, copy)))
        }
        None => Ok(None),
    }
}

/// `clone()` of an array.
pub fn array_clone<N: Naming>(array: u32, world: &mut World<N>) -> Result<NativeEnd, StepFault>
    ensures { Answers (array_clone array world.old.world) result world.old world.new }
{
    match array_copy(array, world)? {
        Some((kind, elements)) => world.give_array(kind, elements),
        None => Ok(NativeEnd::Throws(Throw::IncompatibleChange)),
    }
}

/// `Objects.requireNonNull(Object)`.
pub fn required(object: u32) -> NativeEnd
    ensures { (w : worlds.World) → required object w ≡ answer_of result w }
{
    if object == 0 {
        NativeEnd::Throws(Throw::NullPointer)
    } else {
        NativeEnd::Gives(Some(Slot::Ref(object)))
    }
}

/// The constructor of enums.
pub fn enum_made<N: Naming>(object: u32, name: u32, ordinal: i32, world: &mut World<N>) -> NativeEnd
    ensures { Answers (enum_made object name ordinal world.old.world) (Ok result) world.old world.new }
{
    world.set_name(object, name, ordinal)
}

/// `Enum.name()` and `toString()`.
pub fn enum_name<N: Naming>(object: u32, world: &World<N>) -> NativeEnd
    ensures { enum_name object world.now.world ≡ answer_of result world.now.world }
{
    match world.enum_name(object) {
        Some(name) => NativeEnd::Gives(Some(Slot::Ref(name))),
        None => NativeEnd::Throws(Throw::IncompatibleChange),
    }
}

/// `Enum.ordinal()`.
pub fn enum_ordinal<N: Naming>(object: u32, world: &World<N>) -> NativeEnd
    ensures { enum_ordinal object world.now.world ≡ answer_of result world.now.world }
{
    match world.enum_ordinal(object) {
        Some(ordinal) => NativeEnd::Gives(Some(Slot::Int(ordinal))),
        None => NativeEnd::Throws(Throw::IncompatibleChange),
    }
}
