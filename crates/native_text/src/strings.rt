//! Natives of String.

ghost use Rattle.std.specs.Prelude.{◌≡◌};
ghost use Rattle.native_model.specs.Ends.{answer_of, Answers};
ghost use Rattle.native_model.specs.Strings.{text_length, text_is_empty, text_char_at, text_starts, text_ends, text_equals, text_itself, text_concat};
ghost use Rattle.native_model.specs.Worlds as worlds;

use crate::found::joined_texts;
use jvm_heap::Slot;
use native_model::{Naming, NativeEnd, StepFault, Throw, World};

/// `String.length()`.
pub fn text_length<N: Naming>(text: u32, world: &World<N>) -> NativeEnd
    ensures { text_length text world.now.world ≡ answer_of result world.now.world }
{
    match world.text(text) {
        Some(units) => NativeEnd::Gives(Some(Slot::Int(units.len() as i32))),
        None => NativeEnd::Throws(Throw::IncompatibleChange),
    }
}

/// `String.isEmpty()`.
pub fn text_is_empty<N: Naming>(text: u32, world: &World<N>) -> NativeEnd
    ensures { text_is_empty text world.now.world ≡ answer_of result world.now.world }
{
    match world.text(text) {
        Some(units) => NativeEnd::truth(units.is_empty()),
        None => NativeEnd::Throws(Throw::IncompatibleChange),
    }
}

/// `String.charAt(int)`.
pub fn text_char_at<N: Naming>(text: u32, index: i32, world: &World<N>) -> NativeEnd
    ensures { text_char_at text index world.now.world ≡ answer_of result world.now.world }
{
    match world.text(text) {
        Some(units) => {
            if index >= 0 && (index as usize) < units.len() {
                NativeEnd::Gives(Some(Slot::Int(i32::from(units[index as usize]))))
            } else {
                NativeEnd::Throws(Throw::TextBounds(index, units.len() as u32))
            }
        }
        None => NativeEnd::Throws(Throw::IncompatibleChange),
    }
}

/// `String.startsWith(String)`.
pub fn text_starts<N: Naming>(text: u32, other: u32, world: &World<N>) -> NativeEnd
    ensures { text_starts text other world.now.world ≡ answer_of result world.now.world }
{
    match world.text(text) {
        Some(units) => match world.text(other) {
            Some(others) => NativeEnd::truth(units.starts_with(others)),
            None => NativeEnd::Throws(Throw::IncompatibleChange),
        },
        None => NativeEnd::Throws(Throw::IncompatibleChange),
    }
}

/// `String.endsWith(String)`.
pub fn text_ends<N: Naming>(text: u32, other: u32, world: &World<N>) -> NativeEnd
    ensures { text_ends text other world.now.world ≡ answer_of result world.now.world }
{
    match world.text(text) {
        Some(units) => match world.text(other) {
            Some(others) => NativeEnd::truth(units.ends_with(others)),
            None => NativeEnd::Throws(Throw::IncompatibleChange),
        },
        None => NativeEnd::Throws(Throw::IncompatibleChange),
    }
}

/// `String.equals(Object)`.
pub fn text_equals<N: Naming>(text: u32, other: u32, world: &World<N>) -> NativeEnd
    ensures { text_equals text other world.now.world ≡ answer_of result world.now.world }
{
    match world.text(text) {
        Some(units) => match world.text(other) {
            Some(others) => NativeEnd::truth(units == others),
            None => NativeEnd::truth(false),
        },
        None => NativeEnd::Throws(Throw::IncompatibleChange),
    }
}

/// `String.toString()`, which is the same object.
pub fn text_itself(text: u32) -> NativeEnd
    ensures { (w : worlds.World) → text_itself text w ≡ answer_of result w }
{
    NativeEnd::Gives(Some(Slot::Ref(text)))
}

/// `String.concat(String)`.
pub fn text_concat<N: Naming>(
    text: u32,
    other: u32,
    world: &mut World<N>,
) -> Result<NativeEnd, StepFault>
    ensures { Answers (text_concat text other world.old.world) result world.old world.new }
{
    match joined_texts(text, other, world)? {
        Some(units) => world.give_text(units),
        None => Ok(NativeEnd::Throws(Throw::IncompatibleChange)),
    }
}
