//! Natives of String that take or look for a part of it.

ghost use Rattle.std.specs.Prelude.{◌≡◌, ◌<◌, pos, length, IfOk};
ghost use Rattle.jvm_heap.specs.Heaps.{most_cells};
ghost use Rattle.native_model.specs.Ends.{answer_of, Answers};
ghost use Rattle.native_model.specs.Strings.{substring, text_from, text_between, text_index, text_contains};
ghost use Rattle.native_model.specs.Worlds as worlds;
ghost use Rattle.native_text.specs.Found.{text_or_thrown};

use crate::found::give_or_throw;
use crate::search::place_of;
use jvm_heap::{Slot, Units};
use native_model::{Naming, NativeEnd, StepFault, Throw, World};
use std::alloc::{AllocError, Global};

/// The units between two places, or which of the places is bad.
fn part(
    alloc: Global,
    units: &[u16],
    from: i32,
    to: i32,
) -> Result<Result<Units, Throw>, AllocError>
    requires { length units.now < most_cells }
    ensures { IfOk result (λ found. (w : worlds.World) →
        substring units.now from to w ≡ text_or_thrown found w) }
{
    let length = units.len() as i32;
    if from < 0 || from > length {
        return Ok(Err(Throw::TextBounds(from, units.len() as u32)));
    }
    if to < from || to > length {
        return Ok(Err(Throw::TextBounds(to, units.len() as u32)));
    }
    Ok(Ok(Units::from_slice(alloc, &units[from as usize..to as usize])?))
}

fn part_from<N: Naming>(
    text: u32,
    from: i32,
    world: &World<N>,
) -> Result<Result<Units, Throw>, StepFault>
    ensures { IfOk result (λ found. text_from text from world.now.world ≡ text_or_thrown found world.now.world) }
{
    match world.text(text) {
        Some(units) => Ok(part(world.allocator(), units, from, units.len() as i32)?),
        None => Ok(Err(Throw::IncompatibleChange)),
    }
}

fn part_between<N: Naming>(
    text: u32,
    from: i32,
    to: i32,
    world: &World<N>,
) -> Result<Result<Units, Throw>, StepFault>
    ensures { IfOk result (λ found.
        text_between text from to world.now.world ≡ text_or_thrown found world.now.world) }
{
    match world.text(text) {
        Some(units) => Ok(part(world.allocator(), units, from, to)?),
        None => Ok(Err(Throw::IncompatibleChange)),
    }
}

/// `String.substring(int)`.
pub fn text_from<N: Naming>(
    text: u32,
    from: i32,
    world: &mut World<N>,
) -> Result<NativeEnd, StepFault>
    ensures { Answers (text_from text from world.old.world) result world.old world.new }
{
    let found = part_from(text, from, world)?;
    give_or_throw(found, world)
}

/// `String.substring(int, int)`.
pub fn text_between<N: Naming>(
    text: u32,
    from: i32,
    to: i32,
    world: &mut World<N>,
) -> Result<NativeEnd, StepFault>
    ensures { Answers (text_between text from to world.old.world) result world.old world.new }
{
    let found = part_between(text, from, to, world)?;
    give_or_throw(found, world)
}

/// `String.indexOf(String)`: -1 where the part stands nowhere.
pub fn text_index<N: Naming>(
    text: u32,
    other: u32,
    world: &World<N>,
) -> Result<NativeEnd, StepFault>
    ensures { IfOk result (λ end. text_index text other world.now.world ≡ answer_of end world.now.world) }
{
    match world.text(text) {
        Some(units) => match world.text(other) {
            Some(others) => match place_of(world.allocator(), units, others)? {
                Some(at) => Ok(NativeEnd::Gives(Some(Slot::Int(at as i32)))),
                None => Ok(NativeEnd::Gives(Some(Slot::Int(-1)))),
            },
            None => Ok(NativeEnd::Throws(Throw::IncompatibleChange)),
        },
        None => Ok(NativeEnd::Throws(Throw::IncompatibleChange)),
    }
}

/// `String.contains(CharSequence)`, of a String alone.
pub fn text_contains<N: Naming>(
    text: u32,
    other: u32,
    world: &World<N>,
) -> Result<NativeEnd, StepFault>
    ensures { IfOk result (λ end. text_contains text other world.now.world ≡ answer_of end world.now.world) }
{
    match world.text(text) {
        Some(units) => match world.text(other) {
            Some(others) => {
                let found = place_of(world.allocator(), units, others)?;
                Ok(NativeEnd::truth(found.is_some()))
            }
            None => Ok(NativeEnd::Throws(Throw::Unsupported)),
        },
        None => Ok(NativeEnd::Throws(Throw::IncompatibleChange)),
    }
}
