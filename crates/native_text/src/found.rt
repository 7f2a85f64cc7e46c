//! Units that natives find in the world before they make a text.

ghost use Rattle.std.specs.Prelude.{◌≡◌, ◌++◌, IfOk};
ghost use Rattle.native_model.specs.Worlds.{as_text, as_builder, seen};
ghost use Rattle.native_model.specs.Ends.{Answers};
ghost use Rattle.native_text.specs.Found.{joined_texts, text_or_thrown};

use jvm_heap::Units;
use native_model::{Naming, NativeEnd, StepFault, Throw, World};
use std::alloc::{AllocError, Global};

/// Units one behind the other.
fn joined(alloc: Global, first: &[u16], second: &[u16]) -> Result<Units, AllocError>
    ensures { IfOk result (λ units. units ≡ first.now ++ second.now) }
{
    let mut units = Vec::with_capacity(alloc, first.len())?;
    units.extend_from_slice(first)?;
    units.extend_from_slice(second)?;
    Ok(Units::from_vec(units))
}

/// The units of a text, copied.
pub(crate) fn text_copy<N: Naming>(text: u32, world: &World<N>) -> Result<Option<Units>, StepFault>
    ensures { IfOk result (λ found. found ≡ seen as_text text world.now.world) }
{
    match world.text(text) {
        Some(units) => Ok(Some(Units::from_slice(world.allocator(), units)?)),
        None => Ok(None),
    }
}

/// The units of a builder, copied.
pub(crate) fn builder_copy<N: Naming>(
    builder: u32,
    world: &World<N>,
) -> Result<Option<Units>, StepFault>
    ensures { IfOk result (λ found. found ≡ seen as_builder builder world.now.world) }
{
    match world.builder(builder) {
        Some(units) => Ok(Some(Units::from_slice(world.allocator(), units)?)),
        None => Ok(None),
    }
}

/// Two texts one behind the other.
pub(crate) fn joined_texts<N: Naming>(
    text: u32,
    other: u32,
    world: &World<N>,
) -> Result<Option<Units>, StepFault>
    ensures { IfOk result (λ found. found ≡ joined_texts text other world.now.world) }
{
    match world.text(text) {
        Some(units) => match world.text(other) {
            Some(others) => Ok(Some(joined(world.allocator(), units, others)?)),
            None => Ok(None),
        },
        None => Ok(None),
    }
}

/// A text of units that were made, or what is thrown in its place.
pub(crate) fn give_or_throw<N: Naming>(
    made: Result<Units, Throw>,
    world: &mut World<N>,
) -> Result<NativeEnd, StepFault>
    ensures { Answers (text_or_thrown made world.old.world) result world.old world.new }
{
    match made {
        Ok(units) => world.give_text(units),
        Err(what) => Ok(NativeEnd::Throws(what)),
    }
}
