//! Natives of StringBuilder.

ghost use Rattle.std.specs.Prelude.{◌≡◌};
ghost use Rattle.native_model.specs.Ends.{answer_of, Answers};
ghost use Rattle.native_model.specs.Texts.{unit_of};
ghost use Rattle.native_model.specs.Strings.{builder_made, builder_text, builder_length, appended, append_text, append_char, append_truth};

use crate::found::{builder_copy, text_copy};
use jvm_heap::Slot;
use native_model::{Naming, NativeEnd, StepFault, Throw, World};

/// Puts units behind those of a builder, and gives the builder.
pub(crate) fn append<N: Naming>(
    builder: u32,
    more: &[u16],
    world: &mut World<N>,
) -> Result<NativeEnd, StepFault>
    ensures { Answers (appended builder more.now world.old.world) result world.old world.new }
{
    world.append(builder, more, Some(Slot::Ref(builder)))
}

/// `new StringBuilder(String)`: the units of a text behind those of the builder.
pub fn builder_made<N: Naming>(
    builder: u32,
    text: u32,
    world: &mut World<N>,
) -> Result<NativeEnd, StepFault>
    ensures { Answers (builder_made builder text world.old.world) result world.old world.new }
{
    match text_copy(text, world)? {
        Some(more) => world.append(builder, more.as_slice(), None),
        None => Ok(NativeEnd::Throws(Throw::IncompatibleChange)),
    }
}

/// `StringBuilder.toString()`.
pub fn builder_text<N: Naming>(builder: u32, world: &mut World<N>) -> Result<NativeEnd, StepFault>
    ensures { Answers (builder_text builder world.old.world) result world.old world.new }
{
    match builder_copy(builder, world)? {
        Some(units) => world.give_text(units),
        None => Ok(NativeEnd::Throws(Throw::IncompatibleChange)),
    }
}

/// `StringBuilder.length()`.
pub fn builder_length<N: Naming>(builder: u32, world: &World<N>) -> NativeEnd
    ensures { builder_length builder world.now.world ≡ answer_of result world.now.world }
{
    match world.builder(builder) {
        Some(units) => NativeEnd::Gives(Some(Slot::Int(units.len() as i32))),
        None => NativeEnd::Throws(Throw::IncompatibleChange),
    }
}

/// `StringBuilder.append(String)`, of null too.
pub fn append_text<N: Naming>(
    builder: u32,
    text: u32,
    world: &mut World<N>,
) -> Result<NativeEnd, StepFault>
    ensures { Answers (append_text builder text world.old.world) result world.old world.new }
{
    if text == 0 {
        return append(builder, &[0x6e, 0x75, 0x6c, 0x6c], world);
    }
    match text_copy(text, world)? {
        Some(more) => append(builder, more.as_slice(), world),
        None => Ok(NativeEnd::Throws(Throw::IncompatibleChange)),
    }
}

pub(crate) fn unit_of(n: i32) -> u16
    ensures { result ≡ unit_of n }
{
    (n.cast_unsigned() & 0xffff) as u16
}

/// `StringBuilder.append(char)`.
pub fn append_char<N: Naming>(
    builder: u32,
    unit: i32,
    world: &mut World<N>,
) -> Result<NativeEnd, StepFault>
    ensures { Answers (append_char builder unit world.old.world) result world.old world.new }
{
    append(builder, &[unit_of(unit)], world)
}

/// `StringBuilder.append(boolean)`.
pub fn append_truth<N: Naming>(
    builder: u32,
    truth: i32,
    world: &mut World<N>,
) -> Result<NativeEnd, StepFault>
    ensures { Answers (append_truth builder truth world.old.world) result world.old world.new }
{
    if truth == 0 {
        append(builder, &[0x66, 0x61, 0x6c, 0x73, 0x65], world)
    } else {
        append(builder, &[0x74, 0x72, 0x75, 0x65], world)
    }
}
