//! Natives that call back once, on an argument.

ghost use Rattle.std.specs.Prelude.{◌≡◌, Ok, IfOk};
ghost use Rattle.native_model.specs.Answers.{text_given};
ghost use Rattle.native_model.specs.Ends.{answer_of, progress_of, Answers};
ghost use Rattle.native_model.specs.Plain.{objects_equal, throwable_caused};
ghost use Rattle.native_model.specs.Strings.{text_of_object, append_object};
ghost use Rattle.native_model.specs.Worlds as worlds;

use crate::builders::append;
use crate::found::text_copy;
use jvm_heap::{Slot, Units};
use jvm_tables::Callback;
use native_model::{Handed, Naming, NativeEnd, Progress, StepFault, Throw, World, is_true};

/// `Objects.equals(Object, Object)`, which asks the first object.
#[tactic(auto, using(crate::proofs::First::first_results))]
pub fn objects_equal(object: u32, other: u32, progress: &Progress) -> NativeEnd
    ensures { (w : worlds.World) →
        objects_equal object other (progress_of progress.now) w ≡ answer_of result w }
{
    if object == 0 {
        return NativeEnd::truth(other == 0);
    }
    if object == other {
        return NativeEnd::truth(true);
    }
    if progress.answered == 0 {
        return NativeEnd::CallsBack(Callback::Equals, Handed::Two(object, other));
    }
    match progress.first_result() {
        Some(slot) => NativeEnd::truth(is_true(slot)),
        None => NativeEnd::truth(false),
    }
}

/// `String.valueOf(Object)`, which asks the object.
#[tactic(auto, using(crate::proofs::First::first_results))]
pub fn text_of_object<N: Naming>(
    object: u32,
    progress: &Progress,
    world: &mut World<N>,
) -> Result<NativeEnd, StepFault>
    ensures { Answers (text_of_object object (progress_of progress.now) world.old.world)
        result world.old world.new }
{
    if object == 0 {
        let units = Units::from_slice(world.allocator(), &[0x6e, 0x75, 0x6c, 0x6c])?;
        return world.give_text(units);
    }
    if progress.answered == 0 {
        return Ok(NativeEnd::CallsBack(Callback::ToString, Handed::One(object)));
    }
    match progress.first_result() {
        Some(Slot::Ref(n)) => Ok(NativeEnd::Gives(Some(Slot::Ref(n)))),
        _ => Ok(NativeEnd::Throws(Throw::IncompatibleChange)),
    }
}

/// The text that a callback gave, copied.
fn text_given<N: Naming>(slot: Slot, world: &World<N>) -> Result<Option<Units>, StepFault>
    ensures { IfOk result (λ found. found ≡ text_given slot world.now.world) }
{
    match slot {
        Slot::Ref(0) => Ok(Some(Units::from_slice(world.allocator(), &[0x6e, 0x75, 0x6c, 0x6c])?)),
        Slot::Ref(n) => text_copy(n, world),
        _ => Ok(None),
    }
}

/// `StringBuilder.append(Object)`, which asks the object.
#[tactic(auto, using(crate::proofs::First::first_results))]
pub fn append_object<N: Naming>(
    builder: u32,
    object: u32,
    progress: &Progress,
    world: &mut World<N>,
) -> Result<NativeEnd, StepFault>
    ensures { Answers (append_object builder object (progress_of progress.now) world.old.world)
        result world.old world.new }
{
    if object == 0 {
        return append(builder, &[0x6e, 0x75, 0x6c, 0x6c], world);
    }
    if progress.answered == 0 {
        return Ok(NativeEnd::CallsBack(Callback::ToString, Handed::One(object)));
    }
    let Some(slot) = progress.first_result() else {
        return Ok(NativeEnd::Throws(Throw::IncompatibleChange));
    };
    match text_given(slot, world)? {
        Some(more) => append(builder, more.as_slice(), world),
        None => Ok(NativeEnd::Throws(Throw::IncompatibleChange)),
    }
}

/// The constructor of throwables with a cause, whose text is the message.
#[tactic(auto, using(crate::proofs::First::first_results))]
pub fn throwable_caused<N: Naming>(
    object: u32,
    cause: u32,
    progress: &Progress,
    world: &mut World<N>,
) -> NativeEnd
    ensures { Answers (throwable_caused object cause (progress_of progress.now) world.old.world)
        (Ok result) world.old world.new }
{
    if cause == 0 {
        return world.set_message(object, 0, 0);
    }
    if progress.answered == 0 {
        return NativeEnd::CallsBack(Callback::ToString, Handed::One(cause));
    }
    match progress.first_result() {
        Some(Slot::Ref(message)) => world.set_message(object, message, cause),
        _ => NativeEnd::Throws(Throw::IncompatibleChange),
    }
}
