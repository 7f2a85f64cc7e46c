//! Natives that read the environment, which Input and Command bodies may.

ghost use Rattle.std.specs.Prelude.{◌≡◌, IfOk, option_map};
ghost use Rattle.std.specs.Option.{option_copied};
ghost use Rattle.std.specs.Int.{w64, cast_signed};
ghost use Rattle.native_model.specs.Ends.{answer_of, Answers};
ghost use Rattle.native_model.specs.Outside.{variable, gives_variable, env_get, env_now};
ghost use Rattle.native_model.specs.Worlds as worlds;
ghost use Rattle.os_natives.specs.Plans.{planned, variable_of};

use crate::plan::{Plan, carry_out};
use crate::units::{text_of_units, units_of_text};
use jvm_heap::Slot;
use native_model::{Denial, Naming, NativeEnd, StepFault, Surround, Throw, World};
use std::alloc::Global;
use tree_value::Text;

/// The first variable of a name.
fn variable<'a>(variables: &'a [(Text, Text)], name: &[u8]) -> Option<&'a Text>
    ensures { option_copied result ≡ variable variables.now name.now }
{
    let mut rest = variables;
    'each: while let Some((first, behind)) = rest.split_first() {
        if first.0.as_slice() == name {
            return Some(&first.1);
        }
        rest = behind;
    }
    None
}

/// The text of a variable, or null.
fn give_variable(alloc: Global, found: Option<&Text>) -> Result<Plan, StepFault>
    ensures { IfOk result (λ plan. (w : worlds.World) →
        gives_variable w (option_copied found.entry) ≡ planned plan w) }
{
    let Some(text) = found else {
        return Ok(Plan::Ends(NativeEnd::Gives(Some(Slot::Ref(0)))));
    };
    match str::from_utf8(text.as_slice()) {
        Ok(text) => Ok(Plan::GivesText(units_of_text(alloc, text)?)),
        Err(_) => Ok(Plan::Ends(NativeEnd::Gives(Some(Slot::Ref(0))))),
    }
}

/// The variable that units name.
fn variable_of(alloc: Global, around: &Surround, units: &[u16]) -> Result<Plan, StepFault>
    ensures { IfOk result (λ plan. (w : worlds.World) →
        variable_of around.now units.now w ≡ planned plan w) }
{
    match text_of_units(alloc, units)? {
        Some(name) => give_variable(
            alloc,
            variable(around.environment.as_slice(), name.as_bytes()),
        ),
        None => give_variable(alloc, None),
    }
}

fn get<N: Naming>(name: u32, world: &World<N>) -> Result<Plan, StepFault>
    ensures { IfOk result (λ plan. env_get name world.now.world ≡ planned plan world.now.world) }
{
    let Some(units) = world.text(name) else {
        return Ok(Plan::Ends(NativeEnd::Throws(Throw::IncompatibleChange)));
    };
    match world.surround() {
        Some(around) => variable_of(world.allocator(), around, units),
        None => Ok(Plan::Ends(NativeEnd::Throws(Throw::Denied(Denial::Env)))),
    }
}

/// `Env.get(String)`: null where there is no variable of that name. Denied to bodies of other tasks than inputs and commands.
pub fn env_get<N: Naming>(name: u32, world: &mut World<N>) -> Result<NativeEnd, StepFault>
    ensures { Answers (env_get name world.old.world) result world.old world.new }
{
    let plan = get(name, world)?;
    carry_out(plan, world)
}

/// `Env.now()`: the moment of the command.
pub fn env_now<N: Naming>(world: &World<N>) -> NativeEnd
    ensures { env_now world.now.world ≡ answer_of result world.now.world }
{
    match world.surround() {
        Some(around) => NativeEnd::Gives(Some(Slot::Long(around.moment.cast_signed()))),
        None => NativeEnd::Throws(Throw::Denied(Denial::Env)),
    }
}
