//! The native that logs a line.

ghost use Rattle.std.specs.Prelude.{◌≡◌, IfOk};
ghost use Rattle.line_text.specs.Lines.{line_of_units};
ghost use Rattle.native_model.specs.Ends.{Answers};
ghost use Rattle.native_model.specs.Outside.{log_info};
ghost use Rattle.os_natives.specs.Plans.{planned};

use crate::plan::{Plan, carry_out};
use line_text::{one_line_law, push_units};
use native_model::{Naming, NativeEnd, StepFault, Throw, World};
use std::alloc::Global;
use tree_value::{Text, TextFault};

/// Units as they are printed in a line.
fn line_of(alloc: Global, units: &[u16]) -> Result<Text, StepFault>
    ensures { IfOk result (λ line. line ≡ line_of_units units.now) }
{
    let mut bytes = Vec::new(alloc);
    push_units(&mut bytes, units)?;
    match Text::of(alloc, bytes.as_slice()) {
        Ok(line) => Ok(line),
        Err(_) => Err(StepFault::Memory),
    }
}

fn log<N: Naming>(text: u32, world: &World<N>) -> Result<Plan, StepFault>
    ensures { IfOk result (λ plan. log_info text world.now.world ≡ planned plan world.now.world) }
{
    match world.text(text) {
        Some(units) => Ok(Plan::PutsLine(line_of(world.allocator(), units)?)),
        None => Ok(Plan::Ends(NativeEnd::Throws(Throw::IncompatibleChange))),
    }
}

/// `Log.info(String)`.
pub fn log_info<N: Naming>(text: u32, world: &mut World<N>) -> Result<NativeEnd, StepFault>
    ensures { Answers (log_info text world.old.world) result world.old world.new }
{
    let plan = log(text, world)?;
    carry_out(plan, world)
}
