//! Lengths of arrays (JVMS 6.5, arraylength).

ghost use Rattle.std.specs.Prelude.{◌≡◌, ◌<◌, true, option_map};
ghost use Rattle.jvm_heap.specs.Heaps.{most_cells};
ghost use Rattle.jvm_model.specs.Plans.{end_of};
ghost use Rattle.jvm_model.specs.Arrays.{array_for};
ghost use Rattle.jvm_model.specs.Instructions.{array_length};
ghost use Rattle.jvm_resolve.specs.Ends.{EndsAs};
ghost use Rattle.jvm_state.specs.Changes.{OperandsAlone};
ghost use Rattle.jvm_state.specs.Frames.{method_frame};
ghost use Rattle.jvm_state.specs.Names.{names};
ghost use Rattle.jvm_effects.specs.Effects.{effect_of};

use crate::effect::Effect;
use crate::operands::take_reference;
use jvm_heap::{Frame, Slot};
use jvm_resolve::Stop;
use jvm_state::Members;
use native_model::{Throw, World};

/// The length of an array, which is no null.
#[tactic(auto, using(jvm_resolve::proofs::Ends::ended), unfolding(jvm_model::specs::Arrays::array_for))]
pub fn array_length<P: Members>(frame: &mut Frame, world: &World<P>) -> Result<Effect, Stop>
    ensures made { let n = names (P.class_name world.now.names) (P.method_name world.now.names)
        (P.field_name world.now.names) (P.site_origin world.now.names)
        (P.concatenation_at world.now.names) in
        EndsAs (λ e. effect_of n e (method_frame n.method frame.new) world.now.world) result
        (end_of (P.oracle world.now.names)
        (array_length (method_frame n.method frame.old) world.now.world)) }
    ensures frame { OperandsAlone frame.old frame.new }
{
    let number = take_reference(world.names(), frame)?;
    if number == 0 {
        return Err(Stop::Throws(Throw::NullPointer));
    }
    match world.array_parts(number) {
        Some((_, elements)) => Ok(Effect::Results(Some(Slot::Int(elements.len() as i32)))),
        None => Err(Stop::Throws(Throw::IncompatibleChange)),
    }
}
