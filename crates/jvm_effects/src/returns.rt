//! Returns with a value (JVMS 6.5, ireturn to areturn).

ghost use Rattle.std.specs.Prelude.{◌≡◌};
ghost use Rattle.jvm_model.specs.Plans.{end_of};
ghost use Rattle.jvm_model.specs.Instructions.{returned};
ghost use Rattle.jvm_resolve.specs.Ends.{EndsAs};
ghost use Rattle.jvm_state.specs.Changes.{OperandsAlone};
ghost use Rattle.jvm_state.specs.Frames.{method_frame};
ghost use Rattle.jvm_state.specs.Names.{names};
ghost use Rattle.jvm_effects.specs.Effects.{effect_of};

use crate::effect::Effect;
use crate::operands::take_value;
use jvm_heap::Frame;
use jvm_resolve::Stop;
use jvm_state::Members;
use jvm_tables::ValueKind;
use native_model::World;

/// A value of a kind is returned.
#[tactic(auto, using(jvm_resolve::proofs::Ends::ended))]
pub fn returned<P: Members>(
    kind: ValueKind,
    frame: &mut Frame,
    world: &World<P>,
) -> Result<Effect, Stop>
    ensures made { let n = names (P.class_name world.now.names) (P.method_name world.now.names)
        (P.field_name world.now.names) (P.site_origin world.now.names)
        (P.concatenation_at world.now.names) in
        EndsAs (λ e. effect_of n e (method_frame n.method frame.new) world.now.world) result
        (end_of (P.oracle world.now.names) (returned kind (method_frame n.method frame.old))) }
    ensures frame { OperandsAlone frame.old frame.new }
{
    let slot = take_value(world.names(), kind, frame)?;
    Ok(Effect::Returns(Some(slot)))
}
