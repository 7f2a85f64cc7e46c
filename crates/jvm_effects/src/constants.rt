//! Constants that are loaded (JVMS 6.5, ldc to ldc2_w).

ghost use Rattle.std.specs.Prelude.{◌≡◌};
ghost use Rattle.jvm_model.specs.Instructions.{constant_pushed};
ghost use Rattle.jvm_model.specs.Plans.{end_of};
ghost use Rattle.jvm_resolve.specs.Ends.{EndsAs};
ghost use Rattle.jvm_state.specs.Changes.{HeapAlone, KeptIfThrown, OperandsAlone};
ghost use Rattle.jvm_state.specs.Frames.{method_frame};
ghost use Rattle.jvm_state.specs.Names.{names};
ghost use Rattle.jvm_effects.specs.Effects.{effect_of, named_constant};

use crate::effect::Effect;
use crate::making::made_effect;
use class_code::NamedView;
use jvm_heap::{Frame, Slot, Units};
use jvm_resolve::Stop;
use jvm_state::Members;
use native_model::{Throw, World};
use native_text::units_of_name;

/// A constant is loaded. Those of classes, handles and method types can't be.
#[tactic(auto, using(crate::proofs::Steps::steps))]
pub fn constant_pushed<P: Members>(
    constant: NamedView<'_>,
    frame: &Frame,
    world: &mut World<P>,
) -> Result<Effect, Stop>
    ensures made { let n = names (P.class_name world.old.names) (P.method_name world.old.names)
        (P.field_name world.old.names) (P.site_origin world.old.names)
        (P.concatenation_at world.old.names) in
        EndsAs (λ e. effect_of n e (method_frame n.method frame.now) world.new.world) result
        (end_of (P.oracle world.old.names)
        (constant_pushed (named_constant constant.entry) (method_frame n.method frame.now)
        world.old.world)) }
    ensures rest { HeapAlone world.old world.new }
    ensures kept { KeptIfThrown result world.old world.new }
{
    match constant {
        NamedView::Int(bits) => Ok(Effect::Results(Some(Slot::Int(bits.cast_signed())))),
        NamedView::Long(bits) => Ok(Effect::Results(Some(Slot::Long(bits.cast_signed())))),
        NamedView::Text(bytes) => {
            let units = Units::from_vec(units_of_name(world.allocator(), bytes)?);
            made_effect(world.constant_text(&units))
        }
        _ => Err(Stop::Throws(Throw::Unsupported)),
    }
}
