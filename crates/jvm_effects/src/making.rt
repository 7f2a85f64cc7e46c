//! New arrays (JVMS 6.5, newarray).

ghost use Rattle.std.specs.Prelude.{◌≡◌};
ghost use Rattle.jvm_heap.specs.Contents.{kind_of};
ghost use Rattle.jvm_heap.specs.Renaming.{renamed_kind};
ghost use Rattle.jvm_model.specs.Instructions.{array_made, number_array_made};
ghost use Rattle.jvm_model.specs.Plans.{end_of};
ghost use Rattle.jvm_resolve.specs.Ends.{EndsAs};
ghost use Rattle.jvm_state.specs.Changes.{HeapAlone, KeptIfThrown, OperandsAlone};
ghost use Rattle.jvm_state.specs.Frames.{method_frame};
ghost use Rattle.jvm_state.specs.Names.{names};
ghost use Rattle.jvm_effects.specs.Effects.{effect_of, made_effect};

use crate::effect::Effect;
use jvm_heap::{ArrayBase, ArrayKind, Frame, HeapFault, Slot};
use jvm_resolve::Stop;
use jvm_state::Members;
use jvm_tables::element_kind;
use native_model::{Budget, Throw, World};

/// The reference to an object that was made, or a budget that is spent.
pub(crate) fn made_effect(made: Result<u32, HeapFault>) -> Result<Effect, Stop>
    ensures { result ≡ made_effect made }
{
    match made {
        Ok(number) => Ok(Effect::Results(Some(Slot::Ref(number)))),
        Err(HeapFault::Full) => Err(Stop::Spends(Budget::Cells)),
        Err(HeapFault::Memory) => Err(Stop::Memory),
    }
}

/// An array of a kind, whose length is on top.
#[tactic(auto, using(crate::proofs::Steps::steps))]
fn array_made<P: Members>(
    kind: ArrayKind,
    frame: &mut Frame,
    world: &mut World<P>,
) -> Result<Effect, Stop>
    ensures made { let n = names (P.class_name world.old.names) (P.method_name world.old.names)
        (P.field_name world.old.names) (P.site_origin world.old.names)
        (P.concatenation_at world.old.names) in
        EndsAs (λ e. effect_of n e (method_frame n.method frame.new) world.new.world) result
        (end_of (P.oracle world.old.names)
        (array_made (renamed_kind (P.class_name world.old.names) (kind_of kind))
        (method_frame n.method frame.old) world.old.world)) }
    ensures rest { HeapAlone world.old world.new }
    ensures kept { KeptIfThrown result world.old world.new }
    ensures frame { OperandsAlone frame.old frame.new }
{
    let Some(length) = frame.operands.take_int() else {
        return Err(Stop::Stuck);
    };
    if length < 0 {
        return Err(Stop::Throws(Throw::NegativeSize(length)));
    }
    made_effect(world.make_array(kind, length.cast_unsigned()))
}

/// An array of numbers, by the code of its elements.
#[tactic(auto, using(crate::proofs::Steps::steps))]
pub fn number_array_made<P: Members>(
    code: i32,
    frame: &mut Frame,
    world: &mut World<P>,
) -> Result<Effect, Stop>
    ensures made { let n = names (P.class_name world.old.names) (P.method_name world.old.names)
        (P.field_name world.old.names) (P.site_origin world.old.names)
        (P.concatenation_at world.old.names) in
        EndsAs (λ e. effect_of n e (method_frame n.method frame.new) world.new.world) result
        (end_of (P.oracle world.old.names)
        (number_array_made code (method_frame n.method frame.old) world.old.world)) }
    ensures rest { HeapAlone world.old world.new }
    ensures kept { KeptIfThrown result world.old world.new }
    ensures frame { OperandsAlone frame.old frame.new }
{
    match element_kind(code) {
        Some(kind) => {
            let base = ArrayBase::Primitive(kind);
            array_made(ArrayKind { base, depth: 1 }, frame, world)
        }
        None => Err(Stop::Stuck),
    }
}
