//! Calls (JVMS 6.5, invokevirtual to invokestatic).

ghost use Rattle.std.specs.Prelude.{◌≡◌};
ghost use Rattle.class_code.specs.Parts.{member_ref};
ghost use Rattle.jvm_model.specs.Instructions as instructions;
ghost use Rattle.jvm_model.specs.Instructions.{called_virtually, called_specially, called_statically};
ghost use Rattle.jvm_resolve.specs.Ends.{target_of};
ghost use Rattle.jvm_model.specs.Plans.{end_of};
ghost use Rattle.jvm_resolve.specs.Ends.{EndsAs};
ghost use Rattle.jvm_state.specs.Changes.{OperandsAlone};
ghost use Rattle.jvm_state.specs.Frames.{method_frame};
ghost use Rattle.jvm_state.specs.Names.{names};
ghost use Rattle.jvm_effects.specs.Effects.{effect_of};

use crate::arguments::{kinds_with_receiver, parameter_kinds, take_arguments};
use crate::effect::Effect;
use class_code::MemberView;
use jvm_heap::{Frame, Slots};
use jvm_resolve::{Stop, Target, special_callee, static_target, virtual_callee};
use jvm_state::Members;
use native_model::World;
use std::alloc::Global;

/// A method is called on an object, as invokevirtual and invokeinterface do.
#[tactic(auto, using(crate::proofs::Steps::steps))]
pub fn called_virtually<P: Members>(
    method: MemberView<'_>,
    frame: &mut Frame,
    world: &World<P>,
) -> Result<Effect, Stop>
    ensures made { let n = names (P.class_name world.now.names) (P.method_name world.now.names)
        (P.field_name world.now.names) (P.site_origin world.now.names)
        (P.concatenation_at world.now.names) in
        EndsAs (λ e. effect_of n e (method_frame n.method frame.new) world.now.world) result
        (end_of (P.oracle world.now.names)
        (called_virtually (member_ref method.entry) (method_frame n.method frame.old)
        world.now.world)) }
    ensures frame { OperandsAlone frame.old frame.new }
{
    let alloc = world.allocator();
    let kinds = kinds_with_receiver(alloc, method.descriptor)?;
    let slots = take_arguments(alloc, world.names(), kinds.as_slice(), frame)?;
    let callee = virtual_callee(alloc, method, slots.as_slice(), world)?;
    Ok(Effect::Enters(callee, slots))
}

/// A method is called as invokespecial does, in code of the frame's class.
#[tactic(auto, using(crate::proofs::Steps::steps))]
pub fn called_specially<P: Members>(
    method: MemberView<'_>,
    frame: &mut Frame,
    world: &World<P>,
) -> Result<Effect, Stop>
    ensures made { let n = names (P.class_name world.now.names) (P.method_name world.now.names)
        (P.field_name world.now.names) (P.site_origin world.now.names)
        (P.concatenation_at world.now.names) in
        EndsAs (λ e. effect_of n e (method_frame n.method frame.new) world.now.world) result
        (end_of (P.oracle world.now.names)
        (called_specially (member_ref method.entry) (method_frame n.method frame.old)
        world.now.world)) }
    ensures frame { OperandsAlone frame.old frame.new }
{
    let alloc = world.allocator();
    let program = world.names();
    let kinds = kinds_with_receiver(alloc, method.descriptor)?;
    let slots = take_arguments(alloc, program, kinds.as_slice(), frame)?;
    let caller = program.name_of(program.class_of_method(frame.method));
    let callee = special_callee(alloc, caller, method, slots.as_slice(), world)?;
    Ok(Effect::Enters(callee, slots))
}

/// The static method that is called, and its arguments.
#[tactic(auto, using(crate::proofs::Steps::steps))]
pub fn called_statically<'a, P: Members>(
    alloc: Global,
    method: MemberView<'_>,
    frame: &mut Frame,
    program: &'a P,
) -> Result<(Target<'a>, Slots), Stop>
    ensures made { EndsAs (λ found. instructions.statically
        (target_of (P.method_name program.now) found.0) found.1
        (method_frame (P.method_name program.now) frame.new)) result
        (end_of (P.oracle program.now) (called_statically (member_ref method.entry)
        (method_frame (P.method_name program.now) frame.old))) }
    ensures frame { OperandsAlone frame.old frame.new }
{
    let kinds = parameter_kinds(alloc, method.descriptor)?;
    let slots = take_arguments(alloc, program, kinds.as_slice(), frame)?;
    match static_target(alloc, program, method) {
        Ok(target) => Ok((target, slots)),
        Err(stop) => Err(stop),
    }
}
