//! Call sites (JVMS 6.5, invokedynamic).

ghost use Rattle.std.specs.Prelude.{◌≡◌};
ghost use Rattle.class_code.specs.Parts.{handle_ref};
ghost use Rattle.jvm_model.specs.Plans.{end_of};
ghost use Rattle.jvm_resolve.specs.Ends.{EndsAs};
ghost use Rattle.jvm_state.specs.Changes.{HeapAlone, KeptIfThrown, OperandsAlone};
ghost use Rattle.jvm_state.specs.Frames.{method_frame};
ghost use Rattle.jvm_state.specs.Names.{names};
ghost use Rattle.jvm_effects.specs.Effects.{effect_of, lambda_at, interface_known, handle_resolved, concatenation_run};

use crate::arguments::{parameter_kinds, take_arguments};
use crate::effect::Effect;
use crate::making::made_effect;
use class_code::HandleView;
use class_model::{SiteId, is_interface};
use jvm_heap::{Content, Frame, Object};
use jvm_resolve::{Stop, if_static, resolved};
use jvm_state::{Called, Members};
use native_model::{Throw, World};
use std::alloc::Global;
use tree_value::Bytes;

/// The class that is named is there, and an interface.
#[tactic(auto, using(crate::proofs::Steps::steps))]
fn interface_known<P: Members>(alloc: Global, program: &P, name: &[u8]) -> Result<(), Stop>
    ensures { EndsAs (λ done. tt) result
        (end_of (P.oracle program.now) (interface_known name.now)) }
{
    let Some(flags) = program.class_flags(name) else {
        return Err(Stop::Throws(Throw::AbsentClass(Bytes::from_slice(alloc, name)?)));
    };
    if is_interface(flags) {
        Ok(())
    } else {
        Err(Stop::Throws(Throw::IncompatibleChange))
    }
}

/// The implementing method of a lambda is there. Handles of kind 6 are static, and no others.
#[tactic(auto, using(crate::proofs::Steps::steps), unfolding(crate::specs::Effects::handle_resolved))]
fn handle_resolved<P: Members>(
    alloc: Global,
    program: &P,
    handle: HandleView<'_>,
) -> Result<(), Stop>
    ensures { EndsAs (λ done. tt) result
        (end_of (P.oracle program.now) (handle_resolved (handle_ref handle.entry))) }
{
    match resolved(alloc, program, handle.member) {
        Ok(found) => match if_static(program, handle.kind == 6, found) {
            Ok(_) => Ok(()),
            Err(stop) => Err(stop),
        },
        Err(stop) => Err(stop),
    }
}

/// A lambda is made with the values that it captures.
#[tactic(auto, using(crate::proofs::Lambdas::lambdas))]
pub fn lambda_created<P: Members>(
    site: SiteId,
    frame: &mut Frame,
    world: &mut World<P>,
) -> Result<Effect, Stop>
    ensures made { let n = names (P.class_name world.old.names) (P.method_name world.old.names)
        (P.field_name world.old.names) (P.site_origin world.old.names)
        (P.concatenation_at world.old.names) in
        EndsAs (λ e. effect_of n e (method_frame n.method frame.new) world.new.world) result
        (end_of (P.oracle world.old.names)
        (lambda_at (n.lambda site) (method_frame n.method frame.old) world.old.world)) }
    ensures rest { HeapAlone world.old world.new }
    ensures kept { KeptIfThrown result world.old world.new }
    ensures frame { OperandsAlone frame.old frame.new }
{
    let alloc = world.allocator();
    let program = world.names();
    let lambda = program.origin(site).site;
    let Some(name) = lambda.interface() else {
        return Err(Stop::Stuck);
    };
    let kinds = parameter_kinds(alloc, lambda.descriptor)?;
    let captured = take_arguments(alloc, program, kinds.as_slice(), frame)?;
    interface_known(alloc, program, name)?;
    handle_resolved(alloc, program, lambda.implementing)?;
    made_effect(world.allocate(Object::of(Content::Lambda { site, captured })))
}

/// A concatenation is run on its arguments, whose types a descriptor tells.
#[tactic(auto, using(crate::proofs::Steps::steps))]
pub fn concatenated<P: Members>(
    site: SiteId,
    descriptor: &[u8],
    frame: &mut Frame,
    world: &World<P>,
) -> Result<Effect, Stop>
    ensures made { let n = names (P.class_name world.now.names) (P.method_name world.now.names)
        (P.field_name world.now.names) (P.site_origin world.now.names)
        (P.concatenation_at world.now.names) in
        EndsAs (λ e. effect_of n e (method_frame n.method frame.new) world.now.world) result
        (end_of (P.oracle world.now.names)
        (concatenation_run (n.concatenation site) descriptor.now (method_frame n.method frame.old))) }
    ensures frame { OperandsAlone frame.old frame.new }
{
    let alloc = world.allocator();
    let kinds = parameter_kinds(alloc, descriptor)?;
    let slots = take_arguments(alloc, world.names(), kinds.as_slice(), frame)?;
    Ok(Effect::Runs(Called::Concatenation(site), slots))
}
