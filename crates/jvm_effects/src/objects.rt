//! Objects by their classes, and monitors (JVMS 6.5, new, checkcast, instanceof, athrow and monitorenter).

ghost use Rattle.std.specs.Prelude.{◌≡◌};
ghost use Rattle.jvm_model.specs.Instructions.{object_newly, checked_cast, instance_tested, type_tested, monitor, exception_thrown, on_popped};
ghost use Rattle.jvm_model.specs.Plans.{end_of};
ghost use Rattle.jvm_resolve.specs.Ends.{EndsAs};
ghost use Rattle.jvm_state.specs.Changes.{OperandsAlone};
ghost use Rattle.jvm_state.specs.Frames.{method_frame};
ghost use Rattle.jvm_state.specs.Names.{names};
ghost use Rattle.jvm_effects.specs.Effects.{effect_of, makeable_name};

use crate::effect::Effect;
use crate::operands::{present, take_reference};
use class_model::{ClassId, is_abstract, is_interface};
use jvm_heap::{Content, Frame, Slot};
use jvm_resolve::{Stop, is_instance, is_known, object_of, type_named};
use jvm_state::{Members, Pending};
use native_model::{Throw, World};
use std::alloc::Global;
use tree_value::Bytes;

/// The class of a name, of which code makes objects: it is there, is no interface, and isn't abstract.
#[tactic(auto, using(crate::proofs::Steps::steps))]
fn makeable<P: Members>(alloc: Global, program: &P, name: &[u8]) -> Result<ClassId, Stop>
    ensures { EndsAs (P.class_name program.now) result
        (end_of (P.oracle program.now) (makeable_name name.now)) }
{
    let Some(flags) = program.class_flags(name) else {
        return Err(Stop::Throws(Throw::AbsentClass(Bytes::from_slice(alloc, name)?)));
    };
    if is_abstract(flags) || is_interface(flags) || name == b"mill/PathRef".as_slice() {
        return Err(Stop::Throws(Throw::Instantiation));
    }
    match program.class_id(name) {
        Some(class) => Ok(class),
        None => Err(Stop::Stuck),
    }
}

/// An object of a class is made, once the class is initialised.
#[tactic(auto, using(crate::proofs::Steps::steps))]
pub fn object_newly<P: Members>(
    name: &[u8],
    frame: &Frame,
    world: &World<P>,
) -> Result<Effect, Stop>
    ensures made { let n = names (P.class_name world.now.names) (P.method_name world.now.names)
        (P.field_name world.now.names) (P.site_origin world.now.names)
        (P.concatenation_at world.now.names) in
        EndsAs (λ e. effect_of n e (method_frame n.method frame.now) world.now.world) result
        (end_of (P.oracle world.now.names)
        (object_newly name.now (method_frame n.method frame.now))) }
{
    let program = world.names();
    let class = makeable(world.allocator(), program, name)?;
    Ok(Effect::Opens(class, Pending::Makes(class)))
}

/// Whether an object is of a type that is named.
#[tactic(auto, using(crate::proofs::Steps::steps))]
fn type_tested<P: Members>(name: &[u8], number: u32, world: &World<P>) -> Result<bool, Stop>
    ensures { EndsAs (λ is. is) result
        (end_of (P.oracle world.now.names) (type_tested name.now number world.now.world)) }
{
    let program = world.names();
    let form = type_named(name);
    is_known(world.allocator(), program, form)?;
    let object = object_of(world, number)?;
    Ok(is_instance(program, object, form))
}

/// A reference is cast. Null is of each class, and resolves none.
#[tactic(auto, using(crate::proofs::Steps::steps))]
pub fn checked_cast<P: Members>(
    name: &[u8],
    frame: &mut Frame,
    world: &World<P>,
) -> Result<Effect, Stop>
    ensures made { let n = names (P.class_name world.now.names) (P.method_name world.now.names)
        (P.field_name world.now.names) (P.site_origin world.now.names)
        (P.concatenation_at world.now.names) in
        EndsAs (λ e. effect_of n e (method_frame n.method frame.new) world.now.world) result
        (end_of (P.oracle world.now.names)
        (on_popped (checked_cast name.now) (method_frame n.method frame.old) world.now.world)) }
    ensures frame { OperandsAlone frame.old frame.new }
{
    let number = take_reference(world.names(), frame)?;
    if number == 0 {
        return Ok(Effect::Results(Some(Slot::Ref(0))));
    }
    if type_tested(name, number, world)? {
        Ok(Effect::Results(Some(Slot::Ref(number))))
    } else {
        Err(Stop::Throws(Throw::ClassCast))
    }
}

/// Whether a reference is of a type. Null is of none here, and resolves none.
#[tactic(auto, using(crate::proofs::Steps::steps))]
pub fn instance_tested<P: Members>(
    name: &[u8],
    frame: &mut Frame,
    world: &World<P>,
) -> Result<Effect, Stop>
    ensures made { let n = names (P.class_name world.now.names) (P.method_name world.now.names)
        (P.field_name world.now.names) (P.site_origin world.now.names)
        (P.concatenation_at world.now.names) in
        EndsAs (λ e. effect_of n e (method_frame n.method frame.new) world.now.world) result
        (end_of (P.oracle world.now.names)
        (on_popped (instance_tested name.now) (method_frame n.method frame.old) world.now.world)) }
    ensures frame { OperandsAlone frame.old frame.new }
{
    let number = take_reference(world.names(), frame)?;
    if number == 0 {
        return Ok(Effect::Results(Some(Slot::Int(0))));
    }
    let is = type_tested(name, number, world)?;
    Ok(Effect::Results(Some(Slot::Int(i32::from(is)))))
}

/// A monitor is entered or left, which is a null check.
#[tactic(auto, using(crate::proofs::Steps::steps))]
pub fn monitor<P: Members>(frame: &mut Frame, world: &World<P>) -> Result<Effect, Stop>
    ensures made { let n = names (P.class_name world.now.names) (P.method_name world.now.names)
        (P.field_name world.now.names) (P.site_origin world.now.names)
        (P.concatenation_at world.now.names) in
        EndsAs (λ e. effect_of n e (method_frame n.method frame.new) world.now.world) result
        (end_of (P.oracle world.now.names)
        (on_popped monitor (method_frame n.method frame.old) world.now.world)) }
    ensures frame { OperandsAlone frame.old frame.new }
{
    let program = world.names();
    let number = take_reference(program, frame)?;
    present(program, number)?;
    Ok(Effect::Results(None))
}

/// An exception is thrown, which is no null.
#[tactic(auto, using(crate::proofs::Steps::steps))]
pub fn exception_thrown<P: Members>(frame: &mut Frame, world: &World<P>) -> Result<Effect, Stop>
    ensures made { let n = names (P.class_name world.now.names) (P.method_name world.now.names)
        (P.field_name world.now.names) (P.site_origin world.now.names)
        (P.concatenation_at world.now.names) in
        EndsAs (λ e. effect_of n e (method_frame n.method frame.new) world.now.world) result
        (end_of (P.oracle world.now.names)
        (on_popped exception_thrown (method_frame n.method frame.old) world.now.world)) }
    ensures frame { OperandsAlone frame.old frame.new }
{
    let program = world.names();
    let number = take_reference(program, frame)?;
    let there = present(program, number)?;
    let object = object_of(world, there)?;
    match object.content() {
        Content::Throwable { .. } => Ok(Effect::Rethrows(there)),
        _ => Err(Stop::Throws(Throw::IncompatibleChange)),
    }
}
