//! Fields (JVMS 6.5, getstatic to putfield).

ghost use Rattle.std.specs.Prelude.{◌≡◌};
ghost use Rattle.class_model.specs.Descriptors.{field_type};
ghost use Rattle.class_code.specs.Parts.{member_ref};
ghost use Rattle.jvm_model.specs.Instructions.{present, field_resolved, field_place, field_read, field_written, static_read, static_written};
ghost use Rattle.jvm_model.specs.Plans.{end_of};
ghost use Rattle.jvm_resolve.specs.Ends.{EndsAs};
ghost use Rattle.jvm_state.specs.Changes.{HeapAlone, KeptIfThrown, OperandsAlone};
ghost use Rattle.jvm_state.specs.Frames.{method_frame};
ghost use Rattle.jvm_state.specs.Names.{names};
ghost use Rattle.jvm_effects.specs.Effects.{effect_of};

use crate::effect::Effect;
use crate::narrowing::narrowed_by;
use crate::operands::{present, take_reference, take_value};
use class_code::{MemberView, kind_of};
use class_model::MemberId;
use jvm_heap::Frame;
use jvm_resolve::{Stop, checked, is_known, object_of, type_named};
use jvm_state::{Members, Pending};
use native_model::{Throw, World};
use std::alloc::Global;
use tree_value::Bytes;

/// What a reference resolves to: a field that is static or isn't, as is wanted.
#[tactic(auto, using(crate::proofs::Steps::steps))]
fn field_resolved<P: Members>(
    alloc: Global,
    program: &P,
    is_static: bool,
    field: MemberView<'_>,
) -> Result<MemberId, Stop>
    ensures { EndsAs (P.field_name program.now) result
        (end_of (P.oracle program.now) (field_resolved is_static (member_ref field.entry))) }
{
    is_known(alloc, program, type_named(field.owner))?;
    match program.resolve_field(field) {
        Some((found, own)) => {
            if own == is_static {
                Ok(found)
            } else {
                Err(Stop::Throws(Throw::IncompatibleChange))
            }
        }
        None => Err(Stop::Throws(Throw::AbsentField(Bytes::from_slice(alloc, field.name)?))),
    }
}

/// The place of a field in an object, which is no null and of the class that is named.
#[tactic(auto, using(crate::proofs::Steps::steps))]
fn field_place<P: Members>(
    field: MemberView<'_>,
    found: MemberId,
    number: u32,
    world: &World<P>,
) -> Result<u32, Stop>
    ensures { EndsAs (λ place. (number, place)) result (end_of (P.oracle world.now.names)
        (field_place (member_ref field.entry) (P.field_name world.now.names found) number
        world.now.world)) }
{
    let program = world.names();
    let there = present(program, number)?;
    let object = object_of(world, there)?;
    checked(program, field.owner, object)?;
    match program.field_place(object, found) {
        Some(place) => Ok(place),
        None => Err(Stop::Stuck),
    }
}

/// A field of an object is read.
#[tactic(auto, using(crate::proofs::Steps::steps))]
pub fn field_read<P: Members>(
    field: MemberView<'_>,
    frame: &mut Frame,
    world: &World<P>,
) -> Result<Effect, Stop>
    ensures made { let n = names (P.class_name world.now.names) (P.method_name world.now.names)
        (P.field_name world.now.names) (P.site_origin world.now.names)
        (P.concatenation_at world.now.names) in
        EndsAs (λ e. effect_of n e (method_frame n.method frame.new) world.now.world) result
        (end_of (P.oracle world.now.names)
        (field_read (member_ref field.entry) (method_frame n.method frame.old) world.now.world)) }
    ensures frame { OperandsAlone frame.old frame.new }
{
    let program = world.names();
    let number = take_reference(program, frame)?;
    let found = field_resolved(world.allocator(), program, false, field)?;
    let place = field_place(field, found, number, world)?;
    match world.find_slot(number, place) {
        Some(slot) => Ok(Effect::Results(Some(slot))),
        None => Err(Stop::Stuck),
    }
}

/// A value is written into a field of an object.
#[tactic(auto, using(crate::proofs::Steps::steps))]
pub fn field_written<P: Members>(
    field: MemberView<'_>,
    frame: &mut Frame,
    world: &mut World<P>,
) -> Result<Effect, Stop>
    ensures made { let n = names (P.class_name world.old.names) (P.method_name world.old.names)
        (P.field_name world.old.names) (P.site_origin world.old.names)
        (P.concatenation_at world.old.names) in
        EndsAs (λ e. effect_of n e (method_frame n.method frame.new) world.new.world) result
        (end_of (P.oracle world.old.names)
        (field_written (member_ref field.entry) (method_frame n.method frame.old)
        world.old.world)) }
    ensures rest { HeapAlone world.old world.new }
    ensures kept { KeptIfThrown result world.old world.new }
    ensures frame { OperandsAlone frame.old frame.new }
{
    let program = world.names();
    let Some(kind) = kind_of(field.descriptor) else {
        return Err(Stop::Stuck);
    };
    let value = take_value(program, kind, frame)?;
    let number = take_reference(program, frame)?;
    let found = field_resolved(world.allocator(), program, false, field)?;
    let place = field_place(field, found, number, world)?;
    if world.write_slot(number, place, narrowed_by(field.descriptor, value)) {
        Ok(Effect::Results(None))
    } else {
        Err(Stop::Stuck)
    }
}

/// A static field is read, once the class that declares it is initialised.
#[tactic(auto, using(crate::proofs::Steps::steps))]
pub fn static_read<P: Members>(
    field: MemberView<'_>,
    frame: &mut Frame,
    world: &World<P>,
) -> Result<Effect, Stop>
    ensures made { let n = names (P.class_name world.now.names) (P.method_name world.now.names)
        (P.field_name world.now.names) (P.site_origin world.now.names)
        (P.concatenation_at world.now.names) in
        EndsAs (λ e. effect_of n e (method_frame n.method frame.new) world.now.world) result
        (end_of (P.oracle world.now.names)
        (static_read (member_ref field.entry) (method_frame n.method frame.old))) }
    ensures frame { OperandsAlone frame.old frame.new }
{
    let program = world.names();
    let found = field_resolved(world.allocator(), program, true, field)?;
    let class = program.class_of_field(found);
    Ok(Effect::Opens(class, Pending::Reads(found)))
}

/// A value is written into a static field, once the class that declares it is initialised.
#[tactic(auto, using(crate::proofs::Steps::steps))]
pub fn static_written<P: Members>(
    field: MemberView<'_>,
    frame: &mut Frame,
    world: &World<P>,
) -> Result<Effect, Stop>
    ensures made { let n = names (P.class_name world.now.names) (P.method_name world.now.names)
        (P.field_name world.now.names) (P.site_origin world.now.names)
        (P.concatenation_at world.now.names) in
        EndsAs (λ e. effect_of n e (method_frame n.method frame.new) world.now.world) result
        (end_of (P.oracle world.now.names)
        (static_written (member_ref field.entry) (method_frame n.method frame.old))) }
    ensures frame { OperandsAlone frame.old frame.new }
{
    let program = world.names();
    let Some(kind) = kind_of(field.descriptor) else {
        return Err(Stop::Stuck);
    };
    let value = take_value(program, kind, frame)?;
    let found = field_resolved(world.allocator(), program, true, field)?;
    let class = program.class_of_field(found);
    let slot = narrowed_by(field.descriptor, value);
    Ok(Effect::Opens(class, Pending::Writes(found, slot)))
}
