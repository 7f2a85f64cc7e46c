//! Which method a call leads to (JVMS 5.4.3.3, 5.4.3.4, 5.4.6 and 6.5).

ghost use Rattle.std.specs.Prelude.{◌≡◌};
ghost use Rattle.class_index.specs.Naming.{outer_method};
ghost use Rattle.class_code.specs.Parts.{member_ref};
ghost use Rattle.jvm_heap.specs.Renaming.{renamed_object};
ghost use Rattle.jvm_model.specs.Plans.{end_of};
ghost use Rattle.jvm_model.specs.Types.{object_of};
ghost use Rattle.jvm_model.specs.Calls.{of_program, callee_of, is_static_target, resolved, if_static, receiver, checked, is_own_method, is_of_object, of_lambda, selected, static_target, virtual_callee, special_callee};
ghost use Rattle.jvm_resolve.specs.Ends.{EndsAs, target_of, origin_of, callee_seen};

use crate::lookups::{Lookups, OriginView, Target};
use crate::stop::Stop;
use crate::types::{class_of, interface_of, is_instance, is_known, type_named};
use class_code::MemberView;
use class_model::{MemberId, SiteId, is_abstract, is_native, is_static};
use jvm_heap::{Content, Object, Slot, Slots};
use jvm_tables::native_row;
use native_model::{Throw, World};
use std::alloc::Global;
use tree_value::Bytes;

/// What is called: a method of the program with its flags, a native by its row, or the method of a lambda with what it
/// captured.
#[derive(Drop)]
pub enum Callee {
    Own(MemberId, u16),
    Native(u32),
    Lambda(SiteId, Slots),
}

fn of_program<P: Lookups>(_program: &P, method: MemberId, flags: u16) -> Result<Callee, Stop>
    ensures { EndsAs (callee_seen (P.method_name _program.now) (P.site_origin _program.now)) result
        (end_of (P.oracle _program.now) (of_program (P.method_name _program.now method) flags)) }
{
    if is_native(flags) {
        return Err(Stop::Throws(Throw::UnsatisfiedLink));
    }
    if is_abstract(flags) {
        return Err(Stop::Throws(Throw::AbstractMethod));
    }
    Ok(Callee::Own(method, flags))
}

fn of_table<P: Lookups>(_program: &P, method: MemberView<'_>) -> Result<Callee, Stop>
    ensures { EndsAs (callee_seen (P.method_name _program.now) (P.site_origin _program.now)) result
        (end_of (P.oracle _program.now) (callee_of (outer_method (member_ref method.entry)))) }
{
    match native_row(method.owner, method.name, method.descriptor) {
        Some(row) => Ok(Callee::Native(row.at)),
        None => Err(Stop::Throws(Throw::AbstractMethod)),
    }
}

/// What is called of a target.
pub fn callee_of<P: Lookups>(program: &P, target: Target<'_>) -> Result<Callee, Stop>
    ensures { EndsAs (callee_seen (P.method_name program.now) (P.site_origin program.now)) result
        (end_of (P.oracle program.now) (callee_of (target_of (P.method_name program.now) target.entry))) }
{
    match target {
        Target::Nowhere => Err(Stop::Throws(Throw::IncompatibleChange)),
        Target::Abstract => Err(Stop::Throws(Throw::AbstractMethod)),
        Target::Several => Err(Stop::Throws(Throw::IncompatibleChange)),
        Target::Own(method, flags) => of_program(program, method, flags),
        Target::Outer(method) => of_table(program, method),
    }
}

fn is_static_row(method: MemberView<'_>) -> bool
    ensures { result ≡ is_static_target (outer_method (member_ref method.entry)) }
{
    match native_row(method.owner, method.name, method.descriptor) {
        Some(row) => row.is_static,
        None => false,
    }
}

fn is_static_target<P: Lookups>(_program: &P, target: Target<'_>) -> bool
    ensures { result ≡ is_static_target (target_of (P.method_name _program.now) target.entry) }
{
    match target {
        Target::Own(_, flags) => is_static(flags),
        Target::Outer(method) => is_static_row(method),
        _ => false,
    }
}

/// What a reference resolves to, which isn't nothing.
#[tactic(auto, using(crate::proofs::Ends::ended))]
pub fn resolved<'a, P: Lookups>(
    alloc: Global,
    program: &'a P,
    method: MemberView<'_>,
) -> Result<Target<'a>, Stop>
    ensures { EndsAs (target_of (P.method_name program.now)) result
        (end_of (P.oracle program.now) (resolved (member_ref method.entry))) }
{
    is_known(alloc, program, type_named(method.owner))?;
    match program.resolve(method) {
        Target::Nowhere => {
            Err(Stop::Throws(Throw::AbsentMethod(Bytes::from_slice(alloc, method.name)?)))
        }
        target => Ok(target),
    }
}

/// A target that is static exactly where one is wanted.
pub fn if_static<'a, P: Lookups>(
    program: &P,
    wanted: bool,
    target: Target<'a>,
) -> Result<Target<'a>, Stop>
    ensures { EndsAs (target_of (P.method_name program.now)) result
        (end_of (P.oracle program.now) (if_static wanted (target_of (P.method_name program.now) target.entry))) }
{
    if is_static_target(program, target) == wanted {
        Ok(target)
    } else {
        Err(Stop::Throws(Throw::IncompatibleChange))
    }
}

/// What invokestatic calls.
#[tactic(auto, using(crate::proofs::Ends::ended), unfolding(jvm_model::specs::Calls::static_target))]
pub fn static_target<'a, P: Lookups>(
    alloc: Global,
    program: &'a P,
    method: MemberView<'_>,
) -> Result<Target<'a>, Stop>
    ensures { EndsAs (target_of (P.method_name program.now)) result
        (end_of (P.oracle program.now) (static_target (member_ref method.entry))) }
{
    let found = resolved(alloc, program, method)?;
    if_static(program, true, found)
}

/// The receiver, which is no null.
#[tactic(auto, using(crate::proofs::Ends::receivers))]
pub fn receiver<P: Lookups>(_program: &P, arguments: &[Slot]) -> Result<u32, Stop>
    ensures { EndsAs (λ n. n) result (end_of (P.oracle _program.now) (receiver arguments.now)) }
{
    match arguments.split_first() {
        Some((Slot::Ref(0), _)) => Err(Stop::Throws(Throw::NullPointer)),
        Some((Slot::Ref(number), _)) => Ok(*number),
        _ => Err(Stop::Stuck),
    }
}

/// Refuses an object that isn't of the class that a reference names.
#[tactic(auto, using(crate::proofs::Ends::ended))]
pub fn checked<P: Lookups>(program: &P, owner: &[u8], object: &Object) -> Result<(), Stop>
    ensures { EndsAs (λ done. tt) result (end_of (P.oracle program.now) (checked owner.now
        (renamed_object (P.class_name program.now) (P.site_origin program.now) object.now))) }
{
    if is_instance(program, object, type_named(owner)) {
        Ok(())
    } else {
        Err(Stop::Throws(Throw::IncompatibleChange))
    }
}

fn is_own_method(method: MemberView<'_>, origin: OriginView<'_>) -> bool
    ensures { result ≡ is_own_method (member_ref method.entry) (origin_of origin.entry) }
{
    method.name == origin.site.method && method.descriptor == origin.site.erased
}

fn is_of_object<P: Lookups>(_program: &P, target: Target<'_>) -> bool
    ensures { result ≡ is_of_object (target_of (P.method_name _program.now) target.entry) }
{
    match target {
        Target::Outer(method) => method.owner == b"java/lang/Object".as_slice(),
        _ => false,
    }
}

/// A method of a lambda: its own, or by another name or descriptor a default method or one of Object.
#[tactic(auto, using(crate::proofs::Ends::ended))]
fn of_lambda<P: Lookups>(
    alloc: Global,
    program: &P,
    method: MemberView<'_>,
    target: Target<'_>,
    site: SiteId,
    captured: &[Slot],
) -> Result<Callee, Stop>
    ensures { EndsAs (callee_seen (P.method_name program.now) (P.site_origin program.now)) result
        (end_of (P.oracle program.now) (of_lambda (member_ref method.entry)
        (target_of (P.method_name program.now) target.entry) (P.site_origin program.now site) captured.now)) }
{
    let origin = program.origin(site);
    if is_own_method(method, origin) {
        return Ok(Callee::Lambda(site, Slots::from_slice(alloc, captured)?));
    }
    if is_of_object(program, target) {
        return callee_of(program, target);
    }
    callee_of(program, program.select(method, interface_of(origin)))
}

/// What is called of a target on an object.
#[tactic(auto, using(crate::proofs::Ends::ended))]
fn selected<P: Lookups>(
    alloc: Global,
    program: &P,
    method: MemberView<'_>,
    target: Target<'_>,
    object: &Object,
) -> Result<Callee, Stop>
    ensures { EndsAs (callee_seen (P.method_name program.now) (P.site_origin program.now)) result
        (end_of (P.oracle program.now) (selected (member_ref method.entry) (target_of (P.method_name program.now) target.entry)
        (renamed_object (P.class_name program.now) (P.site_origin program.now) object.now))) }
{
    match object.content() {
        Content::Array { .. } => callee_of(program, target),
        Content::Lambda { site, captured } => {
            of_lambda(alloc, program, method, target, *site, captured.as_slice())
        }
        _ => callee_of(program, program.select(method, class_of(program, object))),
    }
}

/// The object of a number.
pub fn object_of<P: Lookups>(world: &World<P>, number: u32) -> Result<&Object, Stop>
    ensures { EndsAs (λ o. renamed_object (P.class_name world.now.names) (P.site_origin world.now.names) o.now)
        result (end_of (P.oracle world.now.names) (object_of number world.now.world)) }
{
    match world.object(number) {
        Some(object) => Ok(object),
        None => Err(Stop::Stuck),
    }
}

/// What invokevirtual and invokeinterface call.
#[tactic(auto, using(crate::proofs::Ends::ended), unfolding(jvm_model::specs::Calls::virtual_callee))]
pub fn virtual_callee<P: Lookups>(
    alloc: Global,
    method: MemberView<'_>,
    arguments: &[Slot],
    world: &World<P>,
) -> Result<Callee, Stop>
    ensures { EndsAs (callee_seen (P.method_name world.now.names) (P.site_origin world.now.names)) result
        (end_of (P.oracle world.now.names) (virtual_callee (member_ref method.entry) arguments.now world.now.world)) }
{
    let program = world.names();
    let found = resolved(alloc, program, method)?;
    let target = if_static(program, false, found)?;
    let number = receiver(program, arguments)?;
    let object = object_of(world, number)?;
    checked(program, method.owner, object)?;
    selected(alloc, program, method, target, object)
}

/// What invokespecial calls in code of a class.
#[tactic(auto, using(crate::proofs::Ends::ended), unfolding(jvm_model::specs::Calls::special_callee))]
pub fn special_callee<P: Lookups>(
    alloc: Global,
    caller: &[u8],
    method: MemberView<'_>,
    arguments: &[Slot],
    world: &World<P>,
) -> Result<Callee, Stop>
    ensures { EndsAs (callee_seen (P.method_name world.now.names) (P.site_origin world.now.names)) result
        (end_of (P.oracle world.now.names) (special_callee caller.now (member_ref method.entry) arguments.now
        world.now.world)) }
{
    let program = world.names();
    let found = resolved(alloc, program, method)?;
    if_static(program, false, found)?;
    let number = receiver(program, arguments)?;
    let object = object_of(world, number)?;
    checked(program, method.owner, object)?;
    callee_of(program, program.select_special(caller, method))
}
