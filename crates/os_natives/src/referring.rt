//! Natives that make references.

ghost use Rattle.std.specs.Prelude.{◌≡◌, IfOk};
ghost use Rattle.native_model.specs.Ends.{reference_of, Answers};
ghost use Rattle.native_model.specs.Outside.{fs_dest, reference_sub};
ghost use Rattle.os_natives.specs.Plans.{planned, sub_of};

use crate::paths::{dest_path_of_units, joined_path, path_of_units};
use crate::plan::{Plan, carry_out};
use jvm_heap::PathReference;
use native_model::{Denial, Naming, NativeEnd, StepFault, Throw, World};

/// A reference to a path of the dest.
fn refer<N: Naming>(name: u32, world: &World<N>) -> Result<Plan, StepFault>
    ensures { IfOk result (λ plan. fs_dest name world.now.world ≡ planned plan world.now.world) }
{
    let Some(units) = world.text(name) else {
        return Ok(Plan::Ends(NativeEnd::Throws(Throw::IncompatibleChange)));
    };
    let Some(path) = dest_path_of_units(world.allocator(), units)? else {
        return Ok(Plan::Ends(NativeEnd::Throws(Throw::Denied(Denial::Path))));
    };
    match world.owner() {
        Some(owner) => Ok(Plan::GivesReference(owner.copy()?, path)),
        None => Ok(Plan::Ends(NativeEnd::Throws(Throw::Denied(Denial::Dest)))),
    }
}

/// `Fs.dest(String)`: a reference to a path of the body's own dest.
pub fn fs_dest<N: Naming>(name: u32, world: &mut World<N>) -> Result<NativeEnd, StepFault>
    ensures { Answers (fs_dest name world.old.world) result world.old world.new }
{
    let plan = refer(name, world)?;
    carry_out(plan, world)
}

/// A reference below another one, by the units of the path in its tree.
fn refer_below<N: Naming>(
    reference: &PathReference,
    units: &[u16],
    world: &World<N>,
) -> Result<Plan, StepFault>
    ensures { IfOk result (λ plan. sub_of (reference_of reference.now) units.now world.now.world
        ≡ planned plan world.now.world) }
{
    let alloc = world.allocator();
    if let Some(below) = path_of_units(alloc, units)? {
        if let Some(path) = joined_path(alloc, &reference.path, &below)? {
            return Ok(Plan::GivesReference(reference.owner.copy()?, path));
        }
    }
    Ok(Plan::Ends(NativeEnd::Throws(Throw::Denied(Denial::Path))))
}

fn refer_sub<N: Naming>(reference: u32, name: u32, world: &World<N>) -> Result<Plan, StepFault>
    ensures { IfOk result (λ plan. reference_sub reference name world.now.world
        ≡ planned plan world.now.world) }
{
    let Some(found) = world.reference(reference) else {
        return Ok(Plan::Ends(NativeEnd::Throws(Throw::IncompatibleChange)));
    };
    match world.text(name) {
        Some(units) => refer_below(found, units, world),
        None => Ok(Plan::Ends(NativeEnd::Throws(Throw::IncompatibleChange))),
    }
}

/// `PathRef.sub(String)`: a reference to a path in the tree of another one.
pub fn reference_sub<N: Naming>(
    reference: u32,
    name: u32,
    world: &mut World<N>,
) -> Result<NativeEnd, StepFault>
    ensures { Answers (reference_sub reference name world.old.world) result world.old world.new }
{
    let plan = refer_sub(reference, name, world)?;
    carry_out(plan, world)
}
