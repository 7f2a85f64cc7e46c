//! Natives that read files: of the body's own dest at once, of any other tree by what is told of them.

ghost use Rattle.std.specs.Prelude.{◌≡◌, IfOk};
ghost use Rattle.std.specs.Option.{option_copied};
ghost use Rattle.native_model.specs.Answers.{throws};
ghost use Rattle.native_model.specs.Thrown.{file_fault};
ghost use Rattle.native_model.specs.Paths.{joined, path_of_units};
ghost use Rattle.native_model.specs.Ends.{reference_of, progress_of, Answers};
ghost use Rattle.native_model.specs.Outside.{is_own, or_denied, file_of, text_read, size_read, fs_read, fs_size};
ghost use Rattle.native_model.specs.Worlds as worlds;
ghost use Rattle.os_natives.specs.Plans.{planned, text_if, told, file_read};

use crate::paths::{joined, path_of_units};
use crate::plan::{Plan, carry_out};
use crate::units::units_of_text;
use jvm_heap::{PathReference, Slot, Units};
use native_model::{Denial, Last, Naming, NativeEnd, Place, Progress, StepFault, Throw, World};
use std::alloc::Global;
use tree_value::{Bytes, Path};

/// What is wanted of a file.
#[derive(Clone, Copy, Drop)]
pub(crate) enum Wanted {
    Text,
    Size,
}

pub(crate) fn file_fault(alloc: Global, units: &[u16]) -> Result<Plan, StepFault>
    ensures { IfOk result (λ plan. (w : worlds.World) → throws (file_fault units.now) ≡ planned plan w) }
{
    let units = Units::from_slice(alloc, units)?;
    Ok(Plan::Ends(NativeEnd::Throws(Throw::FileFault(units))))
}

/// The units of bytes that are a text.
#[tactic(auto, using(crate::proofs::Spelled::utf8))]
fn text_in(alloc: Global, bytes: &[u8]) -> Result<Option<Units>, StepFault>
    ensures { IfOk result (λ found. found ≡ text_if bytes.now) }
{
    match str::from_utf8(bytes) {
        Ok(text) => Ok(Some(units_of_text(alloc, text)?)),
        Err(_) => Ok(None),
    }
}

#[tactic(auto, using(crate::proofs::Spelled::read_told))]
fn text_read<N: Naming>(
    units: &[u16],
    found: Option<&Bytes>,
    world: &World<N>,
) -> Result<Plan, StepFault>
    ensures { IfOk result (λ plan. text_read units.now world.now.world (option_copied found.entry)
        ≡ planned plan world.now.world) }
{
    let alloc = world.allocator();
    let Some(bytes) = found else {
        return file_fault(alloc, units);
    };
    if let Some(text) = text_in(alloc, bytes.as_slice())? {
        return Ok(Plan::GivesText(text));
    }
    let units = Units::from_slice(alloc, units)?;
    Ok(Plan::Ends(NativeEnd::Throws(Throw::FileFault(units))))
}

fn size_read<N: Naming>(
    units: &[u16],
    found: Option<&Bytes>,
    world: &World<N>,
) -> Result<Plan, StepFault>
    ensures { IfOk result (λ plan. size_read units.now world.now.world (option_copied found.entry)
        ≡ planned plan world.now.world) }
{
    let Some(bytes) = found else {
        return file_fault(world.allocator(), units);
    };
    let length = bytes.as_slice().len() as i64;
    Ok(Plan::Ends(NativeEnd::Gives(Some(Slot::Long(length)))))
}

fn told<N: Naming>(
    wanted: Wanted,
    units: &[u16],
    found: Option<&Bytes>,
    world: &World<N>,
) -> Result<Plan, StepFault>
    ensures { IfOk result (λ plan. told wanted units.now world.now.world (option_copied found.entry)
        ≡ planned plan world.now.world) }
{
    match wanted {
        Wanted::Text => text_read(units, found, world),
        Wanted::Size => size_read(units, found, world),
    }
}

/// Whether a reference leads into the body's own dest.
pub(crate) fn is_own<N: Naming>(reference: &PathReference, world: &World<N>) -> bool
    ensures { result ≡ is_own (reference_of reference.now) world.now.world }
{
    match world.owner() {
        Some(mine) => reference.owner.as_slice() == mine.as_slice(),
        None => false,
    }
}

pub(crate) fn copy_of(reference: &PathReference) -> Result<PathReference, StepFault>
    ensures { IfOk result (λ copy. reference_of copy ≡ reference_of reference.now) }
{
    Ok(PathReference {
        owner: reference.owner.copy()?,
        path: reference.path.copy()?,
    })
}

/// The file at a path of a tree.
fn read_at<N: Naming>(
    wanted: Wanted,
    reference: &PathReference,
    units: &[u16],
    path: Path,
    progress: &Progress,
    world: &World<N>,
) -> Result<Plan, StepFault>
    ensures { IfOk result (λ plan. file_of (reference_of reference.now) path (progress_of progress.now)
        world.now.world (told wanted units.now world.now.world) ≡ planned plan world.now.world) }
{
    let alloc = world.allocator();
    if is_own(reference, world) {
        let bytes = joined(alloc, reference.path.as_slice(), path.as_slice())?;
        return told(
            wanted,
            units,
            world.dest().file(&Place::from_vec(bytes)),
            world,
        );
    }
    match &progress.last {
        Last::File(found) => told(wanted, units, found.as_ref(), world),
        _ => Ok(Plan::Ends(NativeEnd::NeedsFile(copy_of(reference)?, path))),
    }
}

/// The file that units name in a tree.
fn read_named<N: Naming>(
    wanted: Wanted,
    reference: &PathReference,
    units: &[u16],
    progress: &Progress,
    world: &World<N>,
) -> Result<Plan, StepFault>
    ensures { IfOk result (λ plan. or_denied (path_of_units units.now)
        (λ path. file_of (reference_of reference.now) path (progress_of progress.now)
        world.now.world (told wanted units.now world.now.world)) ≡ planned plan world.now.world) }
{
    match path_of_units(world.allocator(), units)? {
        Some(path) => read_at(wanted, reference, units, path, progress, world),
        None => Ok(Plan::Ends(NativeEnd::Throws(Throw::Denied(Denial::Path)))),
    }
}

fn read<N: Naming>(
    wanted: Wanted,
    reference: u32,
    text: u32,
    progress: &Progress,
    world: &World<N>,
) -> Result<Plan, StepFault>
    ensures { IfOk result (λ plan. file_read wanted reference text (progress_of progress.now)
        world.now.world ≡ planned plan world.now.world) }
{
    let Some(found) = world.reference(reference) else {
        return Ok(Plan::Ends(NativeEnd::Throws(Throw::IncompatibleChange)));
    };
    match world.text(text) {
        Some(units) => read_named(wanted, found, units, progress, world),
        None => Ok(Plan::Ends(NativeEnd::Throws(Throw::IncompatibleChange))),
    }
}

/// `Fs.read(PathRef, String)`: the text of a file. An IOException where there is none, or no UTF-8 in it.
pub fn fs_read<N: Naming>(
    reference: u32,
    text: u32,
    progress: &Progress,
    world: &mut World<N>,
) -> Result<NativeEnd, StepFault>
    ensures { Answers (fs_read reference text (progress_of progress.now) world.old.world)
        result world.old world.new }
{
    let plan = read(Wanted::Text, reference, text, progress, world)?;
    carry_out(plan, world)
}

/// `Fs.size(PathRef, String)`: how many bytes a file has. An IOException where there is none.
pub fn fs_size<N: Naming>(
    reference: u32,
    text: u32,
    progress: &Progress,
    world: &mut World<N>,
) -> Result<NativeEnd, StepFault>
    ensures { Answers (fs_size reference text (progress_of progress.now) world.old.world)
        result world.old world.new }
{
    let plan = read(Wanted::Size, reference, text, progress, world)?;
    carry_out(plan, world)
}
