//! The native that writes a file into the body's own dest.

ghost use Rattle.std.specs.Prelude.{◌≡◌, ◌<◌, ◌==◌, ◌&&◌, ◌||◌, IfOk, is_some, length, map, take, slice_index};
ghost use Rattle.std.specs.FinMap.Entries as entries;
ghost use Rattle.std.specs.List.{list_any};
ghost use Rattle.tree_value.specs.Trees.{path_cmp};
ghost use Rattle.native_model.specs.Ends.{Answers};
ghost use Rattle.native_model.specs.Outside.{fs_write, in_dest, is_in_the_way, stands_in, written_as};
ghost use Rattle.native_model.specs.Texts.{text_of_units};
ghost use Rattle.os_natives.specs.Plans.{planned};

use crate::paths::dest_path_of_units;
use crate::plan::{Plan, carry_out};
use crate::reading::file_fault;
use crate::units::text_of_units;
use native_model::{Denial, Dest, Naming, NativeEnd, Place, StepFault, Throw, World};
use std::alloc::{AllocError, Global};
use tree_value::{Bytes, Path};

fn is_file(alloc: Global, dest: &Dest, path: &[u8]) -> Result<bool, AllocError>
    ensures { IfOk result (λ is. is ≡ is_some (entries.find path_cmp path.now dest.now)) }
{
    let place = Place::from_slice(alloc, path)?;
    Ok(dest.file(&place).is_some())
}

/// Whether a file stands at the front of a path that ends before a slash.
fn is_file_before(alloc: Global, dest: &Dest, path: &[u8], at: usize) -> Result<bool, AllocError>
    requires { at < length path.now }
    ensures { IfOk result (λ is. is ≡ (slice_index path.now at == 47
        && is_some (entries.find path_cmp (take at path.now) dest.now))) }
{
    if path[at] != b'/' {
        return Ok(false);
    }
    is_file(alloc, dest, &path[..at])
}

fn either(found: bool, here: bool) -> bool
    ensures { result ≡ (found || here) }
{
    found || here
}

/// Whether a folder of a path is a file.
fn is_above(alloc: Global, dest: &Dest, path: &[u8]) -> Result<bool, AllocError>
    requires { 0 < length path.now }
    ensures { IfOk result (λ is. is ≡ list_any (λ file. stands_in file.0 path.now) dest.now) }
{
    let mut found = is_file(alloc, dest, &[])?;
    for at in 0..path.len() {
        let here = is_file_before(alloc, dest, path, at)?;
        found = either(found, here);
    }
    Ok(found)
}

/// Whether a path is a folder with files.
fn is_folder(alloc: Global, dest: &Dest, path: &[u8]) -> Result<bool, AllocError>
    requires { 0 < length path.now }
    ensures { IfOk result (λ is. is ≡ list_any (λ file. stands_in path.now file.0) dest.now) }
{
    let mut front = Vec::from_slice(alloc, path)?;
    front.push(b'/')?;
    Ok(dest.has_front(&Place::from_vec(front)))
}

/// Whether a file can't be put at a path, by look-ups: one for each folder of the path, and one for what is below it.
#[tactic(auto, using(crate::proofs::Ways::ways))]
fn is_in_the_way(alloc: Global, dest: &Dest, path: &[u8]) -> Result<bool, AllocError>
    ensures { IfOk result (λ is. is ≡ is_in_the_way path.now (map (λ file. file.0) dest.now)) }
{
    if path.is_empty() {
        return Ok(true);
    }
    let above = is_above(alloc, dest, path)?;
    let below = is_folder(alloc, dest, path)?;
    Ok(above || below)
}

/// Bytes at a path, where nothing is in the way.
fn put_at<N: Naming>(
    units: &[u16],
    path: Path,
    content: &[u16],
    world: &World<N>,
) -> Result<Plan, StepFault>
    ensures { IfOk result (λ plan. written_as units.now path world.now.world (text_of_units content.now)
        ≡ planned plan world.now.world) }
{
    let alloc = world.allocator();
    let Some(text) = text_of_units(alloc, content)? else {
        return file_fault(alloc, units);
    };
    if is_in_the_way(alloc, world.dest(), path.as_slice())? {
        return file_fault(alloc, units);
    }
    let bytes = Bytes::from_slice(alloc, text.as_bytes())?;
    Ok(Plan::PutsFile(path, bytes))
}

fn write_at<N: Naming>(units: &[u16], content: &[u16], world: &World<N>) -> Result<Plan, StepFault>
    ensures { IfOk result (λ plan. in_dest units.now world.now.world
        (λ owner path. written_as units.now path world.now.world (text_of_units content.now))
        ≡ planned plan world.now.world) }
{
    let Some(path) = dest_path_of_units(world.allocator(), units)? else {
        return Ok(Plan::Ends(NativeEnd::Throws(Throw::Denied(Denial::Path))));
    };
    match world.owner() {
        Some(_) => put_at(units, path, content, world),
        None => Ok(Plan::Ends(NativeEnd::Throws(Throw::Denied(Denial::Dest)))),
    }
}

fn write<N: Naming>(name: u32, text: u32, world: &World<N>) -> Result<Plan, StepFault>
    ensures { IfOk result (λ plan. fs_write name text world.now.world ≡ planned plan world.now.world) }
{
    let Some(units) = world.text(name) else {
        return Ok(Plan::Ends(NativeEnd::Throws(Throw::IncompatibleChange)));
    };
    match world.text(text) {
        Some(content) => write_at(units, content, world),
        None => Ok(Plan::Ends(NativeEnd::Throws(Throw::IncompatibleChange))),
    }
}

/// `Fs.write(String, String)`: a text as a file of the body's own dest. An IOException where it is no text, where a folder of
/// its path is a file, and where the path is a folder.
pub fn fs_write<N: Naming>(
    name: u32,
    text: u32,
    world: &mut World<N>,
) -> Result<NativeEnd, StepFault>
    ensures { Answers (fs_write name text world.old.world) result world.old world.new }
{
    let plan = write(name, text, world)?;
    carry_out(plan, world)
}
