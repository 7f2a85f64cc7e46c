//! Loading the class files of a build.

ghost use Rattle.std.specs.Prelude.{◌≡◌, ◌⊎◌, true, IfErr, OnOk};
ghost use Rattle.std.specs.Option.{option_copied, option_map};
ghost use Rattle.std.specs.List.{find};
ghost use Rattle.mill_top.specs.declared.build_fault.BuildFault.{BuildFault};
ghost use Rattle.mill_top.specs.BuildFaults.{wants_memory};
ghost use Rattle.mill_top.specs.Loading.{is_too_long, IsLoaded, IsUnloaded};

use crate::build_fault::BuildFault;
use class_read::{is_class_path, load_set};
use class_verify::ProgramOk;
use std::alloc::Global;
use tree_value::{Bytes, Path, Tree};

fn is_too_long(file: &(Path, Bytes)) -> bool
    ensures { result ≡ is_too_long file.now }
{
    is_class_path(file.0.as_slice()) && file.1.len() >= 0x1_0000_0000
}

// The first class file with more bytes than its places count.
fn first_too_long(files: &[(Path, Bytes)]) -> Option<&(Path, Bytes)>
    ensures { option_copied result ≡ find is_too_long files.now }
{
    files.iter().find(|file| is_too_long(file))
}

fn too_long(path: &Path) -> BuildFault
    ensures { (result ≡ BuildFault.TooLong path.now) ⊎ (result ≡ BuildFault.Memory) }
{
    match path.copy() {
        Ok(path) => BuildFault::TooLong(path),
        Err(_) => BuildFault::Memory,
    }
}

/// The program of the class files, or why they are none: one that is too long to be read, the first in their order, or
/// else the refusal of loading.
#[tactic(auto, using(crate::proofs::LoadingLaws::apart))]
pub fn load(alloc: Global, files: &Tree) -> Result<ProgramOk, BuildFault>
    ensures ok { OnOk result (IsLoaded files.now) }
    ensures err { IfErr result (λ fault. (own : BuildFault) × IsUnloaded files.now own
        × ((fault ≡ own) ⊎ (fault ≡ BuildFault.Memory))) }
    // What is loaded is refused for nothing but want of memory.
    ensures apart { IsLoaded files.now → (own : BuildFault) → IsUnloaded files.now own
        → wants_memory own ≡ true }
{
    if let Some(file) = first_too_long(files.as_slice()) {
        return Err(too_long(&file.0));
    }
    match load_set(alloc, files) {
        Ok(program) => Ok(program),
        Err(fault) => Err(BuildFault::Load(fault)),
    }
}
