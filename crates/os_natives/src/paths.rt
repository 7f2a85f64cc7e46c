//! Paths that units spell.

ghost use Rattle.std.specs.Prelude.{◌≡◌, IfOk, option_and_then};
ghost use Rattle.native_model.specs.Paths.{path_of_units, if_path, joined};
ghost use Rattle.native_model.specs.Outside.{if_short, if_still_path};

use crate::units::text_of_units;
use native_model::StepFault;
use std::alloc::{AllocError, Global};
use tree_value::{Path, PathFault};

/// The most bytes of a path in the dest, so that its files have room below the name of a task.
const MOST_DEST_PATH: usize = 700;

/// Bytes as a path, where they are one.
#[tactic(auto, using(crate::proofs::Pathways::paths_told))]
fn path_in(alloc: Global, bytes: &[u8]) -> Result<Option<Path>, StepFault>
    ensures { IfOk result (λ path. path ≡ if_path bytes.now) }
{
    match Path::of(alloc, bytes) {
        Ok(path) => Ok(Some(path)),
        Err(PathFault::BadPath) => Ok(None),
        Err(PathFault::Memory) => Err(StepFault::Memory),
    }
}

/// The path that units spell, where they spell one.
#[tactic(auto, unfolding(native_model::specs::Paths::path_of_units))]
pub(crate) fn path_of_units(alloc: Global, units: &[u16]) -> Result<Option<Path>, StepFault>
    ensures { IfOk result (λ path. path ≡ path_of_units units.now) }
{
    match text_of_units(alloc, units)? {
        Some(text) => path_in(alloc, text.as_bytes()),
        None => Ok(None),
    }
}

/// A path that is short enough for the dest.
fn if_short(path: Path) -> Option<Path>
    ensures { result ≡ if_short path }
{
    if path.len() <= MOST_DEST_PATH {
        Some(path)
    } else {
        None
    }
}

/// The path in the dest that units spell, where they spell one.
pub(crate) fn dest_path_of_units(alloc: Global, units: &[u16]) -> Result<Option<Path>, StepFault>
    ensures { IfOk result (λ path. path ≡ option_and_then if_short (path_of_units units.now)) }
{
    match path_of_units(alloc, units)? {
        Some(path) => Ok(if_short(path)),
        None => Ok(None),
    }
}

/// A path in a folder, as bytes.
pub(crate) fn joined(alloc: Global, folder: &[u8], below: &[u8]) -> Result<Vec<u8>, AllocError>
    ensures { IfOk result (λ bytes. bytes.items ≡ joined folder.now below.now) }
{
    let mut bytes = Vec::from_slice(alloc, folder)?;
    if folder.is_empty() || below.is_empty() {
        bytes.extend_from_slice(below)?;
        return Ok(bytes);
    }
    bytes.push(b'/')?;
    bytes.extend_from_slice(below)?;
    Ok(bytes)
}

/// A path in a folder, where both together are one.
pub(crate) fn joined_path(
    alloc: Global,
    folder: &Path,
    below: &Path,
) -> Result<Option<Path>, StepFault>
    ensures { IfOk result (λ path. path ≡ if_still_path (joined folder.now below.now)) }
{
    let bytes = joined(alloc, folder.as_slice(), below.as_slice())?;
    path_in(alloc, bytes.as_slice())
}
