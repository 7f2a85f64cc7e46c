ghost use Rattle.std.specs.Prelude.{◌≡◌, ◌↔◌, length, IfOk, IsErrOf, IsTrue, []};
ghost use Rattle.std.specs.Option.{option_copied};
ghost use Rattle.tree_value.specs.Paths.{IsPath, IsSegment};
ghost use Rattle.tree_value.specs.Trees.{path_below};
ghost use Rattle.tree_value.specs.declared.path.PathFault.TheVariants.{Memory};

use crate::fault::CopyFault;
use crate::sequence::TryCopy;
use std::alloc::{AllocError, AllocFailed, Global};
use std::marker::Model;
use thiserror::Error;

/// The most bytes of a path.
pub const MAX_PATH_LEN: usize = 1024;

/// The most bytes of one segment of a path.
pub const MAX_SEGMENT_LEN: usize = 200;

/// The place of a file in a tree: segments joined by `/`. The empty path stands for the whole tree.
#[derive(Debug, Drop)]
pub struct Path {
    bytes: Vec<u8>,
}

impl Model for Path {
    ghost use Rattle.std.specs.Prelude.{ℕ, List};
    ghost use Rattle.tree_value.specs.Paths.{IsPath};

    ghost Value = { List ℕ };

    ghost view = { λ path. path.bytes.items };

    ghost invariant = { λ path. IsPath path.bytes.items };
}

/// Why bytes are no path.
#[derive(Debug, Drop, PartialEq, Eq, Error)]
pub enum PathFault {
    #[error("the bytes are not a path")]
    BadPath,
    #[error("out of memory")]
    Memory,
}

impl From<AllocError> for PathFault {
    ghost from_gives = { λ _ fault. fault ≡ Memory };

    fn from(_error: AllocError) -> PathFault {
        PathFault::Memory
    }
}

impl<T: Drop> From<AllocFailed<T>> for PathFault {
    ghost from_gives = { λ _ fault. fault ≡ Memory };

    fn from(_error: AllocFailed<T>) -> PathFault {
        PathFault::Memory
    }
}

fn is_segment(bytes: &[u8]) -> bool
    ensures { IsTrue result ↔ IsSegment bytes.now }
{
    !bytes.is_empty()
        && bytes.len() <= MAX_SEGMENT_LEN
        && bytes != b".".as_slice()
        && bytes != b"..".as_slice()
        && !bytes.contains(&0)
        && str::from_utf8(bytes).is_ok()
}

fn is_path(bytes: &[u8]) -> bool
    ensures { IsTrue result ↔ IsPath bytes.now }
{
    bytes.is_empty()
        || bytes.len() <= MAX_PATH_LEN && bytes.split(|byte| *byte == b'/').all(is_segment)
}

// The part of `path` below `top`, if it lies there.
fn part_below<'a>(path: &'a [u8], top: &[u8]) -> Option<&'a [u8]>
    ensures { option_copied result ≡ path_below top.now path.now }
{
    if top.is_empty() {
        return Some(path);
    }
    let rest = path.strip_prefix(top)?;
    if rest.is_empty() {
        return Some(rest);
    }
    rest.strip_prefix(b"/".as_slice())
}

impl Path {
    pub fn of(alloc: Global, bytes: &[u8]) -> Result<Path, PathFault>
        ensures ok { IfOk result (λ path. (path ≡ bytes.now) × IsPath bytes.now) }
        ensures bad_path { IsErrOf result PathFault.BadPath → ¬ (IsPath bytes.now) }
    {
        if !is_path(bytes) {
            return Err(PathFault::BadPath);
        }
        Ok(Path {
            bytes: Vec::from_slice(alloc, bytes)?,
        })
    }

    pub fn as_slice(&self) -> &[u8]
        ensures bytes { result.now ≡ self.now }
        ensures path { IsPath self.now }
    {
        self.bytes.as_slice()
    }

    pub fn into_vec(self) -> Vec<u8>
        ensures bytes { result.items ≡ self }
        ensures path { IsPath self }
    {
        let Path { bytes } = self;
        bytes
    }

    pub fn is_empty(&self) -> bool
        ensures { IsTrue result ↔ (self.now ≡ []) }
    {
        self.bytes.is_empty()
    }

    pub fn len(&self) -> usize
        ensures { result ≡ length self.now }
    {
        self.bytes.len()
    }

    /// The path as seen from `top`, if it is `top` or lies below it. Everything lies below the empty path.
    pub fn below(&self, top: &Path) -> Result<Option<Path>, CopyFault>
        ensures { IfOk result (λ below. below ≡ path_below top.now self.now) }
    {
        match part_below(self.bytes.as_slice(), top.bytes.as_slice()) {
            Some(below) => Ok(Some(Path {
                bytes: Vec::from_slice(*self.bytes.allocator(), below)?,
            })),
            None => Ok(None),
        }
    }

    pub fn copy(&self) -> Result<Path, CopyFault>
        ensures { IfOk result (λ copy. copy ≡ self.now) }
    {
        Ok(Path {
            bytes: self.bytes.clone()?,
        })
    }
}

impl TryCopy for Path {
    fn try_copy(&self) -> Result<Path, CopyFault> {
        self.copy()
    }
}
