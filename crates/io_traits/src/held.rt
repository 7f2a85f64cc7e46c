//! Files in memory.

ghost use Rattle.std.specs.Prelude.{◌≡◌, ℕ, ◌↔◌, [], length, vec_len, IsTrue, IsSome, IfSome, IfOk, OnOk, OnErr, MatchResult};
ghost use Rattle.std.specs.Option.{option_copied};
ghost use Rattle.io_traits.specs.Files.{get, insert, remove, names, IsInOrder};
ghost use Rattle.io_traits.specs.Places.{IsAt, IsGap};

use std::alloc::Global;
use std::cmp::Ordering;
use std::marker::Model;
use tree_value::{Bytes, CopyFault, Path};

/// Pairs of a path and its bytes, in byte order of the paths, each path once.
#[derive(Debug, Drop)]
pub struct Contents {
    files: Vec<(Path, Bytes)>,
}

impl Model for Contents {
    ghost use Rattle.io_traits.specs.Files.{Files, names, IsInOrder};

    ghost Value = { Files };

    ghost view = { λ contents. contents.files.items };

    ghost invariant = { λ contents. IsInOrder (names contents.files.items) };
}

impl Contents {
    /// No file.
    pub fn new(alloc: Global) -> Contents
        ensures { result ≡ [] }
    {
        Contents {
            files: Vec::new(alloc),
        }
    }

    /// These pairs, where their names rise in byte order, and `None` where they do not.
    pub fn of(files: Vec<(Path, Bytes)>) -> Option<Contents>
        ensures files { IfSome result (λ contents. contents ≡ files.items) }
        ensures order { IsSome result ↔ IsInOrder (names files.items) }
    {
        if is_sorted(&files) {
            Some(Contents { files })
        } else {
            None
        }
    }

    /// The pairs in byte order.
    pub fn as_slice(&self) -> &[(Path, Bytes)]
        ensures all { result.now ≡ self.now }
        ensures order { IsInOrder (names self.now) }
    {
        &self.files
    }

    /// The pairs, without taking memory.
    pub fn into_vec(self) -> Vec<(Path, Bytes)>
        ensures all { result.items ≡ self }
        ensures order { IsInOrder (names self) }
    {
        self.files
    }

    /// The bytes under the name.
    pub fn get(&self, name: &Path) -> Option<&Bytes>
        ensures { option_copied result ≡ get self.now name.now }
    {
        match self.place(name) {
            Ok(at) => Some(&self.files[at].1),
            Err(_) => None,
        }
    }

    /// Sets the bytes under the name, and no other name's.
    pub fn insert(&mut self, name: &Path, bytes: &Bytes) -> Result<(), CopyFault>
        ensures ok { OnOk result (self.new ≡ insert self.old name.now bytes.now) }
        ensures err { OnErr result (self.new ≡ self.old) }
    {
        let bytes = bytes.copy()?;
        match self.place(name) {
            Ok(at) => {
                self.files[at].1 = bytes;
                Ok(())
            }
            Err(at) => Ok(self.files.insert(at, (name.copy()?, bytes))?),
        }
    }

    /// Takes the name away, and no other, without memory.
    pub fn remove(&mut self, name: &Path)
        ensures { self.new ≡ remove self.old name.now }
    {
        if let Ok(at) = self.place(name) {
            self.files.remove(at);
        }
    }

    /// The names in byte order.
    pub fn names(&self) -> Result<Vec<Path>, CopyFault>
        ensures all { IfOk result (λ listed. listed.items ≡ names self.now) }
        ensures order { IsInOrder (names self.now) }
    {
        copy_names(*self.files.allocator(), &self.files)
    }

    /// An equal value.
    pub fn copy(&self) -> Result<Contents, CopyFault>
        ensures { IfOk result (λ copy. copy ≡ self.now) }
    {
        self.copy_in(*self.files.allocator())
    }

    // An equal value whose list is in this allocator.
    pub(crate) fn copy_in(&self, alloc: Global) -> Result<Contents, CopyFault>
        ensures { IfOk result (λ copy. copy ≡ self.now) }
    {
        let files = copy_files(alloc, &self.files)?;
        Ok(Contents { files })
    }

    // Where the name stands, or where it would.
    fn place(&self, name: &Path) -> Result<usize, usize>
        ensures { MatchResult result (IsAt self.now name.now) (IsGap self.now name.now) }
    {
        self.files.binary_search_by(|file| file.0.cmp(name))
    }
}

/// Whether the names rise in byte order, so that each stands once.
pub fn is_in_order(names: &[Path]) -> bool
    ensures { IsTrue result ↔ IsInOrder names.now }
{
    names.is_sorted_by(|a, b| a.cmp(b).is_lt())
}

// Whether the names of the files rise in byte order.
fn is_sorted(files: &[(Path, Bytes)]) -> bool
    ensures { IsTrue result ↔ IsInOrder (names files.now) }
{
    files.is_sorted_by(|a, b| a.0.cmp(&b.0).is_lt())
}

fn copy_names(alloc: Global, files: &[(Path, Bytes)]) -> Result<Vec<Path>, CopyFault>
    ensures { IfOk result (λ listed. listed.items ≡ names files.now) }
{
    let mut listed = Vec::new(alloc);
    for (name, _) in files {
        listed.push(name.copy()?)?;
    }
    Ok(listed)
}

fn copy_files(alloc: Global, files: &[(Path, Bytes)]) -> Result<Vec<(Path, Bytes)>, CopyFault>
    ensures { IfOk result (λ copies. copies.items ≡ files.now) }
{
    let mut copies = Vec::new(alloc);
    for (name, bytes) in files {
        copies.push((name.copy()?, bytes.copy()?))?;
    }
    Ok(copies)
}
