//! The names of the files below a root folder.

ghost use Rattle.std.specs.Prelude.{IfOk, IsPermutation};
ghost use Rattle.io_traits.specs.Files.{IsInOrder};

use crate::finds::Found;
use crate::folders::{Folder, MAX_NAMES, text_of};
use crate::kinds::{fault_of, is_absence};
use crate::names::{LOCK, above, is_no_source, is_put_folder};
use io_traits::{IoFault, is_in_order};
use std::fs;
use std::rt::Files;
use tree_value::{Bytes, Path, PathFault};

/// How a folder is listed.
#[derive(Clone, Copy, Debug, PartialEq, Eq)]
pub(crate) enum Listing {
    /// As a store: without its lock and the folder for puts, through no link.
    Store,
    /// As a workspace: without the folder of the results and those whose name begins with a dot, links followed, but
    /// into no folder below itself.
    Workspace,
}

// A folder to look into.
#[derive(Drop)]
struct Below {
    name: Path,
    // whether a link stands on the way to it
    behind_link: bool,
}

// What a walk has found so far: the names of files, and folders to look into.
#[derive(Drop)]
struct Walk {
    names: Vec<Path>,
    folders: Vec<Below>,
}

impl<R: Files + AllocGlobal + Clone + Drop> Folder<R> {
    /// The names of all files in byte order, each once.
    pub(crate) fn list(&self, listing: Listing) -> Result<Vec<Path>, IoFault>
        ensures { IfOk result (λ listed. IsInOrder listed.items) }
    {
        let mut walk = Walk {
            names: Vec::new(self.rt.alloc()),
            folders: Vec::new(self.rt.alloc()),
        };
        self.look_into("", false, listing, &mut walk)?;
        for _ in 0..MAX_NAMES {
            match walk.folders.pop() {
                None => return in_order(walk.names),
                Some(folder) => {
                    let name = text_of(&folder.name)?;
                    self.look_into(name, folder.behind_link, listing, &mut walk)?;
                }
            }
        }
        Err(IoFault::Failed)
    }

    fn look_into(
        &self,
        folder: &str,
        behind_link: bool,
        listing: Listing,
        walk: &mut Walk,
    ) -> Result<(), IoFault> {
        let place = self.place(folder)?;
        let entries = match fs::read_dir(&self.rt, place.as_str()) {
            Ok(entries) => entries,
            Err(e) if is_absence(&e) => return Ok(()),
            Err(e) => return Err(fault_of(e)),
        };
        for entry in entries {
            let entry = entry.map_err(fault_of)?;
            let entry = entry.file_name();
            match listing {
                Listing::Store => self.take_stored(folder, entry, walk)?,
                Listing::Workspace => self.take_source(folder, behind_link, entry, walk)?,
            }
        }
        Ok(())
    }

    // Takes one entry of a folder of a store. A name outside the grammar of paths is a failure.
    fn take_stored(&self, folder: &str, entry: &str, walk: &mut Walk) -> Result<(), IoFault> {
        let name = self.below(folder, entry)?;
        let name = name.as_str();
        let found = match self.look_at(name)? {
            Found::Link => self.behind_link(name)?,
            found => found,
        };
        match found {
            Found::File(_) if name != LOCK => walk.add(self.path_of(name)?),
            Found::Folder if !is_put_folder(folder.as_bytes(), entry.as_bytes()) => {
                walk.enter(self.path_of(name)?, false)
            }
            Found::File(_) | Found::Folder | Found::Link | Found::Nothing => Ok(()),
        }
    }

    // Takes one entry of a folder of a workspace, likewise.
    fn take_source(
        &self,
        folder: &str,
        behind_link: bool,
        entry: &str,
        walk: &mut Walk,
    ) -> Result<(), IoFault> {
        let name = self.below(folder, entry)?;
        let name = name.as_str();
        match self.look(name)? {
            Found::File(_) => walk.add(self.path_of(name)?),
            Found::Folder if !is_no_source(folder.as_bytes(), entry.as_bytes()) => {
                let path = self.path_of(name)?;
                let behind_link = behind_link || self.look_at(name)? == Found::Link;
                if behind_link && self.is_below_itself(name)? {
                    return Ok(());
                }
                walk.enter(path, behind_link)
            }
            Found::Folder | Found::Link | Found::Nothing => Ok(()),
        }
    }

    /// The bytes of a file that a listing of the workspace gives, links followed, or `None`.
    pub(crate) fn read_source(&self, name: &Path) -> Result<Option<Bytes>, IoFault> {
        let name = text_of(name)?;
        if self.leads_back(name)? {
            return Ok(None);
        }
        self.read(name, self.look(name)?)
    }

    // Whether a folder on the way to the name lies below itself, so that no listing enters it.
    fn leads_back(&self, name: &str) -> Result<bool, IoFault> {
        let mut behind_link = false;
        for (at, _) in name.match_indices('/') {
            let folder = above(name, at);
            behind_link = behind_link || self.look_at(folder)? == Found::Link;
            if behind_link && self.is_below_itself(folder)? {
                return Ok(true);
            }
        }
        Ok(false)
    }

    fn below(&self, folder: &str, entry: &str) -> Result<String, IoFault> {
        let mut name = String::from_str(self.rt.alloc(), folder)?;
        if !folder.is_empty() {
            name.push('/')?;
        }
        name.push_str(entry)?;
        Ok(name)
    }

    fn path_of(&self, name: &str) -> Result<Path, IoFault> {
        match Path::of(self.rt.alloc(), name.as_bytes()) {
            Ok(path) => Ok(path),
            Err(PathFault::BadPath) => Err(IoFault::Failed),
            Err(PathFault::Memory) => Err(IoFault::Memory),
        }
    }
}

impl Walk {
    fn add(&mut self, name: Path) -> Result<(), IoFault> {
        if self.names.len() >= MAX_NAMES {
            return Err(IoFault::Failed);
        }
        Ok(self.names.push(name)?)
    }

    fn enter(&mut self, name: Path, behind_link: bool) -> Result<(), IoFault> {
        if self.folders.len() >= MAX_NAMES {
            return Err(IoFault::Failed);
        }
        Ok(self.folders.push(Below { name, behind_link })?)
    }
}

// The names sorted by their bytes. A name that was found twice is a failure.
fn in_order(mut names: Vec<Path>) -> Result<Vec<Path>, IoFault>
    ensures order { IfOk result (λ listed. IsInOrder listed.items) }
    ensures same { IfOk result (λ listed. IsPermutation names.items listed.items) }
{
    names.sort_unstable_by(|a, b| a.as_slice().cmp(b.as_slice()));
    if is_in_order(&names) {
        Ok(names)
    } else {
        Err(IoFault::Failed)
    }
}
