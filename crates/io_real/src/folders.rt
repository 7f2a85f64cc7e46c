//! The places below a root folder.

use crate::finds::{Found, find_by};
use crate::kinds::{fault_of, is_absence};
use crate::names::above;
use crate::wholes::read_whole;
use io_traits::IoFault;
use std::alloc::AllocError;
use std::fs;
use std::rt::Files;
use tree_value::{Bytes, Path};

/// The most bytes of a file.
pub const MAX_FILE_LEN: u64 = 67_108_864;

/// The most names of a listing.
pub const MAX_NAMES: usize = 1_048_576;

/// A root folder and the runtime that reaches it.
#[derive(Drop)]
pub struct Folder<R: Files + AllocGlobal + Clone + Drop> {
    pub(crate) rt: R,
    pub(crate) root: String,
}

impl<R: Files + AllocGlobal + Clone + Drop> Folder<R> {
    pub(crate) fn over(rt: R, root: &str) -> Result<Folder<R>, AllocError> {
        let root = String::from_str(rt.alloc(), root)?;
        Ok(Folder { rt, root })
    }

    // The place of a name below the root. The empty name is the root itself.
    pub(crate) fn place(&self, name: &str) -> Result<String, IoFault> {
        let mut place = self.root.clone()?;
        if !name.is_empty() {
            place.push('/')?;
            place.push_str(name)?;
        }
        Ok(place)
    }

    // What a name leads to, links followed.
    pub(crate) fn look(&self, name: &str) -> Result<Found, IoFault> {
        let place = self.place(name)?;
        find_by(fs::metadata(&self.rt, place.as_str()))
    }

    // What stands at a name itself, which may be a link.
    pub(crate) fn look_at(&self, name: &str) -> Result<Found, IoFault> {
        let place = self.place(name)?;
        find_by(fs::symlink_metadata(&self.rt, place.as_str()))
    }

    // The bytes of what `look` found, or `None` where that is no file.
    pub(crate) fn read(&self, name: &str, found: Found) -> Result<Option<Bytes>, IoFault> {
        match found {
            Found::File(size) if size > MAX_FILE_LEN => Err(IoFault::Failed),
            Found::File(_) => self.read_file(name),
            Found::Folder | Found::Link | Found::Nothing => Ok(None),
        }
    }

    fn read_file(&self, name: &str) -> Result<Option<Bytes>, IoFault> {
        let place = self.place(name)?;
        match fs::open(&self.rt, place.as_str()) {
            Ok(file) => Ok(Some(read_whole(self.rt.alloc(), file)?)),
            Err(e) if is_absence(&e) => Ok(None),
            Err(e) => Err(fault_of(e)),
        }
    }

    // Whether a folder is, links followed, one of those on the way to it.
    pub(crate) fn is_below_itself(&self, folder: &str) -> Result<bool, IoFault> {
        let Some(real) = self.real_path("")? else {
            return Ok(false);
        };
        let Some(end) = self.real_path(folder)? else {
            return Ok(false);
        };
        if real.as_str() == end.as_str() {
            return Ok(true);
        }
        for (at, _) in folder.match_indices('/') {
            match self.real_path(above(folder, at))? {
                Some(real) if real.as_str() == end.as_str() => return Ok(true),
                Some(_) | None => {}
            }
        }
        Ok(false)
    }

    // The path without links, or `None` where nothing stands.
    fn real_path(&self, name: &str) -> Result<Option<String>, IoFault> {
        let place = self.place(name)?;
        match fs::canonicalize(&self.rt, place.as_str()) {
            Ok(real) => Ok(Some(real.into_string())),
            Err(e) if is_absence(&e) => Ok(None),
            Err(e) => Err(fault_of(e)),
        }
    }
}

// A path is text by its grammar.
pub(crate) fn text_of(name: &Path) -> Result<&str, IoFault> {
    str::from_utf8(name.as_slice()).map_err(|_| IoFault::Failed)
}
