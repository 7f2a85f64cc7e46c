//! Names of a store, and their removal. No link is followed on the way to a name.

use crate::finds::Found;
use crate::folders::{Folder, text_of};
use crate::kinds::{fault_of, is_absence};
use crate::names::{above, folder_of};
use io_traits::IoFault;
use std::fs;
use std::rt::Files;
use tree_value::Path;

impl<R: Files + AllocGlobal + Clone + Drop> Folder<R> {
    // What a store has under the name: a link that leads to a file counts as that file, and any other as nothing.
    pub(crate) fn find(&self, name: &str) -> Result<Found, IoFault> {
        if name.is_empty() || !self.has_way(name)? {
            return Ok(Found::Nothing);
        }
        match self.look_at(name)? {
            Found::Link => self.behind_link(name),
            found => Ok(found),
        }
    }

    pub(crate) fn behind_link(&self, name: &str) -> Result<Found, IoFault> {
        match self.look(name)? {
            Found::File(size) => Ok(Found::File(size)),
            Found::Folder | Found::Link | Found::Nothing => Ok(Found::Nothing),
        }
    }

    // Whether the folders on the way to the name are there, none of them a link.
    fn has_way(&self, name: &str) -> Result<bool, IoFault> {
        for (at, _) in name.match_indices('/') {
            if self.look_at(above(name, at))? != Found::Folder {
                return Ok(false);
            }
        }
        Ok(true)
    }

    /// Removes the file or the link, and the folders that are empty then. It is done where neither stands.
    pub(crate) fn remove(&self, name: &Path) -> Result<(), IoFault> {
        let name = text_of(name)?;
        if name.is_empty() || !self.has_way(name)? {
            return Ok(());
        }
        match self.look_at(name)? {
            Found::File(_) | Found::Link => self.remove_file(name),
            Found::Folder | Found::Nothing => Ok(()),
        }
    }

    fn remove_file(&self, name: &str) -> Result<(), IoFault> {
        let place = self.place(name)?;
        match fs::remove_file(&self.rt, place.as_str()) {
            Ok(()) => self.remove_empty(name),
            Err(e) if is_absence(&e) => Ok(()),
            Err(e) => Err(fault_of(e)),
        }
    }

    // Removes the folders of the name, the deepest first, up to one that is not empty.
    fn remove_empty(&self, name: &str) -> Result<(), IoFault> {
        let mut rest = name;
        for _ in 0..name.len() {
            let Some(folder) = folder_of(rest) else {
                return Ok(());
            };
            let place = self.place(folder)?;
            if fs::remove_dir(&self.rt, place.as_str()).is_err() {
                return Ok(());
            }
            rest = folder;
        }
        Ok(())
    }
}
