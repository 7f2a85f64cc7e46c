//! Puts: the bytes go to a file of their own in the folder `.put`, which is renamed to its place once it is whole.

ghost use Rattle.std.specs.Prelude.{◌≡◌, ◌≤◌, ◌<◌, ◌↔◌, IsTrue, length};

use crate::finds::Found;
use crate::folders::{Folder, MAX_FILE_LEN, text_of};
use crate::kinds::fault_of;
use crate::names::above;
use crate::wholes::write_whole;
use io_traits::IoFault;
use std::alloc::{AllocError, Global};
use std::fs;
use std::io::ErrorKind;
use std::rt::Files;
use tree_value::{Bytes, Path};

/// The folder in which a put writes first.
pub(crate) const PUTS: &str = ".put";

// How many names in a row a put finds taken before it fails.
const MAX_TRIES: u32 = 1024;

/// The names under which a process writes first: its number, a dash and how many it has used.
#[derive(Drop)]
pub(crate) struct PutNames {
    process: u32,
    used: u64,
}

impl PutNames {
    pub(crate) fn of(process: u32) -> PutNames {
        PutNames { process, used: 0 }
    }

    fn take(&mut self, alloc: Global) -> Result<String, AllocError> {
        self.used = self.used.saturating_add(1);
        format!(in alloc; "{PUTS}/{}-{}", self.process, self.used)
    }
}

// Whether a file can have the name and the bytes.
pub(crate) fn can_put(name: &Path, bytes: &Bytes) -> bool
    ensures { IsTrue result ↔ (0 < length name.now × length bytes.now ≤ MAX_FILE_LEN) }
{
    !name.as_slice().is_empty() && bytes.len() as u64 <= MAX_FILE_LEN
}

impl<R: Files + AllocGlobal + Clone + Drop> Folder<R> {
    /// Writes the bytes to a file in the folder for puts, and renames it to its place. Where that fails the file is
    /// removed again.
    pub(crate) fn put(
        &self,
        name: &Path,
        bytes: &Bytes,
        names: &mut PutNames,
    ) -> Result<(), IoFault> {
        self.make_folder(PUTS)?;
        let (first, mut file) = self.create_first(names)?;
        let put = match write_whole(&mut file, bytes.as_slice()) {
            Ok(()) => self.move_to(first.as_str(), text_of(name)?),
            Err(fault) => Err(fault),
        };
        if put.is_err() {
            let _ = fs::remove_file(&self.rt, first.as_str());
        }
        put
    }

    // A file that nothing else writes, and its place.
    fn create_first(&self, names: &mut PutNames) -> Result<(String, R::File), IoFault> {
        for _ in 0..MAX_TRIES {
            let name = names.take(self.rt.alloc())?;
            let place = self.place(name.as_str())?;
            match fs::File::create_new(&self.rt, place.as_str()) {
                Ok(file) => return Ok((place, file)),
                Err(e) if e.kind() == ErrorKind::AlreadyExists => {}
                Err(e) => return Err(fault_of(e)),
            }
        }
        Err(IoFault::Failed)
    }

    // One folder, in one that is there. A link is none.
    fn make_folder(&self, name: &str) -> Result<(), IoFault> {
        match self.look_at(name)? {
            Found::Folder => Ok(()),
            Found::Nothing => {
                let place = self.place(name)?;
                fs::create_dir(&self.rt, place.as_str()).map_err(fault_of)
            }
            Found::File(_) | Found::Link => Err(IoFault::Failed),
        }
    }

    // Renames a file to its place, where an empty folder or a link may stand.
    fn move_to(&self, from: &str, name: &str) -> Result<(), IoFault> {
        for (at, _) in name.match_indices('/') {
            self.make_folder(above(name, at))?;
        }
        let place = self.place(name)?;
        if self.look_at(name)? == Found::Folder {
            fs::remove_dir(&self.rt, place.as_str()).map_err(fault_of)?;
        }
        fs::rename(&self.rt, from, place.as_str()).map_err(fault_of)
    }
}
