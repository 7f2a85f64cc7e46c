//! The lock on a folder, which keeps a second process out as long as it is held.

use crate::finds::Found;
use crate::folders::Folder;
use crate::kinds::fault_of;
use crate::names::{LOCK, is_of_a_put};
use crate::puts::PUTS;
use io_traits::IoFault;
use std::fs;
use std::fs::File;
use std::io::ErrorKind;
use std::rt::Files;

impl<R: Files<File = File> + AllocGlobal + Clone + Drop> Folder<R> {
    // Waits while another process holds the lock. The folder and the file of the lock are made where they are missing.
    pub(crate) fn lock(&self) -> Result<File, IoFault> {
        fs::create_dir_all(&self.rt, self.root.as_str()).map_err(fault_of)?;
        let file = self.open_lock()?;
        file.lock().map_err(fault_of)?;
        Ok(file)
    }

    fn open_lock(&self) -> Result<File, IoFault> {
        let place = self.place(LOCK)?;
        if self.look_at(LOCK)? == Found::Nothing {
            match File::create_new(&self.rt, place.as_str()) {
                Ok(file) => return Ok(file),
                Err(e) if e.kind() == ErrorKind::AlreadyExists => {}
                Err(e) => return Err(fault_of(e)),
            }
        }
        match self.look_at(LOCK)? {
            Found::File(_) => File::open(&self.rt, place.as_str()).map_err(fault_of),
            Found::Folder | Found::Link | Found::Nothing => Err(IoFault::Failed),
        }
    }

    // Removes what puts of processes that were stopped have left, as far as the system lets it.
    pub(crate) fn clear_puts(&self) -> Result<(), IoFault> {
        let place = self.place(PUTS)?;
        if self.look_at(PUTS) != Ok(Found::Folder) {
            return Ok(());
        }
        let Ok(entries) = fs::read_dir(&self.rt, place.as_str()) else {
            return Ok(());
        };
        for entry in entries {
            if let Ok(entry) = entry {
                if is_of_a_put(entry.file_name().as_bytes()) {
                    let _ = fs::remove_file(&self.rt, entry.path());
                }
            }
        }
        Ok(())
    }
}
