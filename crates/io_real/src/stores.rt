//! The store over the files of a root folder.

ghost use Rattle.std.specs.Prelude.{◌≡◌, ◌<◌, [], length, None, IfOk, IfErr, IsOk, IsErrOf};
ghost use Rattle.io_traits.specs.Causes.{HasCause};
ghost use Rattle.io_traits.specs.Files.{IsInOrder};
ghost use Rattle.io_real.specs.Counts.{settled, kept_now, no_faults};
ghost use Rattle.io_real.specs.Names.{IsOwn};

use crate::counts::FaultCount;
use crate::folders::{Folder, MAX_FILE_LEN, text_of};
use crate::listings::Listing;
use crate::names::is_own;
use crate::puts::{PutNames, can_put};
use io_traits::{IoFault, Store};
use std::fs::File;
use std::rt::Files;
use tree_value::{Bytes, Path};

/// A store whose names are the files below a root folder. It tells nothing of them.
///
/// Folders are no content: a put makes the folders that its name needs and takes the place of an empty one, and a
/// removal takes the folders away that it leaves empty. No link is walked through: one that leads to a file is the
/// file of its name, any other is nothing and stands in the way of names below it, and a put or a removal takes the
/// link. What is neither file nor folder is no content. A put writes its bytes to a file of its own in the folder
/// `.put` of the root and renames it, so a process that stops leaves the old bytes or the new ones.
///
/// The first call locks the file `.lock` of the root, and waits while another process holds it; then it removes what
/// stopped puts have left. The lock is held until the store is dropped. The name `.lock`, names that begin with
/// `.put/`, a name that is no path, a file above [`MAX_FILE_LEN`](crate::MAX_FILE_LEN) bytes, and a listing above
/// [`MAX_NAMES`](crate::MAX_NAMES) names are failures.
#[derive(Drop)]
pub struct RealStore<R: Files<File = File> + AllocGlobal + Clone + Drop> {
    folder: Folder<R>,
    lock: Option<File>,
    put_names: PutNames,
    count: FaultCount,
}

impl<R: Files<File = File> + AllocGlobal + Clone + Drop> RealStore<R> {
    /// The store below the root, which need not be there yet, of the process of this number. The one refusal is
    /// `Memory`.
    pub fn over(rt: R, root: &str, process: u32) -> Result<RealStore<R>, IoFault>
        ensures count { IfOk result (λ store. store.count ≡ no_faults) }
        ensures only_memory { IfErr result (λ fault. fault ≡ IoFault.Memory) }
    {
        Ok(RealStore {
            folder: Folder::over(rt, root)?,
            lock: None,
            put_names: PutNames::of(process),
            count: FaultCount::new(),
        })
    }

    // Locks the folder, where this store does not hold its lock yet.
    fn hold(&mut self) -> Result<(), IoFault>
        ensures { self.new.count ≡ self.old.count }
    {
        if self.lock.is_none() {
            let lock = self.folder.lock()?;
            self.lock = Some(lock);
            self.folder.clear_puts()?;
        }
        Ok(())
    }

    fn get_held(&mut self, name: &Path) -> Result<Option<Bytes>, IoFault>
        ensures own { IsOwn name.now → IsErrOf result IoFault.Failed }
        ensures count { self.new.count ≡ self.old.count }
    {
        if is_own(name.as_slice()) {
            return Err(IoFault::Failed);
        }
        self.hold()?;
        let name = text_of(name)?;
        self.folder.read(name, self.folder.find(name)?)
    }

    fn put_held(&mut self, name: &Path, bytes: &Bytes) -> Result<(), IoFault>
        ensures own { IsOwn name.now → IsErrOf result IoFault.Failed }
        ensures no_name { length name.now ≡ 0 → IsErrOf result IoFault.Failed }
        ensures large { MAX_FILE_LEN < length bytes.now → IsErrOf result IoFault.Failed }
        ensures count { self.new.count ≡ self.old.count }
    {
        if is_own(name.as_slice()) || !can_put(name, bytes) {
            return Err(IoFault::Failed);
        }
        self.hold()?;
        self.folder.put(name, bytes, &mut self.put_names)
    }

    fn remove_held(&mut self, name: &Path) -> Result<(), IoFault>
        ensures own { IsOwn name.now → IsErrOf result IoFault.Failed }
        ensures count { self.new.count ≡ self.old.count }
    {
        if is_own(name.as_slice()) {
            return Err(IoFault::Failed);
        }
        self.hold()?;
        self.folder.remove(name)
    }

    fn list_held(&mut self) -> Result<Vec<Path>, IoFault>
        ensures order { IfOk result (λ listed. IsInOrder listed.items) }
        ensures count { self.new.count ≡ self.old.count }
    {
        self.hold()?;
        self.folder.list(Listing::Store)
    }
}

impl<R: Files<File = File> + AllocGlobal + Clone + Drop> Store for RealStore<R> {
    ghost content = { λ store. None };

    ghost faults = { λ store. store.count.now };

    ghost kept = { λ store. (None, store.count.kept) };

    ghost plan = { λ store. [] };

    fn get(&mut self, name: &Path) -> Result<Option<Bytes>, IoFault>
        ensures own { IsOwn name.now → IsErrOf result IoFault.Failed }
        ensures count { self.new.count ≡ settled result self.old.count }
        ensures cause { HasCause self.old.count.now self.new.count.now result }
    {
        let answer = self.get_held(name);
        self.count.settle(answer)
    }

    fn put(&mut self, name: &Path, bytes: &Bytes) -> Result<(), IoFault>
        ensures own { IsOwn name.now → IsErrOf result IoFault.Failed }
        ensures no_name { length name.now ≡ 0 → IsErrOf result IoFault.Failed }
        ensures large { MAX_FILE_LEN < length bytes.now → IsErrOf result IoFault.Failed }
        ensures count { self.new.count ≡ settled result self.old.count }
        ensures cause { HasCause self.old.count.now self.new.count.now result }
    {
        let answer = self.put_held(name, bytes);
        self.count.settle(answer)
    }

    fn remove(&mut self, name: &Path) -> Result<(), IoFault>
        ensures own { IsOwn name.now → IsErrOf result IoFault.Failed }
        ensures count { self.new.count ≡ settled result self.old.count }
        ensures cause { HasCause self.old.count.now self.new.count.now result }
    {
        let answer = self.remove_held(name);
        self.count.settle(answer)
    }

    fn list(&mut self) -> Result<Vec<Path>, IoFault>
        ensures order { IfOk result (λ listed. IsInOrder listed.items) }
        ensures count { self.new.count ≡ settled result self.old.count }
        ensures cause { HasCause self.old.count.now self.new.count.now result }
    {
        let answer = self.list_held();
        self.count.settle(answer)
    }

    fn begin(&mut self) -> Result<(), IoFault>
        ensures done { IsOk result }
        ensures state { self.new ≡ record self.old { count = kept_now self.old.count } }
    {
        self.count.keep();
        Ok(())
    }

    fn faults(&self) -> u64
        ensures { result ≡ self.now.count.now }
    {
        self.count.now
    }
}
