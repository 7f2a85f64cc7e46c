//! The workspace over the files of a root folder.

ghost use Rattle.std.specs.Prelude.{◌≡◌, [], None, IfOk, IfErr, IsOk, IsTrue};
ghost use Rattle.io_traits.specs.Causes.{HasCause};
ghost use Rattle.io_traits.specs.Files.{IsInOrder};
ghost use Rattle.io_real.specs.Counts.{settled, kept_now, no_faults};
ghost use Rattle.io_real.specs.Names.{is_hidden};

use crate::counts::FaultCount;
use crate::folders::Folder;
use crate::listings::Listing;
use crate::names::is_hidden;
use io_traits::{IoFault, Workspace};
use std::rt::Files;
use tree_value::{Bytes, Path};

/// A workspace whose names are the files below a root folder, but for those in the folder `out` of the root and in
/// folders whose name begins with a dot. It tells nothing of them.
///
/// Folders are no content. Links are followed, but no folder is entered below itself, by its path without links; two
/// links to one folder list it twice. A link that leads nowhere, and what is neither file nor folder, is no content. A name that is no path, a file above [`MAX_FILE_LEN`](crate::MAX_FILE_LEN) bytes, and a listing above
/// [`MAX_NAMES`](crate::MAX_NAMES) names are failures.
#[derive(Drop)]
pub struct RealWorkspace<R: Files + AllocGlobal + Clone + Drop> {
    folder: Folder<R>,
    count: FaultCount,
}

impl<R: Files + AllocGlobal + Clone + Drop> RealWorkspace<R> {
    /// The workspace below the root. The one refusal is `Memory`.
    pub fn over(rt: R, root: &str) -> Result<RealWorkspace<R>, IoFault>
        ensures count { IfOk result (λ workspace. workspace.count ≡ no_faults) }
        ensures only_memory { IfErr result (λ fault. fault ≡ IoFault.Memory) }
    {
        Ok(RealWorkspace {
            folder: Folder::over(rt, root)?,
            count: FaultCount::new(),
        })
    }
}

impl<R: Files + AllocGlobal + Clone + Drop> Workspace for RealWorkspace<R> {
    ghost content = { λ workspace. None };

    ghost faults = { λ workspace. workspace.count.now };

    ghost kept = { λ workspace. (None, workspace.count.kept) };

    ghost plan = { λ workspace. [] };

    fn begin(&mut self) -> Result<(), IoFault>
        ensures done { IsOk result }
        ensures state { self.new ≡ record self.old { count = kept_now self.old.count } }
    {
        self.count.keep();
        Ok(())
    }

    fn faults(&self) -> u64
        ensures { result ≡ self.now.count.now }
    {
        self.count.now
    }

    fn list(&mut self) -> Result<Vec<Path>, IoFault>
        ensures order { IfOk result (λ listed. IsInOrder listed.items) }
        ensures count { self.new.count ≡ settled result self.old.count }
        ensures cause { HasCause self.old.count.now self.new.count.now result }
    {
        let answer = self.folder.list(Listing::Workspace);
        self.count.settle(answer)
    }

    fn read(&mut self, name: &Path) -> Result<Option<Bytes>, IoFault>
        ensures hidden { IsTrue (is_hidden name.now) → result ≡ Ok None }
        ensures count { self.new.count ≡ settled result self.old.count }
        ensures cause { HasCause self.old.count.now self.new.count.now result }
    {
        let answer = if is_hidden(name.as_slice()) {
            Ok(None)
        } else {
            self.folder.read_source(name)
        };
        self.count.settle(answer)
    }
}
