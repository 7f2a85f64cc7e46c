//! A workspace in memory, whose calls fail as planned.

ghost use Rattle.std.specs.Prelude.{◌≡◌, ◌≢◌, [], map, Some, IfOk, IfErr, OnOk, OnErr, MatchOption};
ghost use Rattle.io_traits.specs.Causes.{HasCause};
ghost use Rattle.io_traits.specs.Files.{get, names, IsInOrder};
ghost use Rattle.io_traits.specs.Planned.{planned, leaving_old, after_call, FailsAsPlanned, set_to};

use crate::plans::CallPlan;
use crate::{Contents, IoFault, Leaves, Workspace};
use std::alloc::Global;
use tree_value::{Bytes, Path};

/// A workspace that tells what it holds. Its calls `list` and `read` are numbered from 1 in the order in which
/// they come, and those with the numbers of a list fail.
#[derive(Debug, Drop)]
pub struct MemWorkspace {
    contents: Contents,
    plan: CallPlan,
    kept: (Contents, u64),
}

impl MemWorkspace {
    /// A workspace with these contents. `failing` has the numbers of the calls that are to fail, from 1 and each
    /// once. The one refusal is `Memory`.
    pub fn new(
        alloc: Global,
        contents: Contents,
        failing: Vec<u64>,
    ) -> Result<MemWorkspace, IoFault>
        ensures contents { IfOk result (λ workspace. workspace.contents ≡ contents) }
        ensures plan { IfOk result (λ workspace. workspace.plan ≡ planned (leaving_old failing.items)) }
        ensures kept { IfOk result (λ workspace. workspace.kept ≡ (contents, 0)) }
        ensures only_memory { IfErr result (λ fault. fault ≡ IoFault.Memory) }
    {
        let kept = (contents.copy_in(alloc)?, 0);
        Ok(MemWorkspace {
            contents,
            plan: CallPlan::of_numbers(alloc, &failing)?,
            kept,
        })
    }

    /// Sets the bytes at the path, or takes the path away; no other path changes. It is no call of the trait. The
    /// one refusal is `Memory`.
    pub fn set(&mut self, path: &Path, bytes: Option<Bytes>) -> Result<(), IoFault>
        ensures ok { OnOk result (self.new ≡ record self.old {
          contents = set_to path.now bytes self.old.contents;
        }) }
        ensures err { OnErr result (self.new ≡ self.old) }
        ensures only_memory { IfErr result (λ fault. fault ≡ IoFault.Memory) }
    {
        match bytes {
            Some(bytes) => self.contents.insert(path, &bytes)?,
            None => self.contents.remove(path),
        }
        Ok(())
    }
}

impl Workspace for MemWorkspace {
    ghost content = { λ workspace. Some workspace.contents };

    ghost faults = { λ workspace. workspace.plan.faults };

    ghost kept = { λ workspace. (Some workspace.kept.0, workspace.kept.1) };

    ghost plan = { λ workspace. workspace.plan.failing };

    fn begin(&mut self) -> Result<(), IoFault>
        ensures ok { OnOk result (self.new ≡ record self.old {
          kept = (self.old.contents, self.old.plan.faults);
        }) }
        ensures err { OnErr result (self.new ≡ self.old) }
        ensures only_memory { IfErr result (λ fault. fault ≡ IoFault.Memory) }
    {
        self.kept = (self.contents.copy()?, self.plan.faults());
        Ok(())
    }

    fn faults(&self) -> u64
        ensures count { result ≡ self.now.plan.faults }
        ensures quiet { self.now.plan.failing ≡ [] → result ≡ 0 }
    {
        self.plan.faults()
    }

    fn list(&mut self) -> Result<Vec<Path>, IoFault>
        ensures order { IfOk result (λ listed. IsInOrder listed.items) }
        ensures all { IfOk result (λ listed. listed.items ≡ names self.old.contents) }
        ensures state { self.new ≡ record self.old { plan = after_call self.old.plan } }
        ensures planned { FailsAsPlanned self.old.plan result }
        ensures cause { HasCause self.old.plan.faults self.new.plan.faults result }
    {
        if self.plan.count().is_some() {
            return Err(IoFault::Failed);
        }
        Ok(self.contents.names()?)
    }

    fn read(&mut self, name: &Path) -> Result<Option<Bytes>, IoFault>
        ensures found { IfOk result (λ found. found ≡ get self.old.contents name.now) }
        ensures state { self.new ≡ record self.old { plan = after_call self.old.plan } }
        ensures planned { FailsAsPlanned self.old.plan result }
        ensures cause { HasCause self.old.plan.faults self.new.plan.faults result }
    {
        if self.plan.count().is_some() {
            return Err(IoFault::Failed);
        }
        match self.contents.get(name) {
            Some(bytes) => Ok(Some(bytes.copy()?)),
            None => Ok(None),
        }
    }
}
