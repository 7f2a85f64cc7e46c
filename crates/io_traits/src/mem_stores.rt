//! A store in memory, whose calls fail as planned.

ghost use Rattle.std.specs.Prelude.{◌≡◌, ◌≢◌, ℕ, [], Some, IfOk, IfErr, IfSome, OnOk, OnErr, IsErrOf, IsOk, IsSome, MatchOption};
ghost use Rattle.io_traits.specs.Files.{Files, get, insert, remove, names, IsInOrder, put_in, take_out, LeftByPut, LeftByRemove};
ghost use Rattle.io_traits.specs.Planned.{planned, next_leaves, after_call, FailsAsPlanned, left_by_put, left_by_remove};
ghost use Rattle.io_traits.specs.Causes.{HasCause};

use crate::plans::CallPlan;
use crate::{Contents, IoFault, Leaves, Store};
use std::alloc::Global;
use tree_value::{Bytes, CopyFault, Path};

/// A store that tells what it holds. Its calls `get`, `put`, `remove` and `list` are numbered from 1 in the order
/// in which they come, and those with the numbers of a list fail.
#[derive(Debug, Drop)]
pub struct MemStore {
    contents: Contents,
    plan: CallPlan,
    kept: (Contents, u64),
}

impl MemStore {
    /// A store with these contents. `failing` has the number of each call that is to fail, from 1 and each once,
    /// and what it leaves. The one refusal is `Memory`.
    pub fn new(
        alloc: Global,
        contents: Contents,
        failing: Vec<(u64, Leaves)>,
    ) -> Result<MemStore, IoFault>
        ensures contents { IfOk result (λ store. store.contents ≡ contents) }
        ensures plan { IfOk result (λ store. store.plan ≡ planned failing.items) }
        ensures kept { IfOk result (λ store. store.kept ≡ (contents, 0)) }
        ensures only_memory { IfErr result (λ fault. fault ≡ IoFault.Memory) }
    {
        let kept = (contents.copy_in(alloc)?, 0);
        Ok(MemStore {
            contents,
            plan: CallPlan::new(failing),
            kept,
        })
    }

    /// What the store holds.
    pub fn contents(self) -> Contents
        ensures { result ≡ self.contents }
    {
        self.contents
    }

    /// Takes the name away without memory. It is no call of the trait.
    pub fn lose(&mut self, name: &Path)
        ensures { self.new ≡ record self.old { contents = remove self.old.contents name.now } }
    {
        self.contents.remove(name);
    }

    // Leaves what a put that fails is to leave.
    fn fail_put(&mut self, leaves: Leaves, name: &Path, bytes: &Bytes) -> Result<(), CopyFault>
        ensures ok { OnOk result (self.new ≡ record self.old {
          contents = left_by_put leaves name.now bytes.now self.old.contents;
        }) }
        ensures err { OnErr result (self.new ≡ self.old) }
    {
        match leaves {
            Leaves::Old => Ok(()),
            Leaves::New => self.contents.insert(name, bytes),
            Leaves::Nothing => {
                self.contents.remove(name);
                Ok(())
            }
        }
    }

    // Leaves what a removal that fails is to leave.
    fn fail_remove(&mut self, leaves: Leaves, name: &Path)
        ensures { self.new ≡ record self.old {
          contents = left_by_remove leaves name.now self.old.contents;
        } }
    {
        match leaves {
            Leaves::Old => {}
            Leaves::New | Leaves::Nothing => self.contents.remove(name),
        }
    }
}

impl Store for MemStore {
    ghost content = { λ store. Some store.contents };

    ghost faults = { λ store. store.plan.faults };

    ghost kept = { λ store. (Some store.kept.0, store.kept.1) };

    ghost plan = { λ store. store.plan.failing };

    fn get(&mut self, name: &Path) -> Result<Option<Bytes>, IoFault>
        ensures found { IfOk result (λ found. found ≡ get self.old.contents name.now) }
        ensures state { self.new ≡ record self.old { plan = after_call self.old.plan } }
        ensures planned { FailsAsPlanned self.old.plan result }
        ensures cause { HasCause self.old.plan.faults self.new.plan.faults result }
    {
        if self.plan.count().is_some() {
            return Err(IoFault::Failed);
        }
        match self.contents.get(name) {
            Some(bytes) => Ok(Some(bytes.copy()?)),
            None => Ok(None),
        }
    }

    fn put(&mut self, name: &Path, bytes: &Bytes) -> Result<(), IoFault>
        ensures ok { OnOk result (self.new ≡ record self.old {
          contents = insert self.old.contents name.now bytes.now;
          plan = after_call self.old.plan;
        }) }
        ensures memory { IsErrOf result IoFault.Memory →
            self.new ≡ record self.old { plan = after_call self.old.plan } }
        ensures failed { IsErrOf result IoFault.Failed →
            IfSome (next_leaves self.old.plan) (λ leaves. self.new ≡ record self.old {
              contents = left_by_put leaves name.now bytes.now self.old.contents;
              plan = after_call self.old.plan;
            }) }
        ensures planned { MatchOption (next_leaves self.old.plan)
            (¬ IsErrOf result IoFault.Failed) (λ _. ¬ IsOk result) }
        ensures cause { HasCause self.old.plan.faults self.new.plan.faults result }
    {
        match self.plan.count() {
            None => Ok(self.contents.insert(name, bytes)?),
            Some(leaves) => {
                self.fail_put(leaves, name, bytes)?;
                Err(IoFault::Failed)
            }
        }
    }

    fn remove(&mut self, name: &Path) -> Result<(), IoFault>
        ensures ok { OnOk result (self.new ≡ record self.old {
          contents = remove self.old.contents name.now;
          plan = after_call self.old.plan;
        }) }
        ensures planned { MatchOption (next_leaves self.old.plan) (IsOk result)
            (λ leaves. IsErrOf result IoFault.Failed × (self.new ≡ record self.old {
              contents = left_by_remove leaves name.now self.old.contents;
              plan = after_call self.old.plan;
            })) }
        ensures cause { HasCause self.old.plan.faults self.new.plan.faults result }
    {
        match self.plan.count() {
            None => {
                self.contents.remove(name);
                Ok(())
            }
            Some(leaves) => {
                self.fail_remove(leaves, name);
                Err(IoFault::Failed)
            }
        }
    }

    fn list(&mut self) -> Result<Vec<Path>, IoFault>
        ensures order { IfOk result (λ listed. IsInOrder listed.items) }
        ensures all { IfOk result (λ listed. listed.items ≡ names self.old.contents) }
        ensures state { self.new ≡ record self.old { plan = after_call self.old.plan } }
        ensures planned { FailsAsPlanned self.old.plan result }
        ensures cause { HasCause self.old.plan.faults self.new.plan.faults result }
    {
        if self.plan.count().is_some() {
            return Err(IoFault::Failed);
        }
        Ok(self.contents.names()?)
    }

    fn begin(&mut self) -> Result<(), IoFault>
        ensures ok { OnOk result (self.new ≡ record self.old {
          kept = (self.old.contents, self.old.plan.faults);
        }) }
        ensures err { OnErr result (self.new ≡ self.old) }
        ensures only_memory { IfErr result (λ fault. fault ≡ IoFault.Memory) }
    {
        self.kept = (self.contents.copy()?, self.plan.faults());
        Ok(())
    }

    fn faults(&self) -> u64
        ensures count { result ≡ self.now.plan.faults }
        ensures quiet { self.now.plan.failing ≡ [] → result ≡ 0 }
    {
        self.plan.faults()
    }
}
