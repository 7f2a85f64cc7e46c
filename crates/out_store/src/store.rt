//! The store of results.

ghost use Rattle.std.specs.Prelude.{◌≡◌, ◌⊎◌, ◌∷◌, [], ℕ, List, All, ◌≤◌, IfOk, IfErr, IfSome, IsSome, MatchResult, OnOk, OnErr};
ghost use Rattle.out_entry.specs.Entries.{IsFileName};
ghost use Rattle.out_store.specs.Changes.{puts_in, takes_out, LeftByRemoves, OthersStay};
ghost use Rattle.out_store.specs.Faults.{HasCause};
ghost use Rattle.out_store.specs.Generations.{IsFound};
ghost use Rattle.out_store.specs.Names.{IsTaskName, entry_name, log_name};
ghost use Rattle.out_store.specs.Numbers.{IsNext, Takes, KnowsIn};
ghost use Rattle.io_traits.specs.Causes.{Rose};
ghost use Rattle.out_store.specs.Opened.{AreKept};
ghost use Rattle.out_store.specs.Opening.{IsOpened, LeftByOpening, PublishedStay};
ghost use Rattle.out_store.specs.Publishing.{puts_of, LeftByPublish, IsPut};
ghost use Rattle.out_store.specs.Standing.{Row, StandsIn, row_of};

use crate::fault::OutFault;
use crate::finished::Finished;
use crate::names::{entry_name, log_name};
use crate::numbers::Numbers;
use crate::opening::{Found, open};
use crate::putting::put_next;
use crate::reading::look;
use crate::removing::remove_two;
use io_traits::Store;
use out_entry::{Entry, Kept};
use std::alloc::Global;
use tree_value::{Sequence, Text};

/// The results of tasks in a store, which is changed by this alone.
#[derive(Drop)]
pub struct Out<S> {
    store: S,
    numbers: Numbers,
    opening: Sequence<Kept>,
    alloc: Global,
}

impl<S: Store> Out<S> {
    /// Opens the store: lists it, reads all entries, and takes away the generations that none of them publishes.
    pub fn start(alloc: Global, store: S) -> Result<Out<S>, (S, OutFault)>
        ensures ok { IfOk result (λ out. IsOpened (S.content store) (S.content out.store) out.numbers) }
        ensures opening { IfOk result (λ out. IfSome (S.content store) (λ files. AreKept files out.opening)) }
        ensures opening_still { IfOk result (λ out. IfSome (S.content out.store) (λ files. AreKept files out.opening)) }
        ensures err { IfErr result (λ refused. LeftByOpening (S.content store) (S.content refused.0)) }
        ensures others { MatchResult result (λ out. PublishedStay (S.content store) (S.content out.store)) (λ refused. PublishedStay (S.content store) (S.content refused.0)) }
        ensures knows { IfOk result (λ out. IsSome (S.content store) → KnowsIn (S.content out.store) out.numbers) }
        ensures stands { (rows : List Row) (lost : List (List ℕ)) → StandsIn (S.content store) rows lost
            → MatchResult result (λ out. StandsIn (S.content out.store) rows lost) (λ refused. StandsIn (S.content refused.0) rows lost) }
        ensures later { MatchResult result (λ out. S.faults store ≤ S.faults out.store) (λ refused. S.faults store ≤ S.faults refused.0) }
        ensures fault { IfErr result (λ refused. refused.1 ≡ OutFault.Fault → Rose (S.faults store) (S.faults refused.0)) }
        ensures kept { MatchResult result (λ out. S.kept out.store ≡ S.kept store) (λ refused. S.kept refused.0 ≡ S.kept store) }
        ensures plan { MatchResult result (λ out. S.plan out.store ≡ S.plan store) (λ refused. S.plan refused.0 ≡ S.plan store) }
    {
        let mut store = store;
        match open(alloc, &mut store) {
            Ok(found) => {
                let Found { numbers, entries } = found;
                Ok(Out {
                    store,
                    numbers,
                    opening: entries,
                    alloc,
                })
            }
            Err(fault) => Err((store, fault)),
        }
    }

    /// The entry of the task, or `None` where what stands under its name isn't one.
    pub fn entry(&mut self, task: &Text) -> Result<Option<Entry>, OutFault>
        requires { IsTaskName task.now }
        ensures found { IfOk result (λ found. IfSome (S.content self.old.store) (λ files. IsFound files task.now found)) }
        ensures content { S.content self.new.store ≡ S.content self.old.store }
        ensures numbers { self.new.numbers ≡ self.old.numbers }
        ensures opening { self.new.opening ≡ self.old.opening }
        ensures cause { HasCause (S.faults self.old.store) (S.faults self.new.store) result }
        ensures kept { S.kept self.new.store ≡ S.kept self.old.store }
        ensures plan { S.plan self.new.store ≡ S.plan self.old.store }
    {
        let name = entry_name(self.alloc, task)?;
        look(self.alloc, &mut self.store, &name, task)
    }

    /// Takes away the task's entry, and then its log.
    pub fn clean(&mut self, task: &Text) -> Result<(), OutFault>
        requires { IsTaskName task.now }
        ensures ok { OnOk result (S.content self.new.store ≡ takes_out (entry_name task.now ∷ log_name task.now ∷ []) (S.content self.old.store)) }
        ensures err { OnErr result (LeftByRemoves (entry_name task.now ∷ log_name task.now ∷ []) (S.content self.old.store) (S.content self.new.store)) }
        ensures others { OthersStay (λ name. (name ≡ entry_name task.now) ⊎ (name ≡ log_name task.now)) (S.content self.old.store) (S.content self.new.store) }
        ensures knows { KnowsIn (S.content self.old.store) self.old.numbers → KnowsIn (S.content self.new.store) self.new.numbers }
        ensures stands { (rows : List Row) (lost : List (List ℕ)) → StandsIn (S.content self.old.store) rows lost → StandsIn (S.content self.new.store) rows lost }
        ensures numbers { self.new.numbers ≡ self.old.numbers }
        ensures opening { self.new.opening ≡ self.old.opening }
        ensures cause { HasCause (S.faults self.old.store) (S.faults self.new.store) result }
        ensures kept { S.kept self.new.store ≡ S.kept self.old.store }
        ensures plan { S.plan self.new.store ≡ S.plan self.old.store }
    {
        let entry = entry_name(self.alloc, task)?;
        let log = log_name(self.alloc, task)?;
        remove_two(&mut self.store, &entry, &log)
    }

    /// Puts the files of the run's dest in path order under the next number, then the log, then the entry, and
    /// answers the number.
    pub fn publish(&mut self, run: &Finished) -> Result<u32, OutFault>
        requires task { IsTaskName run.now.task }
        requires files { All IsFileName run.now.dest }
        ensures number { IfOk result (IsNext self.old.numbers run.now.task) }
        ensures taken { IfOk result (λ number. Takes self.old.numbers run.now.task number self.new.numbers) }
        ensures opening { self.new.opening ≡ self.old.opening }
        ensures ok { IfOk result (λ number. S.content self.new.store ≡ puts_in (puts_of run.now number) (S.content self.old.store)) }
        ensures err { OnErr result (LeftByPublish run.now self.old.numbers self.new.numbers (S.content self.old.store) (S.content self.new.store)) }
        ensures others { OthersStay (IsPut run.now self.old.numbers) (S.content self.old.store) (S.content self.new.store) }
        ensures knows { KnowsIn (S.content self.old.store) self.old.numbers → KnowsIn (S.content self.new.store) self.new.numbers }
        ensures stands { (rows : List Row) (lost : List (List ℕ)) → KnowsIn (S.content self.old.store) self.old.numbers → StandsIn (S.content self.old.store) rows lost → StandsIn (S.content self.new.store) (row_of run.now ∷ rows) lost }
        ensures cause { HasCause (S.faults self.old.store) (S.faults self.new.store) result }
        ensures kept { S.kept self.new.store ≡ S.kept self.old.store }
        ensures plan { S.plan self.new.store ≡ S.plan self.old.store }
    {
        put_next(self.alloc, &mut self.store, &mut self.numbers, run)
    }

    /// The entries that were readable as the store was opened, without their values, each with the whole names of
    /// the files of its generation. They stand in byte order of the entries' names, in which `a-b.json` comes before
    /// `a.json`.
    pub fn opening(&self) -> &[Kept]
        ensures { result.now ≡ self.now.opening }
    {
        self.opening.as_slice()
    }

    /// The store.
    pub fn end(self) -> S
        ensures { result ≡ self.store }
    {
        let Out {
            store,
            numbers: _,
            opening: _,
            alloc: _,
        } = self;
        store
    }
}
