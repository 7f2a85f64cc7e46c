//! The numbers of generations that are in use.

ghost use Rattle.std.specs.Prelude.{◌≡◌, ◌↔◌, ℕ, List, if◌then◌else◌, IfOk, IfSome, OnOk, OnErr, IsTrue, Some, None, ◌<◌, ◌^◌};
ghost use Rattle.std.specs.Ordering.{eq_by_cmp};
ghost use Rattle.std.specs.BTreeMap.{get};
ghost use Rattle.tree_value.specs.Trees.{path_cmp};
ghost use Rattle.out_store.specs.Opening.{NoneTaken};
ghost use Rattle.out_store.specs.Numbers.{IsNext, IsNextBehind, IsOpening, Takes, UsesTheSame, last_taken};

use std::alloc::Global;
use std::collections::BTreeMap;
use tree_value::{CopyFault, Text};

/// For each task the generation of the entry that was readable at the start, and the last number that was
/// taken since.
#[derive(Drop)]
pub struct Numbers {
    opening: BTreeMap<Text, u32>,
    taken: BTreeMap<Text, u32>,
}

// The next number behind `last` that isn't the opening one.
fn next_number(last: u32, opening: Option<u32>) -> Option<u32>
    ensures next { IfSome result (IsNextBehind last opening) }
    ensures small { IfSome result (λ number. number < 2 ^ 32) }
{
    let next = last.checked_add(1)?;
    if opening == Some(next) {
        next.checked_add(1)
    } else {
        Some(next)
    }
}

impl Numbers {
    /// No entry was readable, and nothing is taken.
    pub(crate) fn none(alloc: Global) -> Numbers
        ensures opening { (t : List ℕ) → get path_cmp result.opening t ≡ None }
        ensures taken { NoneTaken result }
    {
        Numbers {
            opening: BTreeMap::new(alloc),
            taken: BTreeMap::new(alloc),
        }
    }

    /// Notes the generation of an entry of the task.
    pub(crate) fn open(&mut self, task: Text, number: u32) -> Result<(), CopyFault>
        ensures opening { OnOk result ((t : List ℕ) → get path_cmp self.new.opening t ≡ (if eq_by_cmp path_cmp task t then Some number else get path_cmp self.old.opening t)) }
        ensures taken { self.new.taken ≡ self.old.taken }
    {
        self.opening.insert(task, number)?;
        Ok(())
    }

    /// Whether the number is that of the entry of the task that was readable at the start.
    pub(crate) fn is_opening(&self, task: &Text, number: u32) -> bool
        ensures { IsTrue result ↔ IsOpening self.now task.now number }
    {
        self.opening.get(task).copied() == Some(number)
    }

    fn last_taken(&self, task: &Text) -> u32
        ensures { result ≡ last_taken self.now task.now }
    {
        match self.taken.get(task) {
            Some(number) => *number,
            None => 0,
        }
    }

    fn opening(&self, task: &Text) -> Option<u32>
        ensures { result ≡ get path_cmp self.now.opening task.now }
    {
        self.opening.get(task).copied()
    }

    fn set_taken(&mut self, task: Text, number: u32) -> Result<(), CopyFault>
        ensures taken { OnOk result ((t : List ℕ) → get path_cmp self.new.taken t ≡ (if eq_by_cmp path_cmp task t then Some number else get path_cmp self.old.taken t)) }
        ensures opening { self.new.opening ≡ self.old.opening }
        ensures err { OnErr result ((t : List ℕ) → get path_cmp self.new.taken t ≡ get path_cmp self.old.taken t) }
    {
        self.taken.insert(task, number)?;
        Ok(())
    }

    /// The least number that isn't used for the task. It is used from then on, also where the task's run is not
    /// published in the end. Past the last number of 32 bits the answer is want of memory.
    pub(crate) fn take(&mut self, task: &Text) -> Result<u32, CopyFault>
        ensures next { IfOk result (λ number. IsNext self.old task.now number) }
        ensures used { IfOk result (λ number. Takes self.old task.now number self.new) }
        ensures err { OnErr result (UsesTheSame self.old self.new) }
    {
        let last = self.last_taken(task);
        let opening = self.opening(task);
        let Some(number) = next_number(last, opening) else {
            return Err(CopyFault::Memory);
        };
        self.set_taken(task.copy()?, number)?;
        Ok(number)
    }
}
