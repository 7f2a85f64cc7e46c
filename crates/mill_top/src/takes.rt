//! Why tasks were run or reused.

ghost use Rattle.std.specs.Prelude.{◌≡◌, ◌++◌, ◌∷◌, [], OnOk, OnErr};

use std::alloc::{AllocFailed, Global};
use std::marker::Model;
use tree_value::{Digest, Text};

/// What stood under a task's entry name.
#[derive(Clone, Copy, Debug, PartialEq, Eq)]
pub enum FoundEntry {
    /// No entry that reads, or one of the task's input hash that holds no int, as no run leaves it.
    Missing,
    /// An entry of another input hash, which it names.
    Other(Digest),
    /// An entry of the task's input hash, so that it was reused.
    Same(Digest),
}

/// Tasks, each with what was found.
#[derive(Debug, Drop)]
pub struct Takes {
    items: Vec<(Text, FoundEntry)>,
}

impl Model for Takes {
    ghost use Rattle.std.specs.Prelude.{ℕ, List};
    ghost use Rattle.mill_top.specs.declared.takes.FoundEntry.{FoundEntry};

    ghost Value = { List (List ℕ × FoundEntry) };

    ghost view = { λ takes. takes.items.items };
}

impl Takes {
    /// No task.
    pub fn none(alloc: Global) -> Takes
        ensures { result ≡ [] }
    {
        Takes {
            items: Vec::new(alloc),
        }
    }

    /// Adds a task at the end.
    pub fn push(
        &mut self,
        task: Text,
        found: FoundEntry,
    ) -> Result<(), AllocFailed<(Text, FoundEntry)>>
        ensures ok { OnOk result (self.new ≡ self.old ++ (task, found) ∷ []) }
        ensures err { OnErr result (self.new ≡ self.old) }
    {
        self.items.push((task, found))
    }

    /// The tasks in the order in which they were taken.
    pub fn as_slice(&self) -> &[(Text, FoundEntry)]
        ensures { result.now ≡ self.now }
    {
        &self.items
    }
}
