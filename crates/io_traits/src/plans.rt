//! Which calls of a device in memory are to fail, and the count of those that did.

ghost use Rattle.std.specs.Prelude.{◌≡◌, ◌≤◌, ◌==◌, [], map, IfOk, IsSome};
ghost use Rattle.std.specs.Map.{lookup};
ghost use Rattle.io_traits.specs.Causes.{Rose};
ghost use Rattle.io_traits.specs.Planned.{planned, leaving_old, next_leaves, after_call};

use std::alloc::Global;
use std::marker::Model;
use tree_value::CopyFault;

/// What a failed put of a [`MemStore`](crate::MemStore) leaves under its name. A failed removal leaves the name
/// for `Old` and takes it for the others.
#[derive(Clone, Copy, Debug, PartialEq, Eq)]
pub enum Leaves {
    Old,
    New,
    Nothing,
}

/// The calls of a device that are to fail, by their numbers from 1, and how many calls and failures there were.
/// Both counts stand still at the last number of 64 bits.
#[derive(Debug, Drop)]
pub struct CallPlan {
    failing: Vec<(u64, Leaves)>,
    calls: u64,
    faults: u64,
}

impl Model for CallPlan {
    ghost use Rattle.std.specs.Prelude.{◌≡◌, []};
    ghost use Rattle.io_traits.specs.Planned.{Planned};

    ghost Value = { Planned };

    ghost view = { λ plan. record { failing = plan.failing.items; calls = plan.calls; faults = plan.faults } };

    ghost invariant = { λ plan. plan.failing.items ≡ [] → plan.faults ≡ 0 };
}

impl CallPlan {
    pub(crate) fn new(failing: Vec<(u64, Leaves)>) -> CallPlan
        ensures { result ≡ planned failing.items }
    {
        CallPlan {
            failing,
            calls: 0,
            faults: 0,
        }
    }

    // The plan of a device whose failed calls change nothing.
    pub(crate) fn of_numbers(alloc: Global, numbers: &[u64]) -> Result<CallPlan, CopyFault>
        ensures { IfOk result (λ plan. plan ≡ planned (leaving_old numbers.now)) }
    {
        let mut failing = Vec::new(alloc);
        for number in numbers {
            failing.push((*number, Leaves::Old))?;
        }
        Ok(CallPlan::new(failing))
    }

    pub(crate) fn faults(&self) -> u64
        ensures count { result ≡ self.now.faults }
        ensures quiet { self.now.failing ≡ [] → result ≡ 0 }
    {
        self.faults
    }

    // Counts a call, and answers what it leaves if it is to fail.
    pub(crate) fn count(&mut self) -> Option<Leaves>
        ensures leaves { result ≡ next_leaves self.old }
        ensures counted { self.new ≡ after_call self.old }
        ensures later { self.old.faults ≤ self.new.faults }
        ensures rose { IsSome result → Rose self.old.faults self.new.faults }
    {
        let number = self.calls.saturating_add(1);
        let leaves = find_leaves(&self.failing, number);
        self.calls = number;
        if leaves.is_some() {
            self.faults = self.faults.saturating_add(1);
        }
        leaves
    }
}

// What stands beside the number.
fn find_leaves(failing: &[(u64, Leaves)], number: u64) -> Option<Leaves>
    ensures { result ≡ lookup (λ n. n == number) failing.now }
{
    for (planned, leaves) in failing {
        if *planned == number {
            return Some(*leaves);
        }
    }
    None
}
