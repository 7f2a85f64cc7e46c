//! Tasks in name order, and names that come twice.

ghost use Rattle.std.specs.Prelude.{◌≡◌, ◌≢◌, OnOk, IfErr, IsPermutation, IsSortedByKey, All, option_copied};
ghost use Rattle.task_graph.specs.declared.fault.GraphFault.TheVariants.{Memory};
ghost use Rattle.program_graph.specs.Methods.{text_cmp};
ghost use Rattle.program_graph.specs.Tasks.{name_of, IsAccepted};
ghost use Rattle.program_graph.specs.Doubles.{begins_with, next_double};
ghost use Rattle.program_graph.specs.Outcomes.{HaveDistinctNames, IsDoubleFault};
ghost use Rattle.program_graph.specs.Reading.{tasks_read};

use crate::tasks::Task;
use crate::texts::text_of;
use std::alloc::{AllocError, Global};
use task_graph::GraphFault;

/// Puts tasks in name order.
pub(crate) fn sort_tasks(tasks: &mut Vec<Task<'_>>) -> Result<(), AllocError>
    ensures same { IsPermutation (tasks_read tasks.old.items) (tasks_read tasks.new.items) }
    ensures sorted { OnOk result (IsSortedByKey name_of text_cmp (tasks_read tasks.new.items)) }
{
    tasks.sort_by(|one, other| one.declaration.name.cmp(other.declaration.name))
}

fn begins_with(tasks: &[Task<'_>], name: &[u8]) -> bool
    ensures { result ≡ begins_with name_of name.now (tasks_read tasks.now) }
{
    match tasks.split_first() {
        None => false,
        Some((first, _)) => name == first.declaration.name,
    }
}

/// The first name that the next task has too.
fn next_double<'a>(tasks: &[Task<'a>]) -> Option<&'a [u8]>
    ensures { option_copied result ≡ next_double name_of (tasks_read tasks.now) }
{
    for place in 0..tasks.len() {
        let name = tasks[place].declaration.name;
        let (_, rest) = tasks.split_at(place + 1);
        if begins_with(rest, name) {
            return Some(name);
        }
    }
    None
}

/// Refuses a name that two tasks have.
pub(crate) fn refuse_double(alloc: Global, tasks: &[Task<'_>]) -> Result<(), GraphFault>
    requires sorted { IsSortedByKey name_of text_cmp (tasks_read tasks.now) }
    requires accepted { All IsAccepted (tasks_read tasks.now) }
    ensures ok { OnOk result (HaveDistinctNames (tasks_read tasks.now)) }
    ensures fault { IfErr result (λ fault. fault ≢ Memory → IsDoubleFault (tasks_read tasks.now) fault) }
{
    match next_double(tasks) {
        None => Ok(()),
        Some(name) => Err(GraphFault::DuplicateTask(text_of(alloc, name)?)),
    }
}
