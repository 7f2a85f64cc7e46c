//! The tasks that inputs name.

ghost use Rattle.std.specs.Prelude.{◌≡◌, ◌≢◌, ◌<◌, ◌^◌, IfOk, IfErr, IfSome, IsOkUnless, IsSortedByKey, IsUtf8, Some, length, option_copied};
ghost use Rattle.std.specs.declared.result.Result.TheVariants.{Ok, Err};
ghost use Rattle.task_graph.specs.declared.fault.GraphFault.TheVariants.{Memory, UnknownInput, CommandInput, TypeMismatch};
ghost use Rattle.task_graph.specs.TaskGraphs.{is_command_kind};
ghost use Rattle.program_graph.specs.Methods.{text_cmp};
ghost use Rattle.program_graph.specs.Tasks.{name_of, kind_of};
ghost use Rattle.program_graph.specs.Rows.{place_of, are_same, is_of_type, linked_to, linked};
ghost use Rattle.program_graph.specs.Outcomes.{HaveDistinctNames};
ghost use Rattle.program_graph.specs.Reading.{task_read, tasks_read};

use crate::tasks::Task;
use crate::texts::text_of;
use std::alloc::Global;
use task_graph::GraphFault;
use task_model::{Kind, TaskId};
use tree_value::{Text, ValueType};

/// The place of the task of a name.
fn place_of(tasks: &[Task<'_>], name: &[u8]) -> Option<usize>
    requires sorted { IsSortedByKey name_of text_cmp (tasks_read tasks.now) }
    requires distinct { HaveDistinctNames (tasks_read tasks.now) }
    ensures place { result ≡ place_of name.now (tasks_read tasks.now) }
    ensures within { IfSome result (λ place. place < length tasks.now) }
{
    match tasks.binary_search_by(|task| task.declaration.name.cmp(name)) {
        Ok(place) => Some(place),
        Err(_) => None,
    }
}

fn is_command(task: &Task<'_>) -> bool
    ensures { result ≡ is_command_kind (Some (kind_of (task_read task.now))) }
{
    matches!(task.declaration.kind.followed(), Kind::Command)
}

fn are_same(one: ValueType, other: ValueType) -> bool
    ensures { result ≡ are_same one other }
{
    one == other
}

/// Whether a parameter is of a type.
fn is_of_type(parameter: Option<&Option<ValueType>>, returned: ValueType) -> bool
    ensures { result ≡ is_of_type (option_copied parameter.entry) returned }
{
    match parameter {
        Some(Some(parameter)) => are_same(*parameter, returned),
        _ => false,
    }
}

/// The texts of an input and of its task.
fn texts(alloc: Global, input: &[u8], task: &[u8]) -> Result<(Text, Text), GraphFault>
    requires input { IsUtf8 input.now }
    requires task { IsUtf8 task.now }
    ensures texts { IfOk result (λ texts. texts ≡ (input.now, task.now)) }
    ensures memory { IsOkUnless result GraphFault.Memory }
{
    Ok((text_of(alloc, input)?, text_of(alloc, task)?))
}

fn unknown_input(alloc: Global, input: &[u8], task: &[u8]) -> GraphFault
    requires input { IsUtf8 input.now }
    requires task { IsUtf8 task.now }
    ensures { result ≢ Memory → result ≡ UnknownInput input.now task.now }
{
    match texts(alloc, input, task) {
        Ok((input, task)) => GraphFault::UnknownInput { input, task },
        Err(fault) => fault,
    }
}

fn command_input(alloc: Global, input: &[u8], task: &[u8]) -> GraphFault
    requires input { IsUtf8 input.now }
    requires task { IsUtf8 task.now }
    ensures { result ≢ Memory → result ≡ CommandInput input.now task.now }
{
    match texts(alloc, input, task) {
        Ok((input, task)) => GraphFault::CommandInput { input, task },
        Err(fault) => fault,
    }
}

fn type_mismatch(alloc: Global, input: &[u8], task: &[u8]) -> GraphFault
    requires input { IsUtf8 input.now }
    requires task { IsUtf8 task.now }
    ensures { result ≢ Memory → result ≡ TypeMismatch input.now task.now }
{
    match texts(alloc, input, task) {
        Ok((input, task)) => GraphFault::TypeMismatch { input, task },
        Err(fault) => fault,
    }
}

/// The input that another task at a place is, where it may be.
fn link_to(
    alloc: Global,
    task: &[u8],
    input: &[u8],
    parameter: Option<&Option<ValueType>>,
    place: u32,
    other: &Task<'_>,
) -> Result<TaskId, GraphFault>
    requires task { IsUtf8 task.now }
    requires input { IsUtf8 input.now }
    ensures ok { IfOk result (λ id.
        linked_to task.now input.now (option_copied parameter.entry) place (Some (task_read other.now)) ≡ Ok id) }
    ensures fault { IfErr result (λ fault. fault ≢ Memory
        → linked_to task.now input.now (option_copied parameter.entry) place (Some (task_read other.now)) ≡ Err fault) }
{
    if is_command(other) {
        return Err(command_input(alloc, input, task));
    }
    if !is_of_type(parameter, other.declaration.returned) {
        return Err(type_mismatch(alloc, input, task));
    }
    Ok(TaskId { at: place })
}

/// The input of a name, among tasks in name order.
pub(crate) fn link(
    alloc: Global,
    tasks: &[Task<'_>],
    task: &Task<'_>,
    input: &[u8],
    parameter: Option<&Option<ValueType>>,
) -> Result<TaskId, GraphFault>
    requires sorted { IsSortedByKey name_of text_cmp (tasks_read tasks.now) }
    requires distinct { HaveDistinctNames (tasks_read tasks.now) }
    requires few { length tasks.now < 2 ^ 32 }
    requires task { IsUtf8 (name_of (task_read task.now)) }
    requires input { IsUtf8 input.now }
    ensures ok { IfOk result (λ id.
        linked (tasks_read tasks.now) (task_read task.now) input.now (option_copied parameter.entry) ≡ Ok id) }
    ensures fault { IfErr result (λ fault. fault ≢ Memory
        → linked (tasks_read tasks.now) (task_read task.now) input.now (option_copied parameter.entry) ≡ Err fault) }
{
    let name = task.declaration.name;
    match place_of(tasks, input) {
        None => Err(unknown_input(alloc, input, name)),
        Some(place) => link_to(alloc, name, input, parameter, place as u32, &tasks[place]),
    }
}
