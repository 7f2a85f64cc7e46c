//! The tasks that a selector selects.

ghost use Rattle.std.specs.Prelude.{◌≡◌, ◌<◌, ◌^◌, ◌++◌, length, IfOk, OnOk};
ghost use Rattle.std.specs.List.{list_any};
ghost use Rattle.task_resolve.specs.Selected.{is_named_task, is_command, is_selected, is_selected_command, if_selected, selected, selects_command, is_none, selection, AnswersUnlessMemory};
ghost use Rattle.task_resolve.specs.declared.request.Selector.{Selector};

use crate::matching::is_matched;
use crate::request::Selector;
use crate::select_fault::SelectFault;
use std::alloc::{AllocError, Global};
use task_model::{Kind, TaskId, TaskIds, TaskRow, TaskRows};
use tree_value::Sequence;

fn is_named_task(kind: Kind) -> bool
    ensures { result ≡ is_named_task kind }
{
    match kind {
        Kind::Cached => true,
        Kind::Source => true,
        Kind::Input => true,
        Kind::Command => true,
        Kind::Anonymous => false,
    }
}

pub(crate) fn is_command(kind: Kind) -> bool
    ensures { result ≡ is_command kind }
{
    match kind {
        Kind::Cached => false,
        Kind::Source => false,
        Kind::Input => false,
        Kind::Command => true,
        Kind::Anonymous => false,
    }
}

#[tactic(auto, unfolding(crate::specs::Selected::is_selected))]
pub(crate) fn is_selected(
    alloc: Global,
    selector: &Selector,
    task: &TaskRow,
) -> Result<bool, AllocError>
    ensures { IfOk result (λ is. is ≡ is_selected selector.now task.now) }
{
    if is_named_task(task.kind) {
        is_matched(alloc, selector.segments.as_slice(), task.name.as_slice())
    } else {
        Ok(false)
    }
}

#[tactic(auto, unfolding(crate::specs::Selected::is_selected_command))]
fn is_selected_command(
    alloc: Global,
    selector: &Selector,
    task: &TaskRow,
) -> Result<bool, AllocError>
    ensures { IfOk result (λ is. is ≡ is_selected_command selector.now task.now) }
{
    if is_command(task.kind) {
        is_selected(alloc, selector, task)
    } else {
        Ok(false)
    }
}

fn add_if_selected(
    alloc: Global,
    found: &mut Vec<TaskId>,
    selector: &Selector,
    place: u32,
    task: &TaskRow,
) -> Result<(), AllocError>
    ensures { OnOk result (found.new.items ≡ found.old.items ++ if_selected selector.now place task.now) }
{
    if is_selected(alloc, selector, task)? {
        found.push(TaskId { at: place })?;
    }
    Ok(())
}

fn selected(
    alloc: Global,
    tasks: &[TaskRow],
    selector: &Selector,
) -> Result<Vec<TaskId>, AllocError>
    requires { length tasks.now < 2 ^ 32 }
    ensures { IfOk result (λ found. found.items ≡ selected selector.now tasks.now) }
{
    let mut found = Vec::new(alloc);
    for place in 0..tasks.len() {
        add_if_selected(alloc, &mut found, selector, place as u32, &tasks[place])?;
    }
    Ok(found)
}

fn selects_command(
    alloc: Global,
    tasks: &[TaskRow],
    selector: &Selector,
) -> Result<bool, AllocError>
    ensures { IfOk result (λ selects. selects ≡ selects_command selector.now tasks.now) }
{
    for task in tasks {
        if is_selected_command(alloc, selector, task)? {
            return Ok(true);
        }
    }
    Ok(false)
}

/// The tasks that a selector selects, in the order of the tasks. The tasks are in name order, so that is the order of
/// the result.
pub fn select_tasks(
    alloc: Global,
    tasks: &TaskRows,
    selector: &Selector,
) -> Result<TaskIds, SelectFault>
    requires { length tasks.now < 2 ^ 32 }
    ensures { AnswersUnlessMemory (selection selector.now tasks.now) result }
{
    let found = selected(alloc, tasks.as_slice(), selector)?;
    if found.is_empty() {
        return Err(SelectFault::NoTask);
    }
    if !selector.args.is_empty() && !selects_command(alloc, tasks.as_slice(), selector)? {
        return Err(SelectFault::NoCommand);
    }
    Ok(Sequence::from_vec(found))
}
