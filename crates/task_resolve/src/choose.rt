//! The tasks that several selectors choose, with the arguments of Commands.

ghost use Rattle.std.specs.Prelude.{◌≡◌, ◌<◌, ◌^◌, ◌++◌, length, IfOk, OnOk, option_map};
ghost use Rattle.task_resolve.specs.Chosen.{first_selecting, taken_args, chosen_by, chosen};

use crate::read::lines;
use crate::request::{Selector, Selectors};
use crate::select::{is_command, is_selected};
use std::alloc::{AllocError, Global};
use task_model::{TaskId, TaskRow, TaskRows};
use tree_value::{Lines, Sequence};

/// A chosen task with its arguments, of which only a Command has some.
#[derive(Debug, Drop)]
pub struct Chosen {
    pub task: TaskId,
    pub args: Lines,
}

fn first_selecting<'s>(
    alloc: Global,
    selectors: &'s [Selector],
    task: &TaskRow,
) -> Result<Option<&'s Selector>, AllocError>
    ensures { IfOk result (λ found. option_map (λ selector. selector.now) found ≡ first_selecting selectors.now task.now) }
{
    for selector in selectors {
        if is_selected(alloc, selector, task)? {
            return Ok(Some(selector));
        }
    }
    Ok(None)
}

fn taken_args(alloc: Global, task: &TaskRow, selector: &Selector) -> Result<Lines, AllocError>
    ensures { IfOk result (λ args. args ≡ taken_args task.now selector.now) }
{
    if is_command(task.kind) {
        lines(alloc, selector.args.as_slice())
    } else {
        Ok(Sequence::new(alloc))
    }
}

fn add_if_chosen(
    alloc: Global,
    found: &mut Vec<Chosen>,
    selectors: &[Selector],
    place: u32,
    task: &TaskRow,
) -> Result<(), AllocError>
    ensures { OnOk result (found.new.items ≡ found.old.items ++ chosen_by place task.now (first_selecting selectors.now task.now)) }
{
    match first_selecting(alloc, selectors, task)? {
        None => Ok(()),
        Some(selector) => {
            let args = taken_args(alloc, task, selector)?;
            found.push(Chosen {
                task: TaskId { at: place },
                args,
            })?;
            Ok(())
        }
    }
}

fn all_chosen(
    alloc: Global,
    tasks: &[TaskRow],
    selectors: &[Selector],
) -> Result<Vec<Chosen>, AllocError>
    requires { length tasks.now < 2 ^ 32 }
    ensures { IfOk result (λ found. found.items ≡ chosen selectors.now tasks.now) }
{
    let mut found = Vec::new(alloc);
    for place in 0..tasks.len() {
        add_if_chosen(alloc, &mut found, selectors, place as u32, &tasks[place])?;
    }
    Ok(found)
}

/// The tasks that a command's selectors choose, each once and in the order of the tasks, with the arguments of Commands:
/// those behind the first selector that selects the Command. Whether each selector selects something is told by
/// `select_tasks`.
pub fn choose_tasks(
    alloc: Global,
    tasks: &TaskRows,
    selectors: &Selectors,
) -> Result<Sequence<Chosen>, AllocError>
    requires { length tasks.now < 2 ^ 32 }
    ensures { IfOk result (λ found. found ≡ chosen selectors.now tasks.now) }
{
    let found = all_chosen(alloc, tasks.as_slice(), selectors.as_slice())?;
    Ok(Sequence::from_vec(found))
}
