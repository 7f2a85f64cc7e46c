//! The rows of tasks.

ghost use Rattle.std.specs.Prelude.{◌≡◌, ◌≢◌, ◌<◌, ◌^◌, ◌++◌, ◌∷◌, [], All, IfOk, IfErr, OnOk, IsSortedByKey, length};
ghost use Rattle.std.specs.declared.result.Result.TheVariants.{Ok, Err};
ghost use Rattle.task_graph.specs.declared.fault.GraphFault.TheVariants.{Memory};
ghost use Rattle.program_graph.specs.Methods.{text_cmp};
ghost use Rattle.program_graph.specs.Tasks.{name_of, IsAccepted};
ghost use Rattle.program_graph.specs.Rows.{links, row_of, rows_of};
ghost use Rattle.program_graph.specs.Outcomes.{HaveDistinctNames};
ghost use Rattle.program_graph.specs.Reading.{task_read, tasks_read};

use crate::links::link;
use crate::tasks::Task;
use crate::texts::text_of;
use sqlite_items::at;
use std::alloc::{AllocError, Global};
use task_graph::GraphFault;
use task_model::{TaskId, TaskIds, TaskRow, TaskRows};
use tree_value::{CopyFault, Path};

fn push_id(ids: &mut Vec<TaskId>, id: TaskId) -> Result<(), AllocError>
    ensures { OnOk result (ids.new.items ≡ ids.old.items ++ (id ∷ [])) }
{
    ids.push(id)?;
    Ok(())
}

fn push_row(rows: &mut Vec<TaskRow>, row: TaskRow) -> Result<(), AllocError>
    ensures { OnOk result (rows.new.items ≡ rows.old.items ++ (row ∷ [])) }
{
    rows.push(row)?;
    Ok(())
}

fn copy_path(path: &Option<Path>) -> Result<Option<Path>, CopyFault>
    ensures { IfOk result (λ copy. copy ≡ path.now) }
{
    match path {
        None => Ok(None),
        Some(path) => Ok(Some(path.copy()?)),
    }
}

/// The inputs of a task, or the first that is wrong.
fn links_of(alloc: Global, tasks: &[Task<'_>], task: &Task<'_>) -> Result<TaskIds, GraphFault>
    requires sorted { IsSortedByKey name_of text_cmp (tasks_read tasks.now) }
    requires distinct { HaveDistinctNames (tasks_read tasks.now) }
    requires few { length tasks.now < 2 ^ 32 }
    requires accepted { IsAccepted (task_read task.now) }
    ensures ok { IfOk result (λ ids. links (tasks_read tasks.now) (task_read task.now) ≡ Ok ids) }
    ensures fault { IfErr result (λ fault. fault ≢ Memory
        → links (tasks_read tasks.now) (task_read task.now) ≡ Err fault) }
{
    let mut ids = Vec::new(alloc);
    let inputs = task.declaration.inputs.as_slice();
    for place in 0..inputs.len() {
        let parameter = at(task.declaration.parameters.as_slice(), place);
        push_id(
            &mut ids,
            link(alloc, tasks, task, inputs[place], parameter)?,
        )?;
    }
    Ok(TaskIds::from_vec(ids))
}

/// The row of a task, or its first input that is wrong.
fn row_of(alloc: Global, tasks: &[Task<'_>], task: &Task<'_>) -> Result<TaskRow, GraphFault>
    requires sorted { IsSortedByKey name_of text_cmp (tasks_read tasks.now) }
    requires distinct { HaveDistinctNames (tasks_read tasks.now) }
    requires few { length tasks.now < 2 ^ 32 }
    requires accepted { IsAccepted (task_read task.now) }
    ensures ok { IfOk result (λ row. row_of (tasks_read tasks.now) (task_read task.now) ≡ Ok row) }
    ensures fault { IfErr result (λ fault. fault ≢ Memory
        → row_of (tasks_read tasks.now) (task_read task.now) ≡ Err fault) }
{
    let inputs = links_of(alloc, tasks, task)?;
    let declaration = &task.declaration;
    Ok(TaskRow {
        name: text_of(alloc, declaration.name)?,
        kind: declaration.kind.followed(),
        method: task.site.member,
        inputs,
        path: copy_path(&declaration.path)?,
        budget: declaration.budget,
        result: declaration.returned,
    })
}

/// The rows of tasks in name order, or the first input that is wrong.
#[tactic(auto, unfolding(crate::specs::Rows::rows_of))]
pub(crate) fn rows_of(alloc: Global, tasks: &[Task<'_>]) -> Result<TaskRows, GraphFault>
    requires sorted { IsSortedByKey name_of text_cmp (tasks_read tasks.now) }
    requires distinct { HaveDistinctNames (tasks_read tasks.now) }
    requires few { length tasks.now < 2 ^ 32 }
    requires accepted { All IsAccepted (tasks_read tasks.now) }
    ensures ok { IfOk result (λ rows. rows_of (tasks_read tasks.now) ≡ Ok rows) }
    ensures fault { IfErr result (λ fault. fault ≢ Memory → rows_of (tasks_read tasks.now) ≡ Err fault) }
{
    let mut rows = Vec::new(alloc);
    for place in 0..tasks.len() {
        push_row(&mut rows, row_of(alloc, tasks, &tasks[place])?)?;
    }
    Ok(TaskRows::from_vec(rows))
}
