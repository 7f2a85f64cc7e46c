//! What is run together.

ghost use Rattle.std.specs.Prelude.{◌≡◌, ◌<◌, length, IfOk, IsOkUnless};
ghost use Rattle.task_graph.specs.TaskGraphs.{places};
ghost use Rattle.task_graph.specs.Plans.{group};

use crate::fault::GraphFault;
use crate::graph::Graph;
use crate::post_order::post_order_of;
use place_graph::Places;
use std::alloc::{AllocError, Global};
use task_model::{TaskId, TaskIds};

/// A named task and the anonymous ones that are run with it, in the order in which they run. The named task is last.
#[derive(Debug, Drop)]
pub struct Group {
    pub members: TaskIds,
}

fn tasks_at(alloc: Global, tasks: &[u32]) -> Result<TaskIds, AllocError>
    ensures { IfOk result (λ ids. places ids ≡ tasks.now) }
{
    let mut ids = Vec::new(alloc);
    for task in tasks {
        ids.push(TaskId { at: *task })?;
    }
    Ok(TaskIds::from_vec(ids))
}

/// A task, after the anonymous ones that it reaches through anonymous ones alone.
fn walk(alloc: Global, graph: &Graph, task: u32) -> Result<Places, AllocError>
    requires { task < length graph.now }
    ensures { IfOk result (λ walked. walked ≡ group graph.now task) }
{
    let walked = post_order_of(alloc, graph.anonymous_edges(), &[task])?;
    Ok(walked)
}

/// The group of a task: the anonymous tasks that it reaches through anonymous tasks alone, each after its inputs, and
/// then the task. The time is that of a walk over the members and their anonymous inputs, beside a mark for each task of
/// the graph.
pub fn group_of(alloc: Global, graph: &Graph, task: TaskId) -> Result<Group, GraphFault>
    requires { task.at < length graph.now }
    ensures memory { IsOkUnless result GraphFault.Memory }
    ensures members { IfOk result (λ found. places found.members ≡ group graph.now task.at) }
{
    let walked = walk(alloc, graph, task.at)?;
    Ok(Group {
        members: tasks_at(alloc, walked.as_slice())?,
    })
}
