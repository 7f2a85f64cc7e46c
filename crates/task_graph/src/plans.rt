//! What is evaluated for the chosen tasks.

ghost use Rattle.std.specs.Prelude.{◌≡◌, ◌<◌, ◌≤◌, [], length, filter, IfOk, OnOk, IsOkUnless};
ghost use Rattle.place_graph.specs.Graphs.{AreWithin, with_places};
ghost use Rattle.place_graph.specs.Closing.{IsMarking};
ghost use Rattle.task_graph.specs.TaskGraphs.{places, edges};
ghost use Rattle.task_graph.specs.PostOrders.{post_order};
ghost use Rattle.task_graph.specs.Plans.{is_named, in_name_order, marked_places, with_marked, plan};

use crate::edges::{is_anonymous, places_of};
use crate::fault::GraphFault;
use crate::graph::Graph;
use crate::post_order::{FOUND, add, post_order_of};
use place_graph::Places;
use sqlite_items::Items;
use std::alloc::{AllocError, Global};
use task_model::{TaskId, TaskRow};

fn mark_all(marks: &mut [usize], found: &mut Places, places: &[u32]) -> Result<(), AllocError>
    requires places { AreWithin (length marks.old) places.now }
    requires marking { IsMarking marks.old 1 found.old }
    ensures found { OnOk result (found.new ≡ with_places found.old places.now) }
    ensures marking { OnOk result (IsMarking marks.new 1 found.new) }
{
    for place in places {
        add(marks, found, *place)?;
    }
    Ok(())
}

/// Adds a place, if it is marked.
fn push_marked(found: &mut Places, marks: &[usize], place: usize) -> Result<(), AllocError>
    requires place { place < length marks.now }
    requires few { place < 4096 }
    ensures { OnOk result (found.new ≡ with_marked marks.now found.old place) }
{
    if marks[place] != FOUND {
        return Ok(());
    }
    found.push(place as u32)
}

/// The marked places, in order.
fn marked(alloc: Global, marks: &[usize]) -> Result<Places, AllocError>
    requires { length marks.now ≤ 4096 }
    ensures { IfOk result (λ found. found ≡ marked_places marks.now (length marks.now)) }
{
    let mut found = Items::new(alloc);
    for place in 0..marks.len() {
        push_marked(&mut found, marks, place)?;
    }
    Ok(found)
}

/// The chosen places in order, where none is marked before.
fn choose(alloc: Global, marks: &mut [usize], chosen: &[u32]) -> Result<Places, AllocError>
    requires few { length marks.old ≤ 4096 }
    requires chosen { AreWithin (length marks.old) chosen.now }
    requires marking { IsMarking marks.old 1 [] }
    ensures { IfOk result (λ ordered. ordered ≡ in_name_order (length marks.old) chosen.now) }
{
    let mut found = Items::new(alloc);
    mark_all(marks, &mut found, chosen)?;
    let ordered = marked(alloc, marks)?;
    Ok(ordered)
}

/// The chosen ones of so many tasks in name order.
fn in_name_order(alloc: Global, count: usize, chosen: &[u32]) -> Result<Places, AllocError>
    requires few { count ≤ 4096 }
    requires chosen { AreWithin count chosen.now }
    ensures ordered { IfOk result (λ ordered. ordered ≡ in_name_order count chosen.now) }
    ensures within { IfOk result (λ ordered. AreWithin count ordered) }
{
    let mut marks = vec![in alloc; 0usize; count]?;
    let ordered = choose(alloc, &mut marks, chosen)?;
    Ok(ordered)
}

/// The named ones of tasks.
fn named(alloc: Global, rows: &[TaskRow], tasks: &[u32]) -> Result<Vec<TaskId>, AllocError>
    ensures { IfOk result (λ found. places found.items ≡ filter (is_named rows.now) tasks.now) }
{
    let mut found = Vec::new(alloc);
    for task in tasks {
        if !is_anonymous(rows, *task) {
            found.push(TaskId { at: *task })?;
        }
    }
    Ok(found)
}

/// Tasks and those upstream of them, each after its inputs.
fn walk(alloc: Global, graph: &Graph, tasks: &[u32]) -> Result<Places, AllocError>
    requires { AreWithin (length graph.now) tasks.now }
    ensures { IfOk result (λ walked. walked ≡ post_order (edges graph.now) tasks.now) }
{
    let walked = post_order_of(alloc, graph.edges(), tasks)?;
    Ok(walked)
}

/// The named tasks upstream of the chosen ones and these themselves, each after its inputs. The time is that of a walk
/// over the tasks and the inputs of those that are found.
pub fn plan(alloc: Global, graph: &Graph, chosen: &[TaskId]) -> Result<Vec<TaskId>, GraphFault>
    requires { AreWithin (length graph.now) (places chosen.now) }
    ensures memory { IsOkUnless result GraphFault.Memory }
    ensures plan { IfOk result (λ found. places found.items ≡ plan graph.now (places chosen.now)) }
{
    let places = places_of(alloc, chosen)?;
    let ordered = in_name_order(alloc, graph.tasks().len(), places.as_slice())?;
    let walked = walk(alloc, graph, ordered.as_slice())?;
    Ok(named(alloc, graph.tasks(), walked.as_slice())?)
}
