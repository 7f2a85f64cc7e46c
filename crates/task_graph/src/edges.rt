//! The edges from tasks to their inputs.

ghost use Rattle.std.specs.Prelude.{◌≡◌, IfOk, filter};
ghost use Rattle.task_graph.specs.TaskGraphs.{places, inputs_of, edges, is_anonymous, anonymous_edges};

use place_graph::Places;
use sqlite_items::{Items, at};
use std::alloc::{AllocError, Global};
use task_model::{Kind, TaskId, TaskRow};

/// The places that tasks have.
pub(crate) fn places_of(alloc: Global, ids: &[TaskId]) -> Result<Places, AllocError>
    ensures { IfOk result (λ found. found ≡ places ids.now) }
{
    let mut found = Items::new(alloc);
    for id in ids {
        found.push(id.at)?;
    }
    Ok(found)
}

/// For each task the places of its inputs.
pub(crate) fn edges_of(alloc: Global, rows: &[TaskRow]) -> Result<Items<Places>, AllocError>
    ensures { IfOk result (λ found. found ≡ edges rows.now) }
{
    let mut found = Items::new(alloc);
    for row in rows {
        found.push(places_of(alloc, row.inputs.as_slice())?)?;
    }
    Ok(found)
}

pub(crate) fn is_anonymous(rows: &[TaskRow], place: u32) -> bool
    ensures { result ≡ is_anonymous rows.now place }
{
    match at(rows, place as usize) {
        None => false,
        Some(row) => matches!(row.kind, Kind::Anonymous),
    }
}

fn anonymous_of(alloc: Global, rows: &[TaskRow], ids: &[TaskId]) -> Result<Places, AllocError>
    ensures { IfOk result (λ found. found ≡ filter (is_anonymous rows.now) (places ids.now)) }
{
    let mut found = Items::new(alloc);
    for id in ids {
        if is_anonymous(rows, id.at) {
            found.push(id.at)?;
        }
    }
    Ok(found)
}

/// For each task those of its inputs that are anonymous.
pub(crate) fn anonymous_edges_of(
    alloc: Global,
    rows: &[TaskRow],
) -> Result<Items<Places>, AllocError>
    ensures { IfOk result (λ found. found ≡ anonymous_edges rows.now) }
{
    let mut found = Items::new(alloc);
    for row in rows {
        found.push(anonymous_of(alloc, rows, row.inputs.as_slice())?)?;
    }
    Ok(found)
}
