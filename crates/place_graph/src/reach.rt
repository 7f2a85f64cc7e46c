//! Which places are reached from a place, and which lead back to themselves.

ghost use Rattle.std.specs.Prelude.{◌≡◌, ℕ, ◌<◌, [], ◌∷◌, false, length, All, OnOk, IfOk, replicate};
ghost use Rattle.place_graph.specs.Graphs.{edges_of, AreWithin, IsGraph};
ghost use Rattle.place_graph.specs.Searches.{MarksAll, IsReached, AreReturning, AreSearched};

use crate::above::Places;
use std::alloc::{AllocError, Global};

#[tactic(auto, using(crate::proofs::Searched::mark_none))]
/// Marks a place. One that wasn't marked before is to be looked at.
fn mark(marks: &mut [bool], queue: &mut Vec<u32>, place: u32) -> Result<(), AllocError>
    requires { place < length marks.old }
    ensures { OnOk result (MarksAll marks.old queue.old.items (place ∷ []) marks.new queue.new.items) }
{
    if marks[place as usize] {
        return Ok(());
    }
    queue.push(place)?;
    marks[place as usize] = true;
    Ok(())
}

fn mark_all(marks: &mut [bool], queue: &mut Vec<u32>, places: &[u32]) -> Result<(), AllocError>
    requires { AreWithin (length marks.old) places.now }
    ensures { OnOk result (MarksAll marks.old queue.old.items places.now marks.new queue.new.items) }
{
    for place in places {
        mark(marks, queue, *place)?;
    }
    Ok(())
}

/// Marks the places that are reached from a place, where none is marked before.
fn search(
    alloc: Global,
    graph: &[Places],
    from: usize,
    marks: &mut [bool],
) -> Result<(), AllocError>
    requires graph { IsGraph graph.now }
    requires from { from < length graph.now }
    requires marks { marks.old ≡ replicate (length graph.now) false }
    ensures { OnOk result (IsReached graph.now from marks.new) }
{
    let mut queue = Vec::new(alloc);
    mark_all(marks, &mut queue, graph[from].as_slice())?;
    while let Some(place) = queue.pop() {
        mark_all(marks, &mut queue, graph[place as usize].as_slice())?;
    }
    Ok(())
}

/// Marks the places that are reached from a place.
pub(crate) fn reached(alloc: Global, graph: &[Places], from: usize) -> Result<Vec<bool>, AllocError>
    requires graph { IsGraph graph.now }
    requires from { from < length graph.now }
    ensures { IfOk result (λ marks. IsReached graph.now from marks.items) }
{
    let mut marks = vec![in alloc; false; graph.len()]?;
    search(alloc, graph, from, &mut marks)?;
    Ok(marks)
}

/// Marks the places that are reached from themselves.
pub(crate) fn returning(alloc: Global, graph: &[Places]) -> Result<Vec<bool>, AllocError>
    requires graph { IsGraph graph.now }
    ensures returning { IfOk result (λ marks. AreReturning graph.now (length graph.now) marks.items) }
    ensures searched { OnOk result (AreSearched graph.now (length graph.now)) }
{
    let mut returning = Vec::new(alloc);
    for place in 0..graph.len() {
        let marks = reached(alloc, graph, place)?;
        returning.push(marks[place])?;
    }
    Ok(returning)
}
