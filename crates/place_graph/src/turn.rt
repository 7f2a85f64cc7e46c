//! The places that lead to a place, by the graph with its edges turned.

ghost use Rattle.std.specs.Prelude.{◌≡◌, ℕ, ◌<◌, ◌^◌, [], ◌∷◌, length, OnOk, IfOk, replicate};
ghost use Rattle.place_graph.specs.Graphs.{AreWithin, IsGraph};
ghost use Rattle.place_graph.specs.Searches.{IsReached, IsReaching};
ghost use Rattle.place_graph.specs.Turning.{AddsEdges, IsTurned};

use crate::above::Places;
use crate::reach::reached;
use sqlite_items::Items;
use std::alloc::{AllocError, Global};

/// Adds an edge from a place to another.
fn add_edge(rows: &mut [Places], from: u32, to: u32) -> Result<(), AllocError>
    requires { from < length rows.old }
    ensures { OnOk result (AddsEdges rows.old to (from ∷ []) rows.new) }
{
    rows[from as usize].push(to)
}

/// Adds an edge from each of the places to one.
fn add_edges(rows: &mut [Places], to: u32, places: &[u32]) -> Result<(), AllocError>
    requires { AreWithin (length rows.old) places.now }
    ensures { OnOk result (AddsEdges rows.old to places.now rows.new) }
{
    for place in places {
        add_edge(rows, *place, to)?;
    }
    Ok(())
}

/// As many empty lists of places.
fn bare_rows(alloc: Global, count: usize) -> Result<Vec<Places>, AllocError>
    ensures { IfOk result (λ rows. rows.items ≡ replicate count []) }
{
    let mut rows = Vec::new(alloc);
    for _ in 0..count {
        rows.push(Items::new(alloc))?;
    }
    Ok(rows)
}

/// The graph with each edge turned.
fn turned(alloc: Global, graph: &[Places]) -> Result<Vec<Places>, AllocError>
    requires graph { IsGraph graph.now }
    requires few { length graph.now < 2 ^ 32 }
    ensures { IfOk result (λ rows. IsTurned graph.now (length graph.now) rows.items) }
{
    let mut rows = bare_rows(alloc, graph.len())?;
    for place in 0..graph.len() {
        add_edges(&mut rows, place as u32, graph[place].as_slice())?;
    }
    Ok(rows)
}

/// Marks the places from which a place is reached. The time is that of a walk over all places and edges.
pub fn reaching(alloc: Global, graph: &[Places], to: usize) -> Result<Vec<bool>, AllocError>
    requires graph { IsGraph graph.now }
    requires few { length graph.now < 2 ^ 32 }
    requires to { to < length graph.now }
    ensures { IfOk result (λ marks. IsReaching graph.now to marks.items) }
{
    let rows = turned(alloc, graph)?;
    let marks = reached(alloc, &rows, to)?;
    Ok(marks)
}
