//! Post-order: depth first, each place after what its edges lead to.

ghost use Rattle.std.specs.Prelude.{◌≡◌, ◌<◌, ℕ, length, IfOk, OnOk, IsTrue};
ghost use Rattle.place_graph.specs.Graphs.{AreWithin, IsGraph, with_place};
ghost use Rattle.place_graph.specs.Closing.{IsMarking};
ghost use Rattle.task_graph.specs.PostOrders.{EndsWithin, AllEndWithin, IsClosedUnder, with_walk, with_walks, post_order};

use place_graph::Places;
use sqlite_items::Items;
use std::alloc::{AllocError, Global};

/// The mark of a place that was found.
pub(crate) const FOUND: usize = 1;

/// Adds a place, unless it was found.
#[tactic(auto, using(place_graph::proofs::Marks::found_before, place_graph::proofs::Marks::added, place_graph::proofs::Marks::marked_now))]
pub(crate) fn add(marks: &mut [usize], found: &mut Places, place: u32) -> Result<(), AllocError>
    requires place { place < length marks.old }
    requires marking { IsMarking marks.old 1 found.old }
    ensures found { OnOk result (found.new ≡ with_place found.old place) }
    ensures marking { OnOk result (IsMarking marks.new 1 found.new) }
{
    if marks[place as usize] == FOUND {
        return Ok(());
    }
    found.push(place)?;
    marks[place as usize] = FOUND;
    Ok(())
}

/// Adds what a place leads to and then the place. No path from it has more places than `depth`.
#[cycle(visit)]
fn visit(
    graph: &[Places],
    depth: usize,
    marks: &mut [usize],
    found: &mut Places,
    place: u32,
) -> Result<(), AllocError>
    requires graph { IsGraph graph.now }
    requires place { place < length graph.now }
    requires ends { EndsWithin graph.now depth place }
    requires all { length marks.old ≡ length graph.now }
    requires marking { IsMarking marks.old 1 found.old }
    requires closed { IsClosedUnder graph.now found.old }
    ensures found { OnOk result (found.new ≡ with_walk depth graph.now found.old place) }
    ensures marking { OnOk result (IsMarking marks.new 1 found.new) }
    ensures closed { OnOk result (IsClosedUnder graph.now found.new) }
{
    if marks[place as usize] == FOUND {
        return Ok(());
    }
    let next = graph[place as usize].as_slice();
    visit_all(graph, depth - 1, marks, found, next)?;
    add(marks, found, place)
}

/// The same for places one after another.
#[cycle(visit)]
fn visit_all(
    graph: &[Places],
    depth: usize,
    marks: &mut [usize],
    found: &mut Places,
    places: &[u32],
) -> Result<(), AllocError>
    requires graph { IsGraph graph.now }
    requires places { AreWithin (length graph.now) places.now }
    requires end { AllEndWithin graph.now depth places.now }
    requires all { length marks.old ≡ length graph.now }
    requires marking { IsMarking marks.old 1 found.old }
    requires closed { IsClosedUnder graph.now found.old }
    ensures found { OnOk result (found.new ≡ with_walks depth graph.now found.old places.now) }
    ensures marking { OnOk result (IsMarking marks.new 1 found.new) }
    ensures closed { OnOk result (IsClosedUnder graph.now found.new) }
{
    for place in places {
        visit(graph, depth, marks, found, *place)?;
    }
    Ok(())
}

/// The post-order from places, where no path has more places than the graph. The time is that of a walk over the places
/// that are found and their edges, beside a mark for each place.
pub(crate) fn post_order_of(
    alloc: Global,
    graph: &[Places],
    places: &[u32],
) -> Result<Places, AllocError>
    requires graph { IsGraph graph.now }
    requires places { AreWithin (length graph.now) places.now }
    requires end { AllEndWithin graph.now (length graph.now) places.now }
    ensures { IfOk result (λ found. found ≡ post_order graph.now places.now) }
{
    let mut marks = vec![in alloc; 0usize; graph.len()]?;
    let mut found = Items::new(alloc);
    visit_all(graph, graph.len(), &mut marks, &mut found, places)?;
    Ok(found)
}
