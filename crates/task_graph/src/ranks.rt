//! Ranks of places, which tell in one walk that no path returns.

ghost use Rattle.std.specs.Prelude.{◌≡◌, ◌<◌, ◌≤◌, ◌^◌, ℕ, length, IfOk};
ghost use Rattle.std.specs.Bool.{OnTrue};
ghost use Rattle.place_graph.specs.Graphs.{AreWithin, IsGraph};
ghost use Rattle.task_graph.specs.Rankings.{IsRankedTo, AllRanked, EachIsRanked};

use place_graph::Places;
use std::alloc::{AllocError, Global};

fn are_ranked(ranks: &[usize], places: &[u32]) -> bool
    requires { AreWithin (length ranks.now) places.now }
    ensures { OnTrue result (AllRanked ranks.now places.now) }
{
    for place in places {
        if ranks[*place as usize] == 0 {
            return false;
        }
    }
    true
}

/// Whether each place has a rank.
pub(crate) fn each_is_ranked(ranks: &[usize]) -> bool
    ensures { OnTrue result (EachIsRanked ranks.now) }
{
    for place in 0..ranks.len() {
        if ranks[place] == 0 {
            return false;
        }
    }
    true
}

/// Ranks a place whose edges lead to ranked places alone. There are no more ranks than places.
fn settle(graph: &[Places], ranks: &mut [usize], most: usize, place: u32) -> usize
    requires graph { IsGraph graph.now }
    requires place { place < length graph.now }
    requires most { most ≤ length graph.now }
    requires ranks { IsRankedTo graph.now ranks.old most }
    ensures most { result ≤ length graph.now }
    ensures ranks { IsRankedTo graph.now ranks.new result }
{
    if most == graph.len() {
        return most;
    }
    if ranks[place as usize] > 0 {
        return most;
    }
    if !are_ranked(ranks, graph[place as usize].as_slice()) {
        return most;
    }
    ranks[place as usize] = most + 1;
    most + 1
}

/// Ranks what a place leads to, up to so many edges away, and then the place, if it was not entered before.
#[cycle(enter)]
fn enter(
    graph: &[Places],
    depth: usize,
    entered: &mut [bool],
    ranks: &mut [usize],
    most: usize,
    place: u32,
) -> usize
    requires graph { IsGraph graph.now }
    requires place { place < length graph.now }
    requires entered { length entered.old ≡ length graph.now }
    requires most { most ≤ length graph.now }
    requires ranks { IsRankedTo graph.now ranks.old most }
    ensures most { result ≤ length graph.now }
    ensures ranks { IsRankedTo graph.now ranks.new result }
{
    if depth == 0 {
        return most;
    }
    if entered[place as usize] {
        return most;
    }
    entered[place as usize] = true;
    let next = graph[place as usize].as_slice();
    let more = enter_all(graph, depth - 1, entered, ranks, most, next);
    settle(graph, ranks, more, place)
}

/// The same for places one after another.
#[cycle(enter)]
fn enter_all(
    graph: &[Places],
    depth: usize,
    entered: &mut [bool],
    ranks: &mut [usize],
    most: usize,
    places: &[u32],
) -> usize
    requires graph { IsGraph graph.now }
    requires places { AreWithin (length graph.now) places.now }
    requires entered { length entered.old ≡ length graph.now }
    requires most { most ≤ length graph.now }
    requires ranks { IsRankedTo graph.now ranks.old most }
    ensures most { result ≤ length graph.now }
    ensures ranks { IsRankedTo graph.now ranks.new result }
{
    let mut more = most;
    for place in places {
        more = enter(graph, depth, entered, ranks, more, *place);
    }
    more
}

/// Ranks all places from which no path returns. The time is that of a walk over all places and edges.
pub(crate) fn ranks_of(alloc: Global, graph: &[Places]) -> Result<Vec<usize>, AllocError>
    requires graph { IsGraph graph.now }
    requires few { length graph.now < 2 ^ 32 }
    ensures { IfOk result (λ ranks. (most : ℕ) × IsRankedTo graph.now ranks.items most) }
{
    let mut ranks = vec![in alloc; 0usize; graph.len()]?;
    let mut entered = vec![in alloc; false; graph.len()]?;
    let mut most = 0;
    for place in 0..graph.len() {
        most = enter(
            graph,
            graph.len(),
            &mut entered,
            &mut ranks,
            most,
            place as u32,
        );
    }
    Ok(ranks)
}
