//! What is beyond each place of a graph without cycles: depth first, each place once.

ghost use Rattle.std.specs.Prelude.{◌≡◌, ℕ, ◌+◌, ◌<◌, ◌≤◌, [], length, slice_index, All, List, OnOk, IfOk, MatchBool, IsTrue, replicate};
ghost use Rattle.std.specs.Bool.{OnTrue};
ghost use Rattle.place_graph.specs.Graphs.{edges_of, is_among, AreWithin, IsGraph, with_place, with_places};
ghost use Rattle.place_graph.specs.Closing.{IsMarking, gathered, IsFull, IsListed, IsClosing, IsFresh, StaysAt, IsWaiting, AllWait};

use sqlite_items::Items;
use std::alloc::{AllocError, Global};

/// The places to which the edges of one place lead, or what is beyond it.
pub type Places = Items<u32>;

/// Adds a place, unless its mark says that it was found in this round.
#[tactic(auto, using(crate::proofs::Marks::found_before, crate::proofs::Marks::marked_now))]
fn add_place(
    found: &mut Places,
    marks: &mut [usize],
    round: usize,
    place: u32,
) -> Result<(), AllocError>
    requires place { place < length marks.old }
    requires marking { IsMarking marks.old round found.old }
    ensures found { OnOk result (found.new ≡ with_place found.old place) }
    ensures marking { OnOk result (IsMarking marks.new round found.new) }
{
    if marks[place as usize] == round {
        return Ok(());
    }
    found.push(place)?;
    marks[place as usize] = round;
    Ok(())
}

fn add_places(
    found: &mut Places,
    marks: &mut [usize],
    round: usize,
    places: &[u32],
) -> Result<(), AllocError>
    requires places { AreWithin (length marks.old) places.now }
    requires marking { IsMarking marks.old round found.old }
    ensures found { OnOk result (found.new ≡ with_places found.old places.now) }
    ensures marking { OnOk result (IsMarking marks.new round found.new) }
{
    for place in places {
        add_place(found, marks, round, *place)?;
    }
    Ok(())
}

fn all_found(marks: &[usize], round: usize, places: &[u32]) -> bool
    requires { AreWithin (length marks.now) places.now }
    ensures { OnTrue result ((x : ℕ) → IsTrue (is_among x places.now) → slice_index marks.now x ≡ round) }
{
    for place in places {
        if marks[*place as usize] != round {
            return false;
        }
    }
    true
}

/// Adds a place, and what is beyond it. That was all found before, if its edges lead to places that were found.
fn add_reached(
    graph: &[Places],
    above: &[Places],
    found: &mut Places,
    marks: &mut [usize],
    round: usize,
    place: u32,
) -> Result<(), AllocError>
    requires graph { IsGraph graph.now }
    requires all { length marks.old ≡ length graph.now }
    requires rows { length above.now ≡ length graph.now }
    requires above { All (AreWithin (length graph.now)) above.now }
    requires place { place < length graph.now }
    requires listed { IsListed graph.now above.now place }
    requires marking { IsMarking marks.old round found.old }
    requires full { IsFull graph.now found.old }
    ensures found { OnOk result (found.new ≡ with_places (with_place found.old place) (edges_of above.now place)) }
    ensures marking { OnOk result (IsMarking marks.new round found.new) }
    ensures full { OnOk result (IsFull graph.now found.new) }
{
    if all_found(marks, round, graph[place as usize].as_slice()) {
        return add_place(found, marks, round, place);
    }
    add_place(found, marks, round, place)?;
    add_places(found, marks, round, above[place as usize].as_slice())
}

/// Each of the places, and after it what is beyond it.
fn gather(
    alloc: Global,
    graph: &[Places],
    above: &[Places],
    marks: &mut [usize],
    round: usize,
    places: &[u32],
) -> Result<Places, AllocError>
    requires graph { IsGraph graph.now }
    requires all { length marks.old ≡ length graph.now }
    requires rows { length above.now ≡ length graph.now }
    requires above { All (AreWithin (length graph.now)) above.now }
    requires places { AreWithin (length graph.now) places.now }
    requires listed { (x : ℕ) → IsTrue (is_among x places.now) → IsListed graph.now above.now x }
    requires marking { IsMarking marks.old round [] }
    ensures found { IfOk result (λ found. found ≡ gathered above.now [] places.now) }
    ensures marking { IfOk result (λ found. IsMarking marks.new round found) }
{
    let mut found = Items::new(alloc);
    for place in places {
        add_reached(graph, above, &mut found, marks, round, *place)?;
    }
    Items::from_slice(alloc, found.as_slice())
}

fn all_known(ranks: &[usize], places: &[u32]) -> bool
    requires { AreWithin (length ranks.now) places.now }
    ensures { MatchBool result ((x : ℕ) → IsTrue (is_among x places.now) → 0 < slice_index ranks.now x)
        ((x : ℕ) × IsTrue (is_among x places.now) × (slice_index ranks.now x ≡ 0)) }
{
    for place in places {
        if ranks[*place as usize] == 0 {
            return false;
        }
    }
    true
}

/// Makes a place known, if its edges lead to known places alone. Gives how many places are known then.
fn settle(
    alloc: Global,
    graph: &[Places],
    above: &mut Items<Places>,
    ranks: &mut [usize],
    marks: &mut [usize],
    known: usize,
    place: usize,
) -> Result<usize, AllocError>
    requires graph { IsGraph graph.now }
    requires place { place < length graph.now }
    requires marks { IsFresh (length graph.now) marks.old known }
    requires closing { IsClosing graph.now above.old ranks.old known }
    ensures closing { IfOk result (λ known. IsClosing graph.now above.new ranks.new known) }
    ensures marks { IfOk result (λ known. IsFresh (length graph.now) marks.new known) }
    ensures more { IfOk result (λ more. known ≤ more) }
    ensures same { IfOk result (λ more. more ≡ known → StaysAt graph.now ranks.old ranks.new place) }
{
    if ranks[place] > 0 {
        return Ok(known);
    }
    if !all_known(ranks, graph[place].as_slice()) {
        return Ok(known);
    }
    let round = known + 1;
    let found = gather(
        alloc,
        graph,
        above.as_slice(),
        marks,
        round,
        graph[place].as_slice(),
    )?;
    above.set(place, found);
    ranks[place] = round;
    Ok(round)
}

/// One pass over all places.
fn settle_all(
    alloc: Global,
    graph: &[Places],
    above: &mut Items<Places>,
    ranks: &mut [usize],
    marks: &mut [usize],
    known: usize,
) -> Result<usize, AllocError>
    requires graph { IsGraph graph.now }
    requires marks { IsFresh (length graph.now) marks.old known }
    requires closing { IsClosing graph.now above.old ranks.old known }
    ensures closing { IfOk result (λ known. IsClosing graph.now above.new ranks.new known) }
    ensures marks { IfOk result (λ known. IsFresh (length graph.now) marks.new known) }
    ensures more { IfOk result (λ more. known ≤ more) }
    ensures wait { IfOk result (λ more. more ≡ known → AllWait graph.now ranks.new (length graph.now)) }
{
    let mut more = known;
    for place in 0..graph.len() {
        more = settle(alloc, graph, above, ranks, marks, more, place)?;
    }
    Ok(more)
}

/// Passes over all places until no further place becomes known.
fn settle_until_all_wait(
    alloc: Global,
    graph: &[Places],
    above: &mut Items<Places>,
    ranks: &mut [usize],
    marks: &mut [usize],
) -> Result<usize, AllocError>
    requires graph { IsGraph graph.now }
    requires marks { IsFresh (length graph.now) marks.old 0 }
    requires closing { IsClosing graph.now above.old ranks.old 0 }
    ensures closing { IfOk result (λ known. IsClosing graph.now above.new ranks.new known) }
    ensures wait { OnOk result (AllWait graph.now ranks.new (length graph.now)) }
{
    let mut known = 0;
    loop {
        let more = settle_all(alloc, graph, above, ranks, marks, known)?;
        if more == known {
            return Ok(known);
        }
        known = more;
    }
}

/// As many empty lists of places.
fn empty_rows(alloc: Global, count: usize) -> Result<Items<Places>, AllocError>
    ensures { IfOk result (λ rows. rows ≡ replicate count []) }
{
    let mut rows = Items::new(alloc);
    for _ in 0..count {
        rows.push(Items::new(alloc))?;
    }
    Ok(rows)
}

/// What is beyond each place, as far as it becomes known, and how many places are known.
pub(crate) fn close(alloc: Global, graph: &[Places]) -> Result<(Items<Places>, usize), AllocError>
    requires { IsGraph graph.now }
    ensures { IfOk result (λ found. (ranks : List ℕ) × IsClosing graph.now found.0 ranks found.1 × AllWait graph.now ranks (length graph.now)) }
{
    let mut above = empty_rows(alloc, graph.len())?;
    let mut ranks = vec![in alloc; 0usize; graph.len()]?;
    let mut marks = vec![in alloc; 0usize; graph.len()]?;
    let known = settle_until_all_wait(alloc, graph, &mut above, &mut ranks, &mut marks)?;
    Ok((above, known))
}
