//! What is told of a graph.

ghost use Rattle.std.specs.Prelude.{◌≡◌, ℕ, IfOk, length};
ghost use Rattle.place_graph.specs.Graphs.{IsGraph, Reaches, is_among, beyond};
ghost use Rattle.place_graph.specs.Told.{IsOrder};

use crate::above::{Places, close};
use crate::reach::returning;
use sqlite_items::Items;
use std::alloc::{AllocError, Global};

/// What a graph is like.
#[derive(Drop)]
pub enum Order {
    /// No path returns. What is beyond each place, depth first, each place once.
    Above(Items<Places>),
    /// Paths return. Those places are marked that are reached from themselves, at least one.
    Returning(Vec<bool>),
}

/// What is beyond each place, or where paths return. The edges of a place lead to places of the graph. The time is
/// that of the lists that it gives, times the longest path at worst; where paths return, that of a search from each
/// place.
pub fn order_of(alloc: Global, graph: &[Places]) -> Result<Order, AllocError>
    requires { IsGraph graph.now }
    ensures { IfOk result (λ order. IsOrder graph.now order) }
{
    let (above, known) = close(alloc, graph)?;
    if known == graph.len() {
        return Ok(Order::Above(above));
    }
    let marks = returning(alloc, graph)?;
    Ok(Order::Returning(marks))
}
