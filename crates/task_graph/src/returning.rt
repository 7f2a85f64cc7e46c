//! Whether a path of a graph returns.

ghost use Rattle.std.specs.Prelude.{◌<◌, ◌^◌, length, IfOk};
ghost use Rattle.place_graph.specs.Graphs.{IsGraph};
ghost use Rattle.task_graph.specs.Returning.{IsFoundReturning};

use crate::ranks::{each_is_ranked, ranks_of};
use place_graph::{Order, Places, order_of};
use std::alloc::{AllocError, Global};

/// The least place from which a path returns, where there may be one.
fn search(alloc: Global, graph: &[Places]) -> Result<Option<usize>, AllocError>
    requires { IsGraph graph.now }
    ensures { IfOk result (λ found. IsFoundReturning graph.now found) }
{
    match order_of(alloc, graph)? {
        Order::Above(_) => Ok(None),
        Order::Returning(marks) => Ok(marks.iter().position(|mark| *mark)),
    }
}

/// The least place from which a path returns, if there is one. Where there is none, the time is that of a walk over all
/// places and edges, else that of `order_of`.
pub(crate) fn least_returning(alloc: Global, graph: &[Places]) -> Result<Option<usize>, AllocError>
    requires graph { IsGraph graph.now }
    requires few { length graph.now < 2 ^ 32 }
    ensures { IfOk result (λ found. IsFoundReturning graph.now found) }
{
    let ranks = ranks_of(alloc, graph)?;
    if each_is_ranked(&ranks) {
        return Ok(None);
    }
    search(alloc, graph)
}
