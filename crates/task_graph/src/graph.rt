//! Graphs of tasks.

ghost use Rattle.std.specs.Prelude.{◌≡◌, ◌<◌, length, IfOk, IfErr, OnOk, IsOkUnless};
ghost use Rattle.task_graph.specs.Returning.{NoneReturns, IsFoundReturning};
ghost use Rattle.task_graph.specs.TaskGraphs.{edges, anonymous_edges, name_at, IsDrawn, IsTaskGraph};
ghost use Rattle.task_graph.specs.GraphFaults.{IsCycleFault};

use crate::edges::{anonymous_edges_of, edges_of};
use crate::fault::GraphFault;
use crate::returning::least_returning;
use place_graph::Places;
use sqlite_items::Items;
use std::alloc::Global;
use std::marker::Model;
use task_model::{TaskRow, TaskRows};
use tree_value::Text;

/// Tasks in name order, whose inputs are tasks of the list and lead back to none.
#[derive(Drop)]
pub struct Graph {
    tasks: TaskRows,
    inputs: Items<Places>,
    anonymous: Items<Places>,
}

impl Model for Graph {
    ghost use Rattle.std.specs.Prelude.{◌≡◌, List};
    ghost use Rattle.std.specs.Coded.{coded_list};
    ghost use Rattle.task_model.specs.declared.task_row.TaskRow.{TaskRow};
    ghost use Rattle.task_model.specs.contracts.task_row.TaskRow as row_type;
    ghost use Rattle.task_graph.specs.TaskGraphs.{edges, anonymous_edges, IsTaskGraph};

    ghost Value = { List TaskRow };

    ghost coded = { coded_list row_type.the_row.coded };

    ghost view = { λ graph. graph.tasks };

    ghost invariant = { λ graph. IsTaskGraph graph.tasks × (graph.inputs ≡ edges graph.tasks)
        × (graph.anonymous ≡ anonymous_edges graph.tasks) };
}

/// The name of the task at a place, which is one.
fn name_of(rows: &[TaskRow], place: usize) -> Result<Text, GraphFault>
    requires { place < length rows.now }
    ensures memory { IsOkUnless result GraphFault.Memory }
    ensures name { IfOk result (λ name. name ≡ name_at rows.now place) }
{
    Ok(rows[place].name.copy()?)
}

fn refuse_cycle(rows: &[TaskRow], least: Option<usize>) -> Result<(), GraphFault>
    requires { IsFoundReturning (edges rows.now) least }
    ensures ok { OnOk result (NoneReturns (edges rows.now)) }
    ensures fault { IfErr result (λ fault. IsCycleFault rows.now fault) }
{
    match least {
        None => Ok(()),
        Some(place) => Err(GraphFault::Cycle(name_of(rows, place)?)),
    }
}

impl Graph {
    /// The graph of tasks that are in name order. `Cycle` comes exactly where inputs lead back to a task, and names the
    /// least such task, unless memory runs out.
    pub fn of(alloc: Global, tasks: TaskRows) -> Result<Graph, GraphFault>
        requires { IsDrawn tasks }
        ensures ok { IfOk result (λ graph. graph ≡ tasks) }
        ensures no_cycle { OnOk result (NoneReturns (edges tasks)) }
        ensures fault { IfErr result (λ fault. IsCycleFault tasks fault) }
    {
        let inputs = edges_of(alloc, tasks.as_slice())?;
        let least = least_returning(alloc, inputs.as_slice())?;
        refuse_cycle(tasks.as_slice(), least)?;
        let anonymous = anonymous_edges_of(alloc, tasks.as_slice())?;
        Ok(Graph {
            tasks,
            inputs,
            anonymous,
        })
    }

    /// Its tasks, in name order.
    pub fn tasks(&self) -> &[TaskRow]
        ensures tasks { result.now ≡ self.now }
        ensures graph { IsTaskGraph self.now }
    {
        self.tasks.as_slice()
    }

    /// For each task the places of its inputs.
    pub(crate) fn edges(&self) -> &[Places]
        ensures edges { result.now ≡ edges self.now }
        ensures graph { IsTaskGraph self.now }
    {
        self.inputs.as_slice()
    }

    /// For each task those of its inputs that are anonymous.
    pub(crate) fn anonymous_edges(&self) -> &[Places]
        ensures edges { result.now ≡ anonymous_edges self.now }
        ensures graph { IsTaskGraph self.now }
    {
        self.anonymous.as_slice()
    }
}
