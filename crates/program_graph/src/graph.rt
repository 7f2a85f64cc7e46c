//! The graph of a program.

ghost use Rattle.std.specs.Prelude.{◌≡◌, ◌≢◌, ◌≤◌, None, All, IfOk, IfErr, length};
ghost use Rattle.class_model.specs.Shape.{Shaped, IsMethod};
ghost use Rattle.task_graph.specs.declared.fault.GraphFault.TheVariants.{Memory};
ghost use Rattle.task_annotations.specs.Sites.{sites_of, limit_passed};
ghost use Rattle.task_annotations.specs.Reading.{sites_read};
ghost use Rattle.program_graph.specs.Tasks.{IsAccepted};
ghost use Rattle.program_graph.specs.Outcomes.{HaveDistinctNames, AreTasksOf, IsMethodFault, IsGraphOf, IsFaultOf};
ghost use Rattle.program_graph.specs.Reading.{tasks_read};

use crate::doubles::{refuse_double, sort_tasks};
use crate::methods::sort_sites;
use crate::rows::rows_of;
use crate::tasks::{Task, tasks_of};
use class_verify::ProgramOk;
use std::alloc::Global;
use task_annotations::{Site, limit_passed, sites_of};
use task_graph::{Graph, GraphFault};

/// The methods of a program that are to be tasks. Want of memory comes too where there are 2^32 classes or more.
fn program_sites<'a>(alloc: Global, program: &'a ProgramOk) -> Result<Vec<Site<'a>>, GraphFault>
    ensures sites { IfOk result (λ sites. sites_read sites.items ≡ sites_of program.now) }
    ensures shaped { IfOk result (λ sites. All (λ s. Shaped s.class × IsMethod s.class.pool s.method) (sites_read sites.items)) }
    ensures fault { IfErr result (λ fault. fault ≡ Memory) }
{
    let classes = program.program().classes();
    if classes.len() > u32::MAX as usize {
        return Err(GraphFault::Memory);
    }
    Ok(sites_of(alloc, classes)?)
}

/// The tasks of methods, in name order.
fn tasks_in_order<'a>(alloc: Global, mut sites: Vec<Site<'a>>) -> Result<Vec<Task<'a>>, GraphFault>
    requires within { limit_passed (sites_read sites.items) ≡ None }
    requires shaped { All (λ s. Shaped s.class × IsMethod s.class.pool s.method) (sites_read sites.items) }
    ensures tasks { IfOk result (λ tasks. AreTasksOf (sites_read sites.entry.items) (tasks_read tasks.items)) }
    ensures fault { IfErr result (λ fault. fault ≢ Memory → IsMethodFault (sites_read sites.entry.items) fault) }
{
    sort_sites(&mut sites)?;
    let mut tasks = tasks_of(alloc, &sites)?;
    sort_tasks(&mut tasks)?;
    Ok(tasks)
}

/// The graph of the methods that are to be tasks and pass no limit.
fn graph_of_sites(alloc: Global, sites: Vec<Site<'_>>) -> Result<Graph, GraphFault>
    requires within { limit_passed (sites_read sites.items) ≡ None }
    requires shaped { All (λ s. Shaped s.class × IsMethod s.class.pool s.method) (sites_read sites.items) }
    ensures ok { IfOk result (λ graph. IsGraphOf (sites_read sites.entry.items) graph) }
    ensures fault { IfErr result (λ fault. IsFaultOf (sites_read sites.entry.items) fault) }
{
    let tasks = tasks_in_order(alloc, sites)?;
    refuse_double(alloc, &tasks)?;
    match rows_of(alloc, &tasks) {
        Ok(rows) => Graph::of(alloc, rows),
        Err(fault) => Err(fault),
    }
}

/// The graph of the tasks that a program declares, in name order.
pub fn graph_of(alloc: Global, program: &ProgramOk) -> Result<Graph, GraphFault>
    ensures graph { IfOk result (λ graph. IsGraphOf (sites_of program.now) graph) }
    ensures fault { IfErr result (λ fault. IsFaultOf (sites_of program.now) fault) }
{
    let sites = program_sites(alloc, program)?;
    match limit_passed(&sites) {
        Some(limit) => Err(GraphFault::TooMany(limit)),
        None => graph_of_sites(alloc, sites),
    }
}
