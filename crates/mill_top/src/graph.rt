//! The task graph of a build.

ghost use Rattle.std.specs.Prelude.{◌≡◌, find, is_some, slice_index_or, ◌⊎◌, ◌++◌, ◌==◌, ◌<◌, map, nat_le, count_by, Some, None, IfOk, IfErr, OnOk, MatchOption, IsSome};
ghost use Rattle.mill_top.specs.Tables.{placed};
ghost use Rattle.mill_top.specs.Graphs.{letters, file_with, graph_of, named, build_graph, duplicate_task, unknown_input_of, unknown_input, leads, cycle, refusal_of_graph, refusal_of_tasks, refusal_of_build, upstream, plan_in, IsRefusalUnlessMemory};

use crate::build_fault::BuildFault;
use crate::builds::{first_out_of_place, task_files};
use crate::small_file::is_task_letter;
use crate::task_file::{Body, TaskFile};
use std::alloc::{AllocError, Global};
use std::marker::Model;
use tree_value::{Bytes, Path, Text};

/// The names that a task may have.
pub const LETTERS: [u8; 26] = *b"abcdefghijklmnopqrstuvwxyz";

/// The tasks of a build in name order, and a table of them by letter.
#[derive(Debug, Drop)]
pub struct Graph {
    tasks: Vec<TaskFile>,
    table: Vec<Option<TaskFile>>,
}

impl Model for Graph {
    ghost use Rattle.std.specs.Prelude.{List};
    ghost use Rattle.mill_top.specs.declared.task_file.TaskFile.{TaskFile};
    ghost use Rattle.mill_top.specs.Tables.{IsTable};

    ghost Value = { List TaskFile };

    ghost view = { λ graph. graph.tasks.items };

    ghost invariant = { λ graph. IsTable graph.tasks.items graph.table.items };
}

fn file_with(files: &[TaskFile], task: u8) -> Option<TaskFile>
    ensures { result ≡ file_with files.now task }
{
    files.iter().copied().find(|file| file.task == task)
}

fn is_twice(files: &[TaskFile], task: u8) -> bool
    ensures { result ≡ nat_le 2 (count_by (λ file. file.task == task) files.now) }
{
    files.iter().filter(|file| file.task == task).count() >= 2
}

// The least task that two files have.
#[tactic(auto, unfolding(crate::specs::Graphs::duplicate_task))]
fn duplicate_task(files: &[TaskFile]) -> Option<u8>
    ensures { result ≡ duplicate_task files.now }
{
    LETTERS.iter().copied().find(|task| is_twice(files, *task))
}

// The file of each letter.
fn table_of(alloc: Global, files: &[TaskFile]) -> Result<Vec<Option<TaskFile>>, AllocError>
    ensures { IfOk result (λ table. table.items ≡ map (file_with files.now) letters) }
{
    LETTERS
        .iter()
        .map(|task| file_with(files, *task))
        .collect(alloc)
}

fn placed(alloc: Global, table: &[Option<TaskFile>]) -> Result<Vec<TaskFile>, AllocError>
    ensures { IfOk result (λ files. files.items ≡ placed table.now) }
{
    table.iter().filter_map(|place| *place).collect(alloc)
}

fn file_at(table: &[Option<TaskFile>], place: usize) -> Option<TaskFile>
    ensures { result ≡ slice_index_or table.now place None }
{
    if place < table.len() {
        table[place]
    } else {
        None
    }
}

impl Graph {
    // The graph of the tasks of these files.
    #[tactic(auto, unfolding(crate::specs::Graphs::graph_of))]
    fn of(alloc: Global, files: &[TaskFile]) -> Result<Graph, AllocError>
        ensures { IfOk result (λ graph. graph ≡ graph_of files.now) }
    {
        let table = table_of(alloc, files)?;
        let tasks = placed(alloc, table.as_slice())?;
        Ok(Graph { tasks, table })
    }

    /// The file that has the task.
    pub fn file_with(&self, task: u8) -> Option<TaskFile>
        ensures { result ≡ file_with self.now task }
    {
        let table = self.table.as_slice();
        if task < b'a' {
            None
        } else {
            file_at(table, usize::from(task - b'a'))
        }
    }

    /// The file of the task of this name.
    pub fn named(&self, task: &Text) -> Option<TaskFile>
        ensures { result ≡ named self.now task.now }
    {
        match task.as_slice() {
            [task] => self.file_with(*task),
            _ => None,
        }
    }

    #[tactic(auto, unfolding(crate::specs::Graphs::unknown_input_of))]
    fn unknown_input_of(&self, file: TaskFile) -> Option<BuildFault>
        ensures { result ≡ unknown_input_of self.now file }
    {
        match file.body {
            Body::Linked { input, .. } if self.file_with(input).is_none() => {
                Some(BuildFault::UnknownInput {
                    input,
                    task: file.task,
                })
            }
            _ => None,
        }
    }

    #[tactic(auto, unfolding(crate::specs::Graphs::unknown_input_of))]
    fn has_unknown_input(&self, file: TaskFile) -> bool
        ensures { result ≡ is_some (unknown_input_of self.now file) }
    {
        match file.body {
            Body::Linked { input, .. } => self.file_with(input).is_none(),
            Body::Constant(_) => false,
        }
    }

    // The first task, in name order, with an input that the graph doesn't have.
    fn with_unknown_input(&self) -> Option<TaskFile>
        ensures { result ≡ find (λ file. is_some (unknown_input_of self.now file)) self.now }
    {
        self.tasks
            .iter()
            .copied()
            .find(|file| self.has_unknown_input(*file))
    }

    // Its first such input.
    #[tactic(auto, unfolding(crate::specs::Graphs::unknown_input))]
    fn unknown_input(&self) -> Option<BuildFault>
        ensures { result ≡ unknown_input self.now }
    {
        self.unknown_input_of(self.with_unknown_input()?)
    }

    // Whether one to `steps` steps from a task to its input lead from this task to the goal.
    fn leads(&self, steps: usize, task: u8, goal: u8) -> bool
        ensures { result ≡ leads steps self.now task goal }
    {
        if steps == 0 {
            return false;
        }
        let Some(file) = self.file_with(task) else {
            return false;
        };
        match file.body {
            Body::Constant(_) => false,
            Body::Linked { input, .. } => input == goal || self.leads(steps - 1, input, goal),
        }
    }

    // The least task from which inputs lead back to it.
    #[tactic(auto, unfolding(crate::specs::Graphs::cycle))]
    fn cycle(&self) -> Option<u8>
        ensures { result ≡ cycle self.now }
    {
        let steps = self.tasks.len();
        let file = self
            .tasks
            .iter()
            .find(|file| self.leads(steps, file.task, file.task))?;
        Some(file.task)
    }

    // Why the build is refused, if its tasks are distinct.
    fn refusal(&self) -> Option<BuildFault>
        ensures { result ≡ refusal_of_graph self.now }
    {
        match self.unknown_input() {
            Some(fault) => Some(fault),
            None => Some(BuildFault::Cycle(self.cycle()?)),
        }
    }

    // Adds the tasks upstream of the task, each behind its inputs, and then the task itself.
    fn push_upstream(
        &self,
        plan: &mut Vec<TaskFile>,
        steps: usize,
        task: u8,
    ) -> Result<(), AllocError>
        ensures { OnOk result (plan.new.items ≡ plan.old.items ++ upstream steps self.now task) }
    {
        if steps == 0 {
            return Ok(());
        }
        if let Some(file) = self.file_with(task) {
            match file.body {
                Body::Constant(_) => {}
                Body::Linked { input, .. } => self.push_upstream(plan, steps - 1, input)?,
            }
            plan.push(file)?;
        }
        Ok(())
    }

    /// The plan of a task: the tasks that lead to it by inputs, each behind its input, and the task itself; or `None`
    /// where the graph has no such task.
    #[tactic(auto, unfolding(crate::specs::Graphs::plan_in))]
    pub fn plan(&self, alloc: Global, task: &Text) -> Result<Option<Vec<TaskFile>>, AllocError>
        ensures { IfOk result (λ plan. MatchOption plan (named self.now task.now ≡ None)
            (λ plan. IsSome (named self.now task.now) × (plan.items ≡ plan_in self.now task.now))) }
    {
        match task.as_slice() {
            [task] if self.file_with(*task).is_some() => {
                let mut plan = Vec::new(alloc);
                self.push_upstream(&mut plan, self.tasks.len(), *task)?;
                Ok(Some(plan))
            }
            _ => Ok(None),
        }
    }
}

// The graph of the tasks of all class files.
fn graph_of_tasks(alloc: Global, files: &[TaskFile]) -> Result<Graph, BuildFault>
    ensures accepted { OnOk result (refusal_of_tasks files.now ≡ None) }
    ensures graph { IfOk result (λ graph. graph ≡ graph_of files.now) }
    ensures refused { IfErr result (IsRefusalUnlessMemory (refusal_of_tasks files.now)) }
{
    if let Some(task) = duplicate_task(files) {
        return Err(BuildFault::DuplicateTask(task));
    }
    let graph = Graph::of(alloc, files)?;
    match graph.refusal() {
        Some(fault) => Err(fault),
        None => Ok(graph),
    }
}

/// The task graph of the class files, or why they have none: a class file that is none that is read so far or isn't the
/// one of its class, the first in their order; the least task that two files have; an unknown input, of the least task
/// that has one; the least task on a cycle; in this order.
pub fn graph_of(alloc: Global, files: &[(Path, Bytes)]) -> Result<Graph, BuildFault>
    ensures accepted { OnOk result (refusal_of_build files.now ≡ None) }
    ensures graph { IfOk result (λ graph. graph ≡ build_graph files.now) }
    ensures refused { IfErr result (IsRefusalUnlessMemory (refusal_of_build files.now)) }
{
    if let Some(file) = first_out_of_place(files) {
        return Err(BuildFault::NotBuilt(file.0.copy()?));
    }
    let tasks = task_files(alloc, files)?;
    graph_of_tasks(alloc, tasks.as_slice())
}
