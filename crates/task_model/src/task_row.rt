//! The rows of tasks.

ghost use Rattle.std.specs.Prelude.{◌≡◌, IfOk};

use class_model::MemberId;
use tree_value::{CopyFault, Path, Sequence, Text, TryCopy, ValueType};

/// What a task is.
#[derive(Clone, Copy, Debug, PartialEq, Eq, Drop)]
pub enum Kind {
    /// Its result is kept, and made anew where what it comes from has changed.
    Cached,
    /// A file or folder of the workspace. Its body never runs.
    Source,
    /// Its body may read what is outside the build, and runs each time.
    Input,
    /// It is run by its name with arguments, and no task has it as an input.
    Command,
    /// It has no result of its own: it is run with each named task that needs it.
    Anonymous,
}

/// A task by its place in a list of tasks, from 0.
#[derive(Clone, Copy, Debug, PartialEq, Eq, PartialOrd, Ord, Hash, Drop)]
pub struct TaskId {
    pub at: u32,
}

/// Tasks by their places.
pub type TaskIds = Sequence<TaskId>;

/// A task: its name, its method, its inputs in declared order, the path of a Source, the instructions that its body may
/// run, and the type of its result.
#[derive(Debug, Drop)]
pub struct TaskRow {
    pub name: Text,
    pub kind: Kind,
    pub method: MemberId,
    pub inputs: TaskIds,
    pub path: Option<Path>,
    pub budget: u32,
    pub result: ValueType,
}

/// The rows of tasks.
pub type TaskRows = Sequence<TaskRow>;

impl TryCopy for TaskId {
    fn try_copy(&self) -> Result<TaskId, CopyFault> {
        Ok(*self)
    }
}

fn copy_path(path: &Option<Path>) -> Result<Option<Path>, CopyFault>
    ensures { IfOk result (λ copy. copy ≡ path.now) }
{
    match path {
        None => Ok(None),
        Some(path) => Ok(Some(path.copy()?)),
    }
}

impl TaskRow {
    pub fn copy(&self) -> Result<TaskRow, CopyFault>
        ensures { IfOk result (λ copy. copy ≡ self.now) }
    {
        Ok(TaskRow {
            name: self.name.copy()?,
            kind: self.kind,
            method: self.method,
            inputs: self.inputs.copy()?,
            path: copy_path(&self.path)?,
            budget: self.budget,
            result: self.result,
        })
    }
}

impl TryCopy for TaskRow {
    fn try_copy(&self) -> Result<TaskRow, CopyFault> {
        self.copy()
    }
}
