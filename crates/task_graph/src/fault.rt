//! Why tasks have no graph.

ghost use Rattle.std.specs.Prelude.{◌≡◌};
ghost use Rattle.task_graph.specs.declared.fault.GraphFault.TheVariants.{Memory};

use class_model::MethodId;
use std::alloc::AllocError;
use thiserror::Error;
use tree_value::{CopyFault, Text};

/// What a build may not have more of.
#[derive(Clone, Copy, Debug, PartialEq, Eq, Drop)]
pub enum Limit {
    /// The tasks of a build, of which there are at most 4,096.
    Tasks,
    /// The inputs of a task, of which there are at most 64.
    Inputs,
}

/// Why tasks have no graph.
#[derive(Debug, Drop, Error)]
pub enum GraphFault {
    #[error("there are too many")]
    TooMany(Limit),
    /// This method and its annotation by themselves break a rule.
    #[error("a task breaks a rule")]
    BadTask(MethodId),
    #[error("a task is of a kind that is not supported")]
    UnsupportedKind { task: Text, kind: Text },
    /// Two tasks have this name.
    #[error("a task comes twice")]
    DuplicateTask(Text),
    #[error("no task has the name of an input")]
    UnknownInput { input: Text, task: Text },
    #[error("an input is a command")]
    CommandInput { input: Text, task: Text },
    /// The parameter for the input has another type than its result.
    #[error("a parameter has another type than its input")]
    TypeMismatch { input: Text, task: Text },
    /// The inputs of the task of this name lead back to it.
    #[error("a task is upstream of itself")]
    Cycle(Text),
    #[error("out of memory")]
    Memory,
}

impl From<AllocError> for GraphFault {
    ghost from_gives = { λ _ fault. fault ≡ Memory };

    fn from(_error: AllocError) -> GraphFault {
        GraphFault::Memory
    }
}

impl From<CopyFault> for GraphFault {
    ghost from_gives = { λ _ fault. fault ≡ Memory };

    fn from(_fault: CopyFault) -> GraphFault {
        GraphFault::Memory
    }
}
