//! The steps of a script, and what it ends with.

ghost use Rattle.std.specs.Prelude.{◌≡◌};
ghost use Rattle.mill_top.specs.declared.replay_steps.ReplayFault.TheVariants.{Memory};

use crate::reply::Reply;
use crate::takes::Takes;
use io_traits::{IoFault, MemSink, MemStore, MemWorkspace};
use std::alloc::AllocError;
use tree_value::{Bytes, CopyFault, Lines, Path, Sequence, Vars};

/// A step of a script.
#[derive(Debug, Drop)]
pub enum ReplayStep {
    /// The file of the workspace has these bytes from now on, or is gone.
    Edit(Path, Option<Bytes>),
    /// The name is lost from the folder of results.
    Lose(Path),
    /// A command is run.
    Run {
        words: Lines,
        environment: Vars,
        moment: u64,
    },
}

/// Why a script ended before its end.
#[derive(Clone, Copy, Debug, PartialEq, Eq)]
pub enum ReplayFault {
    /// Memory was wanted and not there.
    Memory,
}

impl From<AllocError> for ReplayFault {
    ghost from_gives = { λ _ fault. fault ≡ Memory };

    fn from(_error: AllocError) -> ReplayFault {
        ReplayFault::Memory
    }
}

impl From<CopyFault> for ReplayFault {
    ghost from_gives = { λ _ fault. fault ≡ Memory };

    fn from(_fault: CopyFault) -> ReplayFault {
        ReplayFault::Memory
    }
}

impl From<IoFault> for ReplayFault {
    ghost from_gives = { λ _ fault. fault ≡ Memory };

    fn from(_fault: IoFault) -> ReplayFault {
        ReplayFault::Memory
    }
}

/// What a command was answered: the reply, the status that it ended with, and the sink that it was given.
#[derive(Drop)]
pub struct Answered {
    pub reply: Reply,
    pub status: u8,
    pub sink: MemSink,
}

impl Answered {
    /// The lines that were shown, each with its line feed.
    pub fn lines(&self) -> &[u8]
        ensures { result.now ≡ self.now.sink.bytes.items }
    {
        self.sink.as_slice()
    }
}

/// Answers to commands, in the order of the commands.
pub type Replies = Sequence<Answered>;

/// What the commands took, in the order of the commands.
pub type TakesOfRuns = Sequence<Takes>;

/// What a script ends with: the devices, the takes of each command that was run, and the answer to each command, where
/// every step was made.
#[derive(Drop)]
pub struct Replayed {
    pub store: MemStore,
    pub workspace: MemWorkspace,
    pub takes: TakesOfRuns,
    pub end: Result<Replies, ReplayFault>,
}
