//! The reply to a command.

ghost use Rattle.std.specs.Prelude.{◌≡◌, ◌++◌, IfOk};
ghost use Rattle.mill_top.specs.Replies.{status, line};

use crate::build_fault::BuildFault;
use std::alloc::{AllocError, Global};
use tree_value::Text;

/// What a command is answered.
#[derive(Debug, Drop)]
pub enum Reply {
    /// The task's value.
    Value(i32),
    /// The words aren't those that are read so far.
    WordsNotBuilt,
    /// The build is refused.
    Build(BuildFault),
    /// The build has no such task.
    NoTask(Text),
    /// The folder of results failed.
    StoreFault,
    /// The workspace failed.
    WorkspaceFault,
    /// Memory was wanted and not there.
    Memory,
}

fn joined(alloc: Global, front: &[u8], back: &[u8]) -> Result<Vec<u8>, AllocError>
    ensures { IfOk result (λ text. text.items ≡ front.now ++ back.now) }
{
    let mut text = Vec::from_slice(alloc, front)?;
    text.extend_from_slice(back)?;
    Ok(text)
}

impl Reply {
    /// The status that the process ends with.
    pub fn status(&self) -> u8
        ensures { result ≡ status self.now }
    {
        match self {
            Reply::Value(_) => 0,
            Reply::WordsNotBuilt | Reply::NoTask(_) => 2,
            Reply::Build(_) => 3,
            Reply::StoreFault => 4,
            Reply::WorkspaceFault => 5,
            Reply::Memory => 6,
        }
    }

    /// The reply's line, without a line feed.
    pub fn line(&self, alloc: Global) -> Result<Vec<u8>, AllocError>
        ensures { IfOk result (λ text. text.items ≡ line self.now) }
    {
        match self {
            Reply::Value(value) => joined(alloc, b"", value.to_string(alloc)?.as_bytes()),
            Reply::WordsNotBuilt => joined(alloc, b"not built: words", b""),
            Reply::Build(fault) => fault.line(alloc),
            Reply::NoTask(task) => joined(alloc, b"no task: ", task.as_slice()),
            Reply::StoreFault => joined(alloc, b"store fault", b""),
            Reply::WorkspaceFault => joined(alloc, b"workspace fault", b""),
            Reply::Memory => joined(alloc, b"memory", b""),
        }
    }
}
