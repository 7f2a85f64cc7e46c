//! Scripts of edits, losses and commands, over devices in memory.

ghost use Rattle.std.specs.Prelude.{◌≡◌, ◌≢◌, ◌<◌, ◌⊎◌, ◌∷◌, ◌++◌, [], vec_len, vec_capacity, IfOk, OnOk, OnErr, Ok, Err};
ghost use Rattle.io_traits.specs.Planned.{set_to};
ghost use Rattle.mill_top.specs.Replays.{IsReplay};
ghost use Rattle.mill_top.specs.Stages.{IsAsBefore, IsFirst, HasRun, HasRunTo, HasShown, Makes, MakesWhole};

use crate::replay_steps::{Answered, ReplayFault, ReplayStep, Replayed};
use crate::takes::Takes;
use crate::top::{Told, mill_one};
use io_traits::{MemSink, MemStore, MemWorkspace};
use std::alloc::Global;
use tree_value::{Bytes, Lines, Path, Sequence, Vars};

// The devices between two steps, and what the commands before took and were answered.
#[derive(Drop)]
struct Stage {
    store: MemStore,
    workspace: MemWorkspace,
    takes: Vec<Takes>,
    replies: Vec<Answered>,
}

fn edit(workspace: &mut MemWorkspace, path: &Path, bytes: &Option<Bytes>) -> Result<(), ReplayFault>
    ensures ok { OnOk result (workspace.new
        ≡ record workspace.old { contents = set_to path.now bytes.now workspace.old.contents }) }
    ensures err { OnErr result (workspace.new ≡ workspace.old) }
{
    let bytes = match bytes {
        Some(bytes) => Some(bytes.copy()?),
        None => None,
    };
    workspace.set(path, bytes)?;
    Ok(())
}

impl Stage {
    // A sink for a command, with room for what it takes and is answered.
    fn ready(&mut self, alloc: Global) -> Result<MemSink, ReplayFault>
        ensures rests { IsAsBefore self.old self.new }
        ensures takes_room { OnOk result (vec_len self.new.takes < vec_capacity self.new.takes) }
        ensures replies_room { OnOk result
            (vec_len self.new.replies < vec_capacity self.new.replies) }
        ensures sink { IfOk result IsFirst }
    {
        self.takes.reserve(1)?;
        self.replies.reserve(1)?;
        let nothing = Bytes::from_vec(Vec::new(alloc));
        Ok(MemSink::new(alloc, nothing, Vec::new(alloc))?)
    }

    // Runs a command, and gives its status.
    fn command(
        self,
        alloc: Global,
        words: &Lines,
        environment: &Vars,
        moment: u64,
        sink: MemSink,
    ) -> (Stage, u8)
        requires takes_room { vec_len self.takes < vec_capacity self.takes }
        requires replies_room { vec_len self.replies < vec_capacity self.replies }
        requires sink { IsFirst sink }
        ensures { HasRunTo result.1 words.now environment.now moment self result.0 }
    {
        let Stage {
            store,
            workspace,
            mut takes,
            mut replies,
        } = self;
        let told = mill_one(
            alloc,
            words.as_slice(),
            environment.as_slice(),
            moment,
            store,
            workspace,
            sink,
        );
        let Told {
            status,
            reply,
            takes: taken,
            inputs: _,
            store,
            workspace,
            sink,
        } = told;
        takes.push_reserved(taken);
        replies.push_reserved(Answered {
            reply,
            status,
            sink,
        });
        let stage = Stage {
            store,
            workspace,
            takes,
            replies,
        };
        (stage, status)
    }

    fn run(
        mut self,
        alloc: Global,
        words: &Lines,
        environment: &Vars,
        moment: u64,
    ) -> (Stage, Result<(), ReplayFault>)
        ensures ok { OnOk result.1 (HasShown words.now environment.now moment self result.0) }
        ensures err { OnErr result.1 (IsAsBefore self result.0
            ⊎ HasRun words.now environment.now moment self result.0) }
    {
        match self.ready(alloc) {
            Ok(sink) => {
                let (stage, status) = self.command(alloc, words, environment, moment, sink);
                (stage, shown(status))
            }
            Err(fault) => (self, Err(fault)),
        }
    }

    // Makes a step, or leaves all as it was; a command that was run but not shown is made too.
    fn make(mut self, alloc: Global, step: &ReplayStep) -> (Stage, Result<(), ReplayFault>)
        ensures ok { OnOk result.1 (MakesWhole step.now self result.0) }
        ensures err { OnErr result.1 (IsAsBefore self result.0 ⊎ Makes step.now self result.0) }
    {
        match step {
            ReplayStep::Edit(path, bytes) => {
                let end = edit(&mut self.workspace, path, bytes);
                (self, end)
            }
            ReplayStep::Lose(name) => {
                self.store.lose(name);
                (self, Ok(()))
            }
            ReplayStep::Run {
                words,
                environment,
                moment,
            } => self.run(alloc, words, environment, *moment),
        }
    }

    // All steps were made.
    fn whole(self) -> Replayed
        ensures { result ≡ record {
          store = self.store;
          workspace = self.workspace;
          takes = self.takes.items;
          end = Ok self.replies.items;
        } }
    {
        Replayed {
            store: self.store,
            workspace: self.workspace,
            takes: Sequence::from_vec(self.takes),
            end: Ok(Sequence::from_vec(self.replies)),
        }
    }

    // The script ends here.
    fn broken(self, fault: ReplayFault) -> Replayed
        ensures { result ≡ record {
          store = self.store;
          workspace = self.workspace;
          takes = self.takes.items;
          end = Err fault;
        } }
    {
        Replayed {
            store: self.store,
            workspace: self.workspace,
            takes: Sequence::from_vec(self.takes),
            end: Err(fault),
        }
    }
}

// A sink in memory fails only where memory is wanted.
fn shown(status: u8) -> Result<(), ReplayFault>
    ensures { OnOk result (status ≢ 7) }
{
    if status == 7 {
        Err(ReplayFault::Memory)
    } else {
        Ok(())
    }
}

/// Makes the steps of a script one after another over these devices.
///
/// An edit sets the bytes of a file of the workspace or takes the file away, a loss takes a name out of the folder of
/// results, and a command runs by `mill_one` with a sink of its own. A reply that says that memory was wanted is a
/// reply like others. The script ends before its end where memory is wanted for a step, or for what a command shows.
pub fn replay(
    alloc: Global,
    script: &[ReplayStep],
    store: MemStore,
    workspace: MemWorkspace,
) -> Replayed
    ensures { IsReplay script.now store workspace result }
{
    let mut stage = Stage {
        store,
        workspace,
        takes: Vec::new(alloc),
        replies: Vec::new(alloc),
    };
    for step in script {
        let (next, end) = stage.make(alloc, step);
        stage = next;
        if let Err(fault) = end {
            return stage.broken(fault);
        }
    }
    stage.whole()
}
