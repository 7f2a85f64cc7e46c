//! What is done once all is read.

ghost use Rattle.native_model.specs.Ends.{Answers};
ghost use Rattle.os_natives.specs.Plans.{planned};

use jvm_heap::{PathReference, Units};
use native_model::{Naming, NativeEnd, StepFault, World};
use sqlite_items::Boxed;
use tree_value::{Bytes, Path, Text};

/// What a native does once it has read all that it needs.
#[derive(Drop)]
pub(crate) enum Plan {
    Ends(NativeEnd),
    GivesText(Units),
    /// The owner of a tree, and a path there.
    GivesReference(Text, Path),
    PutsFile(Path, Bytes),
    PutsLine(Text),
}

/// Does what is planned.
pub(crate) fn carry_out<N: Naming>(plan: Plan, world: &mut World<N>) -> Result<NativeEnd, StepFault>
    ensures { Answers (planned plan world.old.world) result world.old world.new }
{
    match plan {
        Plan::Ends(end) => Ok(end),
        Plan::GivesText(units) => world.give_text(units),
        Plan::GivesReference(owner, path) => {
            let reference = Boxed::new(world.allocator(), PathReference { owner, path })?;
            world.give_reference(reference)
        }
        Plan::PutsFile(path, content) => world.put_file(path, content),
        Plan::PutsLine(line) => world.put_line(line),
    }
}
