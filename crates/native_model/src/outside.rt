//! What natives of files, of the log and of the environment read and change.

ghost use Rattle.std.specs.Prelude.{◌≡◌, ◌++◌, ◌∷◌, [], Ok, option_map};
ghost use Rattle.std.specs.Option.{option_copied};
ghost use Rattle.std.specs.FinMap.Entries as entries;
ghost use Rattle.tree_value.specs.Trees.{path_cmp};
ghost use Rattle.jvm_heap.specs.Objects.{path_reference};
ghost use Rattle.jvm_heap.specs.Heaps.{allocated};
ghost use Rattle.native_model.specs.Worlds.{seen, as_reference};
ghost use Rattle.native_model.specs.Answers.{gives_made};
ghost use Rattle.native_model.specs.Outside.{dest_put, logged};
ghost use Rattle.native_model.specs.Ends.{reference_of, Answers};

use crate::budget::Budget;
use crate::fault::StepFault;
use crate::making::{end_of_making, end_of_putting, put_reference};
use crate::naming::Naming;
use crate::native_end::NativeEnd;
use crate::place::Place;
use crate::seen::reference_in;
use crate::surround::Surround;
use crate::world::World;
use jvm_heap::PathReference;
use sqlite_items::Boxed;
use tree_value::{Bytes, Path, Text};

impl<N: Naming> World<N> {
    /// The task whose dest it is. An anonymous one has none.
    pub fn owner(&self) -> Option<&Text>
        ensures { option_copied result ≡ self.now.world.owner }
    {
        self.owner.as_ref()
    }

    /// What Input and Command bodies may read.
    pub fn surround(&self) -> Option<&Surround>
        ensures { option_copied result ≡ self.now.world.surround }
    {
        self.surround.as_ref()
    }

    /// A reference to a tree.
    pub fn reference(&self, number: u32) -> Option<&PathReference>
        ensures { option_map (λ r. reference_of r.now) result
            ≡ seen as_reference number self.now.world }
    {
        match self.heap.object(number) {
            Some(object) => reference_in(object),
            None => None,
        }
    }

    /// A new reference to a tree.
    pub fn give_reference(
        &mut self,
        reference: Boxed<PathReference>,
    ) -> Result<NativeEnd, StepFault>
        ensures { Answers (gives_made self.old.world
            (allocated (path_reference reference.owner reference.path) self.old.world.heap))
            result self.old self.new }
    {
        let made = put_reference(&mut self.heap, reference);
        end_of_making(made)
    }

    /// Puts a file into the dest, where the bytes of all files suffice.
    pub fn put_file(&mut self, path: Path, content: Bytes) -> Result<NativeEnd, StepFault>
        ensures { Answers (dest_put (entries.put path_cmp path content self.old.world.dest)
            self.old.world) result self.old self.new }
    {
        let put = self.dest.put(Place::from_vec(path.into_vec()), content);
        end_of_putting(put, Budget::Dest)
    }

    /// Puts a line behind those of the log, where the bytes of all lines suffice.
    pub fn put_line(&mut self, line: Text) -> Result<NativeEnd, StepFault>
        ensures { Answers (logged (self.old.world.log ++ line ∷ []) self.old.world)
            result self.old self.new }
    {
        let put = self.log.put(line);
        end_of_putting(put, Budget::Log)
    }
}
