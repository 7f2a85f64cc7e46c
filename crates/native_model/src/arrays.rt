//! Arrays in the world of a body, as they are copied and made.

ghost use Rattle.std.specs.Prelude.{◌≡◌, ◌<◌, IfOk, IfSome, length, option_map};
ghost use Rattle.jvm_heap.specs.Contents.{kind_of};
ghost use Rattle.jvm_heap.specs.Heaps.{most_cells, allocated, fresh_array};
ghost use Rattle.jvm_heap.specs.Changes.{Makes};
ghost use Rattle.jvm_heap.specs.Objects.{array};
ghost use Rattle.jvm_heap.specs.Renaming.{renamed_kind};
ghost use Rattle.native_model.specs.Worlds.{seen, as_array, in_heap};
ghost use Rattle.native_model.specs.Answers.{gives_made};
ghost use Rattle.native_model.specs.Ends.{Answers};

use crate::fault::StepFault;
use crate::making::{end_of_making, put_array};
use crate::naming::Naming;
use crate::native_end::NativeEnd;
use crate::seen::array_in;
use crate::world::World;
use jvm_heap::{ArrayKind, HeapFault, Slot, Slots};

impl<N: Naming> World<N> {
    /// The kind of an array, and its elements.
    pub fn array_parts(&self, number: u32) -> Option<(ArrayKind, &[Slot])>
        ensures parts { option_map (λ a. (renamed_kind (N.class_name self.now.names) (kind_of a.0), a.1.now)) result
            ≡ seen as_array number self.now.world }
        ensures few { IfSome result (λ a. length a.1.now < most_cells) }
    {
        match self.heap.object(number) {
            Some(object) => array_in(object),
            None => None,
        }
    }

    /// A new array of elements.
    pub fn give_array(&mut self, kind: ArrayKind, elements: Slots) -> Result<NativeEnd, StepFault>
        ensures { Answers (gives_made self.old.world
            (allocated (array (renamed_kind (N.class_name self.old.names) (kind_of kind)) elements)
            self.old.world.heap)) result self.old self.new }
    {
        let made = put_array(&mut self.heap, kind, elements);
        end_of_making(made)
    }

    /// Puts an array of so many elements into the heap, each with the default value, and gives its number.
    pub fn make_array(&mut self, kind: ArrayKind, length: u32) -> Result<u32, HeapFault>
        ensures makes { Makes (allocated (fresh_array (renamed_kind (N.class_name self.old.names)
            (kind_of kind)) length) self.old.world.heap)
            result self.old.world.heap self.new.world.heap }
        ensures rest { self.new ≡ in_heap self.new.world.heap self.old }
    {
        self.heap.alloc_array(kind, length)
    }
}
