//! Lists, iterators and arrays in the world of a body.

ghost use Rattle.std.specs.Prelude.{◌≡◌, ◌<◌, ◌++◌, ◌∷◌, [], pos, Some, IfSome, IsSome, IsSomeAnd, length, option_map, slice_set};
ghost use Rattle.jvm_heap.specs.Objects.{listed, iterator};
ghost use Rattle.jvm_heap.specs.Heaps.{most_cells, allocated, replaced, grown};
ghost use Rattle.jvm_heap.specs.declared.slot.Slot.TheVariants.{Int};
ghost use Rattle.native_model.specs.Worlds.{seen, in_heap, as_list, as_iterator, as_array};
ghost use Rattle.native_model.specs.Answers.{gives_made, gives_within};
ghost use Rattle.native_model.specs.Lists.{gives_list};
ghost use Rattle.native_model.specs.Ends.{Answers};

use crate::fault::StepFault;
use crate::making::{end_of_growing, end_of_making, put_iterator, put_list};
use crate::naming::Naming;
use crate::native_end::NativeEnd;
use crate::seen::{array_in, list_in};
use crate::world::World;
use jvm_heap::Slot;

impl<N: Naming> World<N> {
    /// The class of a list, and its elements.
    pub fn list(&self, number: u32) -> Option<(&[u8], &[u32])>
        ensures list { option_map (λ l. (l.0.now, l.1.now)) result ≡ seen as_list number self.now.world }
        ensures few { IfSome result (λ l. length l.1.now < most_cells) }
    {
        match self.heap.object(number) {
            Some(object) => match list_in(object) {
                Some((class, elements)) => Some((self.names.name_of(class), elements)),
                None => None,
            },
            None => None,
        }
    }

    /// Writes an element of a list. It takes no memory.
    pub fn set_element(&mut self, list: u32, place: u32, element: u32)
        requires { IsSomeAnd (seen as_list list self.old.world) (λ l. place < length l.1) }
        ensures { IfSome (seen as_list list self.old.world) (λ l.
            self.new ≡ in_heap (replaced list (listed l.0 (slice_set l.1 place element)) self.old.world.heap)
            self.old) }
    {
        self.heap.set_element(list, place, element);
    }

    /// Puts an element at the end of a list, and gives true.
    pub fn add_element(&mut self, list: u32, element: u32) -> Result<NativeEnd, StepFault>
        requires { IsSome (seen as_list list self.old.world) }
        ensures { IfSome (seen as_list list self.old.world) (λ l.
            Answers (gives_within (Some (Int (pos 1))) self.old.world
            (grown list (listed l.0 (l.1 ++ element ∷ [])) 1 self.old.world.heap)) result self.old self.new) }
    {
        let grown = self.heap.add(list, element);
        end_of_growing(Some(Slot::Int(1)), grown)
    }

    /// A list that can't change.
    pub fn give_list(&mut self, elements: Vec<u32>) -> Result<NativeEnd, StepFault>
        ensures { Answers (gives_list elements.items self.old.world) result self.old self.new }
    {
        let class = self.names.fixed_list();
        let made = put_list(&mut self.heap, class, elements);
        end_of_making(made)
    }

    /// An iterator before the first element of a list.
    pub fn give_iterator(&mut self, list: u32) -> Result<NativeEnd, StepFault>
        ensures { Answers (gives_made self.old.world (allocated (iterator list 0) self.old.world.heap))
            result self.old self.new }
    {
        let made = put_iterator(&mut self.heap, list);
        end_of_making(made)
    }

    /// Puts an iterator before the element at a place. It takes no memory.
    pub fn set_next(&mut self, number: u32, next: u32)
        requires { IsSome (seen as_iterator number self.old.world) }
        ensures { IfSome (seen as_iterator number self.old.world) (λ it.
            self.new ≡ in_heap (replaced number (iterator it.0 next) self.old.world.heap) self.old) }
    {
        self.heap.set_next(number, next);
    }

    /// The elements of an array.
    pub fn array(&self, number: u32) -> Option<&[Slot]>
        ensures { option_map (λ slots. slots.now) result
            ≡ option_map (λ a. a.1) (seen as_array number self.now.world) }
    {
        match self.heap.object(number) {
            Some(object) => match array_in(object) {
                Some((_, elements)) => Some(elements),
                None => None,
            },
            None => None,
        }
    }
}
