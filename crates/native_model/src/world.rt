//! The world of a body.

ghost use Rattle.std.specs.Prelude.{◌≡◌, ◌<◌, Ok, IfSome, IsSome, length};
ghost use Rattle.std.specs.Option.{option_copied};
ghost use Rattle.native_model.specs.Worlds.{seen, as_text, as_int, as_long, as_boolean, as_builder, as_iterator};
ghost use Rattle.native_model.specs.Plain.{name_of, ordinal_of, message_of, cause_of, throwable_made, enum_made};
ghost use Rattle.jvm_heap.specs.Heaps.{most_cells, box_of_boolean};
ghost use Rattle.native_model.specs.Answers.{gives_text, gives_made};
ghost use Rattle.native_model.specs.Numbers.{int_box, long_box};
ghost use Rattle.native_model.specs.Ends.{named_world, builder_enlarged, Answers};

use crate::dest::Dest;
use crate::fault::StepFault;
use crate::log::Log;
use crate::making::{end_of_growing, end_of_making, put_text};
use crate::naming::Naming;
use crate::native_end::NativeEnd;
use crate::seen::{
    boolean_in, builder_in, cause_in, int_in, iterator_in, long_in, message_in, name_in,
    ordinal_in, text_in,
};
use crate::surround::Surround;
use crate::throw::Throw;
use jvm_heap::{Heap, Slot, Units};
use std::alloc::Global;
use std::marker::Model;
use tree_value::Text;

/// All that natives read and change. Its objects tell classes and sites by place, and contracts see them by name.
#[derive(Drop)]
pub struct World<N: Naming> {
    pub(crate) names: N,
    pub(crate) heap: Heap,
    pub(crate) dest: Dest,
    pub(crate) log: Log,
    pub(crate) surround: Option<Surround>,
    pub(crate) owner: Option<Text>,
}

impl<N: Naming> Model for World<N> {
    ghost use Rattle.native_model.specs.Worlds as worlds;
    ghost use Rattle.native_model.specs.Ends.{named_world};

    ghost Value = { worlds.Placed N };

    ghost view = { λ w. record {
      names = w.names;
      world = named_world (N.class_name w.names) (N.site_origin w.names)
          w.heap w.dest w.log w.surround w.owner;
    } };
}

impl<N: Naming> World<N> {
    /// The world in which a body begins, or goes on.
    pub fn new(
        names: N,
        heap: Heap,
        dest: Dest,
        log: Log,
        surround: Option<Surround>,
        owner: Option<Text>,
    ) -> World<N>
        ensures { result ≡ record {
          names = names;
          world = named_world (N.class_name names) (N.site_origin names)
              heap dest log surround owner;
        } }
    {
        World {
            names,
            heap,
            dest,
            log,
            surround,
            owner,
        }
    }

    /// The units of a text.
    pub fn text(&self, number: u32) -> Option<&[u16]>
        ensures units { option_copied result ≡ seen as_text number self.now.world }
        ensures few { IfSome (option_copied result) (λ units. length units < most_cells) }
    {
        match self.heap.object(number) {
            Some(object) => text_in(object),
            None => None,
        }
    }

    /// The units of a builder.
    pub fn builder(&self, number: u32) -> Option<&[u16]>
        ensures units { option_copied result ≡ seen as_builder number self.now.world }
        ensures few { IfSome (option_copied result) (λ units. length units < most_cells) }
    {
        match self.heap.object(number) {
            Some(object) => builder_in(object),
            None => None,
        }
    }

    /// The number of an Integer.
    pub fn int(&self, number: u32) -> Option<i32>
        ensures { result ≡ seen as_int number self.now.world }
    {
        match self.heap.object(number) {
            Some(object) => int_in(object),
            None => None,
        }
    }

    /// The number of a Long.
    pub fn long(&self, number: u32) -> Option<i64>
        ensures { result ≡ seen as_long number self.now.world }
    {
        match self.heap.object(number) {
            Some(object) => long_in(object),
            None => None,
        }
    }

    /// The truth of a Boolean.
    pub fn boolean(&self, number: u32) -> Option<bool>
        ensures { result ≡ seen as_boolean number self.now.world }
    {
        match self.heap.object(number) {
            Some(object) => boolean_in(object),
            None => None,
        }
    }

    /// The list of an iterator, and the place of its next element.
    pub fn iterator(&self, number: u32) -> Option<(u32, u32)>
        ensures { result ≡ seen as_iterator number self.now.world }
    {
        match self.heap.object(number) {
            Some(object) => iterator_in(object),
            None => None,
        }
    }

    /// The name of an enum.
    pub fn enum_name(&self, number: u32) -> Option<u32>
        ensures { result ≡ seen name_of number self.now.world }
    {
        match self.heap.object(number) {
            Some(object) => name_in(object),
            None => None,
        }
    }

    /// The ordinal of an enum.
    pub fn enum_ordinal(&self, number: u32) -> Option<i32>
        ensures { result ≡ seen ordinal_of number self.now.world }
    {
        match self.heap.object(number) {
            Some(object) => ordinal_in(object),
            None => None,
        }
    }

    /// The message of a throwable; 0 where it has none.
    pub fn message(&self, number: u32) -> Option<u32>
        ensures { result ≡ seen message_of number self.now.world }
    {
        match self.heap.object(number) {
            Some(object) => message_in(object),
            None => None,
        }
    }

    /// The cause of a throwable; 0 where it has none.
    pub fn cause(&self, number: u32) -> Option<u32>
        ensures { result ≡ seen cause_of number self.now.world }
    {
        match self.heap.object(number) {
            Some(object) => cause_in(object),
            None => None,
        }
    }

    /// The allocator that its objects are made with.
    pub fn allocator(&self) -> Global {
        self.heap.allocator()
    }

    /// A new text.
    pub fn give_text(&mut self, units: Units) -> Result<NativeEnd, StepFault>
        ensures { Answers (gives_text units self.old.world) result self.old self.new }
    {
        let made = put_text(&mut self.heap, units);
        end_of_making(made)
    }

    /// The box of an int.
    pub fn give_int_box(&mut self, value: i32) -> Result<NativeEnd, StepFault>
        ensures { Answers (int_box value self.old.world) result self.old self.new }
    {
        let made = self.heap.box_of_int(value);
        end_of_making(made)
    }

    /// The box of a long.
    pub fn give_long_box(&mut self, value: i64) -> Result<NativeEnd, StepFault>
        ensures { Answers (long_box value self.old.world) result self.old self.new }
    {
        let made = self.heap.box_of_long(value);
        end_of_making(made)
    }

    /// The box of a truth.
    pub fn give_boolean_box(&mut self, value: bool) -> Result<NativeEnd, StepFault>
        ensures { Answers (gives_made self.old.world (box_of_boolean value self.old.world.heap)) result self.old self.new }
    {
        let made = self.heap.box_of_boolean(value);
        end_of_making(made)
    }

    fn grow_builder(
        &mut self,
        number: u32,
        more: &[u16],
        slot: Option<Slot>,
    ) -> Result<NativeEnd, StepFault>
        requires { IsSome (seen as_builder number self.old.world) }
        ensures { Answers (builder_enlarged slot number more.now self.old.world) result self.old self.new }
    {
        let grown = self.heap.append(number, more);
        end_of_growing(slot, grown)
    }

    /// Puts units behind those of a builder, and gives a value or none.
    pub fn append(
        &mut self,
        number: u32,
        more: &[u16],
        slot: Option<Slot>,
    ) -> Result<NativeEnd, StepFault>
        ensures { Answers (builder_enlarged slot number more.now self.old.world) result self.old self.new }
    {
        match self.builder(number) {
            Some(_) => self.grow_builder(number, more, slot),
            None => Ok(NativeEnd::Throws(Throw::IncompatibleChange)),
        }
    }

    fn put_message(&mut self, number: u32, message: u32, cause: u32) -> NativeEnd
        requires { IsSome (seen message_of number self.old.world) }
        ensures { Answers (throwable_made number message cause self.old.world) (Ok result) self.old self.new }
    {
        self.heap.set_message(number, message, cause);
        NativeEnd::Gives(None)
    }

    fn put_name(&mut self, number: u32, name: u32, ordinal: i32) -> NativeEnd
        requires { IsSome (seen name_of number self.old.world) }
        ensures { Answers (enum_made number name ordinal self.old.world) (Ok result) self.old self.new }
    {
        self.heap.set_name(number, name, ordinal);
        NativeEnd::Gives(None)
    }

    /// Gives a throwable its message and its cause.
    pub fn set_message(&mut self, number: u32, message: u32, cause: u32) -> NativeEnd
        ensures { Answers (throwable_made number message cause self.old.world) (Ok result) self.old self.new }
    {
        match self.message(number) {
            Some(_) => self.put_message(number, message, cause),
            None => NativeEnd::Throws(Throw::IncompatibleChange),
        }
    }

    /// Gives an enum its name and its ordinal.
    pub fn set_name(&mut self, number: u32, name: u32, ordinal: i32) -> NativeEnd
        ensures { Answers (enum_made number name ordinal self.old.world) (Ok result) self.old self.new }
    {
        match self.enum_name(number) {
            Some(_) => self.put_name(number, name, ordinal),
            None => NativeEnd::Throws(Throw::IncompatibleChange),
        }
    }
}
