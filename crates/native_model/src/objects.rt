//! What the machine itself reads and changes in the world of a body.

ghost use Rattle.std.specs.Prelude.{◌≡◌, ◌≤◌, Some, IsSome, length, option_map};
ghost use Rattle.std.specs.Option.{option_copied};
ghost use Rattle.jvm_heap.specs.Heaps.{most_cells, object_at, slot_at, with_slot, allocated, constant_text, box_of_int, box_of_long, box_of_boolean};
ghost use Rattle.jvm_heap.specs.Changes.{Makes};
ghost use Rattle.jvm_heap.specs.Renaming.{renamed_object};
ghost use Rattle.native_model.specs.Worlds.{in_heap};

use crate::dest::Dest;
use crate::naming::Naming;
use crate::world::World;
use jvm_heap::{HeapFault, Object, Slot, Units};
use tree_value::Text;

impl<N: Naming> World<N> {
    /// What names its classes and sites.
    pub fn names(&self) -> &N
        ensures { result.now ≡ self.now.names }
    {
        &self.names
    }

    /// The files of the dest.
    pub fn dest(&self) -> &Dest
        ensures { result.now ≡ self.now.world.dest }
    {
        &self.dest
    }

    /// The lines of the log.
    pub fn log(&self) -> &[Text]
        ensures { result.now ≡ self.now.world.log }
    {
        self.log.lines()
    }

    /// How many objects there are.
    pub fn count(&self) -> u32
        ensures value { result ≡ length self.now.world.heap.objects }
        ensures within { result ≤ most_cells }
    {
        self.heap.count()
    }

    /// The object of a number. `None` for null and for a number that no object has.
    pub fn object(&self, number: u32) -> Option<&Object>
        ensures { option_map (renamed_object (N.class_name self.now.names)
            (N.site_origin self.now.names)) (option_copied result)
            ≡ object_at number self.now.world.heap }
    {
        self.heap.object(number)
    }

    /// Puts an object into the heap and gives its number.
    pub fn allocate(&mut self, object: Object) -> Result<u32, HeapFault>
        ensures makes { Makes (allocated (renamed_object (N.class_name self.old.names)
            (N.site_origin self.old.names) object) self.old.world.heap)
            result self.old.world.heap self.new.world.heap }
        ensures rest { self.new ≡ in_heap self.new.world.heap self.old }
    {
        self.heap.allocate(object)
    }

    /// The text of a string constant (JVMS 5.1), which is made at its first use.
    pub fn constant_text(&mut self, units: &Units) -> Result<u32, HeapFault>
        ensures makes { Makes (constant_text units.now self.old.world.heap)
            result self.old.world.heap self.new.world.heap }
        ensures rest { self.new ≡ in_heap self.new.world.heap self.old }
    {
        self.heap.constant_text(units)
    }

    /// The box that `Integer.valueOf` gives.
    pub fn box_of_int(&mut self, value: i32) -> Result<u32, HeapFault>
        ensures makes { Makes (box_of_int value self.old.world.heap)
            result self.old.world.heap self.new.world.heap }
        ensures rest { self.new ≡ in_heap self.new.world.heap self.old }
    {
        self.heap.box_of_int(value)
    }

    /// The box that `Long.valueOf` gives.
    pub fn box_of_long(&mut self, value: i64) -> Result<u32, HeapFault>
        ensures makes { Makes (box_of_long value self.old.world.heap)
            result self.old.world.heap self.new.world.heap }
        ensures rest { self.new ≡ in_heap self.new.world.heap self.old }
    {
        self.heap.box_of_long(value)
    }

    /// The box that `Boolean.valueOf` gives.
    pub fn box_of_boolean(&mut self, value: bool) -> Result<u32, HeapFault>
        ensures makes { Makes (box_of_boolean value self.old.world.heap)
            result self.old.world.heap self.new.world.heap }
        ensures rest { self.new ≡ in_heap self.new.world.heap self.old }
    {
        self.heap.box_of_boolean(value)
    }

    /// A field, an element or a captured value of an object. It takes no memory.
    pub fn slot(&self, object: u32, field: u32) -> Slot
        requires { IsSome (slot_at object field self.now.world.heap) }
        ensures { slot_at object field self.now.world.heap ≡ Some result }
    {
        self.heap.get(object, field)
    }

    /// Writes a field, an element or a captured value of an object. It takes no memory.
    pub fn set_slot(&mut self, object: u32, field: u32, slot: Slot)
        requires { IsSome (slot_at object field self.old.world.heap) }
        ensures written { with_slot object field slot self.old.world.heap ≡ Some self.new.world.heap }
        ensures rest { self.new ≡ in_heap self.new.world.heap self.old }
    {
        self.heap.set(object, field, slot);
    }
}
