//! Slots of objects, where there are such.

ghost use Rattle.std.specs.Prelude.{◌≡◌, Some, None, if◌then◌else◌};
ghost use Rattle.jvm_heap.specs.Heaps.{slot_at, with_slot};
ghost use Rattle.native_model.specs.Worlds.{in_heap};

use crate::naming::Naming;
use crate::world::World;
use jvm_heap::{Heap, Slot};

#[tactic(auto, unfolding(jvm_heap::specs::Heaps::slot_at))]
fn slot_in(heap: &Heap, object: u32, field: u32) -> Option<Slot>
    ensures { result ≡ slot_at object field heap.now }
{
    match heap.object(object) {
        Some(found) => match found.slots().get(field as usize) {
            Some(slot) => Some(*slot),
            None => None,
        },
        None => None,
    }
}

#[tactic(auto, using(crate::proofs::Parts::unwritten))]
fn set_in(heap: &mut Heap, object: u32, field: u32, slot: Slot) -> bool
    ensures { with_slot object field slot heap.old ≡ (if result then Some heap.new else None) }
{
    match slot_in(heap, object, field) {
        Some(_) => {
            heap.set(object, field, slot);
            true
        }
        None => false,
    }
}

impl<N: Naming> World<N> {
    /// A field, an element or a captured value of an object, where there is one.
    pub fn find_slot(&self, object: u32, field: u32) -> Option<Slot>
        ensures { result ≡ slot_at object field self.now.world.heap }
    {
        slot_in(&self.heap, object, field)
    }

    /// Writes a field, an element or a captured value of an object, where there is one. It takes no memory.
    pub fn write_slot(&mut self, object: u32, field: u32, slot: Slot) -> bool
        ensures written { with_slot object field slot self.old.world.heap
            ≡ (if result then Some self.new.world.heap else None) }
        ensures rest { self.new ≡ in_heap self.new.world.heap self.old }
    {
        set_in(&mut self.heap, object, field, slot)
    }
}
