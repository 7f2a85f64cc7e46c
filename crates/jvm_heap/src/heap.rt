//! The heap.

ghost use Rattle.std.specs.Prelude.{◌≡◌, suc, ◌+◌, ◌<◌, ◌≤◌, nat_le, IfSome, IsSome, Some, length, sum_by};
ghost use Rattle.std.specs.Option.{option_copied};
ghost use Rattle.jvm_heap.specs.Objects.{cells_of};
ghost use Rattle.jvm_heap.specs.Heaps.{empty, most_cells, object_at, allocated, slot_at, with_slot};
ghost use Rattle.jvm_heap.specs.Changes.{Makes};

use crate::fault::HeapFault;
use crate::object::Object;
use crate::slot::Slot;
use crate::units::Units;
use std::alloc::Global;
use std::collections::BTreeMap;
use std::marker::Model;

/// The most cells of a heap.
const MOST_CELLS: u64 = 4_194_304;

/// The objects of a body, and those that are kept of string constants and of small boxes. What can't be made for the
/// limit of cells is refused before memory is asked for.
#[derive(Drop)]
pub struct Heap {
    pub(crate) objects: Vec<Object>,
    pub(crate) cells: u64,
    pub(crate) texts: BTreeMap<Units, u32>,
    pub(crate) ints: BTreeMap<i32, u32>,
    pub(crate) longs: BTreeMap<i64, u32>,
    pub(crate) booleans: BTreeMap<bool, u32>,
}

impl Model for Heap {
    ghost use Rattle.std.specs.Prelude.{◌≡◌, ◌≤◌, length, sum_by};
    ghost use Rattle.class_model.specs.declared.identifiers.ClassId.{ClassId};
    ghost use Rattle.class_model.specs.declared.identifiers.SiteId.{SiteId};
    ghost use Rattle.jvm_heap.specs.Objects.{cells_of};
    ghost use Rattle.jvm_heap.specs.Heaps as heaps;

    ghost Value = { heaps.Heap ClassId SiteId };

    ghost view = { λ h. record {
      objects = h.objects.items;
      cells = h.cells;
      texts = h.texts.entries;
      ints = h.ints.entries;
      longs = h.longs.entries;
      booleans = h.booleans.entries;
    } };

    ghost invariant = { λ h. (h.cells ≡ sum_by cells_of h.objects.items)
        × (h.cells ≤ heaps.most_cells)
        × (length h.objects.items ≤ h.cells) };
}

impl Heap {
    pub fn new(alloc: Global) -> Heap
        ensures { result ≡ empty }
    {
        Heap {
            objects: Vec::new(alloc),
            cells: 0,
            texts: BTreeMap::new(alloc),
            ints: BTreeMap::new(alloc),
            longs: BTreeMap::new(alloc),
            booleans: BTreeMap::new(alloc),
        }
    }

    /// The cells of all objects together.
    pub fn cells(&self) -> u64
        ensures value { result ≡ self.now.cells }
        ensures sum { self.now.cells ≡ sum_by cells_of self.now.objects }
        ensures within { self.now.cells ≤ most_cells }
        ensures few_objects { length self.now.objects ≤ self.now.cells }
    {
        self.cells
    }

    /// How many objects there are.
    pub fn count(&self) -> u32
        ensures value { result ≡ length self.now.objects }
        ensures within { result ≤ most_cells }
    {
        self.objects.len() as u32
    }

    /// The allocator that its objects are made with.
    pub fn allocator(&self) -> Global {
        *self.objects.allocator()
    }

    pub(crate) fn has_room(&self, more: u64) -> bool
        ensures { result ≡ nat_le (self.now.cells + more) most_cells }
    {
        more <= MOST_CELLS - self.cells
    }

    /// The object of a number. `None` for null and for a number that no object has.
    pub fn object(&self, number: u32) -> Option<&Object>
        ensures value { option_copied result ≡ object_at number self.now }
        ensures within { IfSome (option_copied result) (λ o. cells_of o ≤ most_cells) }
        ensures few { IsSome result → number ≤ most_cells }
    {
        if number == 0 {
            return None;
        }
        let at = number as usize - 1;
        if at < self.objects.len() {
            Some(&self.objects[at])
        } else {
            None
        }
    }

    /// Puts an object into the heap and gives its number.
    #[tactic(auto, unfolding(crate::specs::Heaps::allocated))]
    pub fn allocate(&mut self, object: Object) -> Result<u32, HeapFault>
        ensures { Makes (allocated object self.old) result self.old self.new }
    {
        let more = object.cells();
        if !self.has_room(more) {
            return Err(HeapFault::Full);
        }
        self.objects.push(object)?;
        self.cells += more;
        Ok(self.objects.len() as u32)
    }

    /// A field, an element or a captured value. It takes no memory.
    #[tactic(auto, unfolding(crate::specs::Heaps::slot_at))]
    pub fn get(&self, object: u32, field: u32) -> Slot
        requires { IsSome (slot_at object field self.now) }
        ensures { slot_at object field self.now ≡ Some result }
    {
        match self.object(object) {
            Some(found) => found.slots()[field as usize],
            None => Slot::Top,
        }
    }

    // The place of an object in the list of all.
    pub(crate) fn place(&self, number: u32) -> usize
        requires { IsSome (object_at number self.now) }
        ensures next { number ≡ suc result }
        ensures within { result < length self.now.objects }
    {
        number as usize - 1
    }

    /// Writes a field, an element or a captured value. It takes no memory.
    #[tactic(auto, unfolding(crate::specs::Heaps::slot_at))]
    pub fn set(&mut self, object: u32, field: u32, slot: Slot)
        requires { IsSome (slot_at object field self.old) }
        ensures { with_slot object field slot self.old ≡ Some self.new }
    {
        let at = self.place(object);
        self.objects[at].set_slot(field as usize, slot);
    }
}
