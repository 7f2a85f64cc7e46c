//! Lists of slots.

ghost use Rattle.std.specs.Prelude.{◌≡◌, ◌<◌, length, slice_get, slice_set, Some, IfOk, OnOk, OnErr, replicate, ◌^◌};

use crate::slot::Slot;
use std::alloc::{AllocError, Global};
use std::marker::Model;
use tree_value::CopyFault;

/// A list of slots: the locals of a frame, or the fields, elements or captured values of an object.
#[derive(Drop)]
pub struct Slots {
    items: Vec<Slot>,
}

impl Model for Slots {
    ghost use Rattle.std.specs.Prelude.{List};
    ghost use Rattle.jvm_heap.specs.declared.slot.Slot.{Slot};

    ghost Value = { List Slot };

    ghost view = { λ slots. slots.items.items };
}

impl Slots {
    pub fn from_vec(items: Vec<Slot>) -> Slots
        ensures { result ≡ items.items }
    {
        Slots { items }
    }

    pub fn from_slice(alloc: Global, items: &[Slot]) -> Result<Slots, AllocError>
        ensures { IfOk result (λ slots. slots ≡ items.now) }
    {
        Ok(Slots {
            items: Vec::from_slice(alloc, items)?,
        })
    }

    /// So many equal slots.
    pub fn repeated(alloc: Global, slot: Slot, count: usize) -> Result<Slots, AllocError>
        ensures { IfOk result (λ slots. slots ≡ replicate count slot) }
    {
        Ok(Slots {
            items: vec![in alloc; slot; count]?,
        })
    }

    pub fn as_slice(&self) -> &[Slot]
        ensures { result.now ≡ self.now }
    {
        self.items.as_slice()
    }

    pub fn len(&self) -> usize
        ensures value { result ≡ length self.now }
        ensures few { result < 2 ^ 63 }
    {
        self.items.len()
    }

    pub fn get(&self, at: usize) -> Slot
        requires { at < length self.now }
        ensures { slice_get self.now at ≡ Some result }
    {
        self.items[at]
    }

    /// Takes no memory.
    pub fn set(&mut self, at: usize, slot: Slot)
        requires { at < length self.old }
        ensures { self.new ≡ slice_set self.old at slot }
    {
        self.items[at] = slot;
    }

    pub fn copy(&self) -> Result<Slots, CopyFault>
        ensures { IfOk result (λ copy. copy ≡ self.now) }
    {
        Ok(Slots {
            items: self.items.clone()?,
        })
    }
}
