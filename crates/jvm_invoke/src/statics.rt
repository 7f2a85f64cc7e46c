//! Static fields.

ghost use Rattle.std.specs.Prelude.{◌≡◌, []};

use class_model::MemberId;
use jvm_heap::Slot;
use std::alloc::Global;
use std::marker::Model;

/// The static fields of the classes that are initialised. Contracts see the last one first.
#[derive(Drop)]
pub struct Statics {
    fields: Vec<(MemberId, Slot)>,
}

impl Model for Statics {
    ghost use Rattle.std.specs.Prelude.{List, reverse};
    ghost use Rattle.class_model.specs.declared.identifiers.MemberId.{MemberId};
    ghost use Rattle.jvm_heap.specs.declared.slot.Slot.{Slot};

    ghost Value = { List (MemberId × Slot) };

    ghost view = { λ s. reverse s.fields.items };
}

impl Statics {
    /// No fields.
    pub fn new(alloc: Global) -> Statics
        ensures { result ≡ [] }
    {
        Statics {
            fields: Vec::new(alloc),
        }
    }
}
