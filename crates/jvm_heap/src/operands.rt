//! The operand stack.

ghost use Rattle.std.specs.Prelude.{◌≡◌, [], None, Some, IfOk, option_map, if◌then◌else◌};
ghost use Rattle.jvm_tables.specs.declared.instruction.ValueKind.TheVariants as values;
ghost use Rattle.jvm_heap.specs.Operands.{with_slots, pushed, popped, taken};

use crate::slot::Slot;
use std::alloc::{AllocError, Global};
use std::marker::Model;

/// The operands of a frame within a limit (JVMS 2.6.2). Contracts see them with the top first. Once it is made nothing
/// here takes memory. What finds no such value, or no room, leaves the operands as they were.
#[derive(Drop)]
pub struct Operands {
    slots: Vec<Slot>,
    depth: usize,
}

impl Model for Operands {
    ghost use Rattle.std.specs.Prelude.{◌≤◌, reverse, take, length};
    ghost use Rattle.jvm_heap.specs.Operands.{Operands};

    ghost Value = { Operands };

    ghost view = { λ s. record { slots = reverse (take s.depth s.slots.items); limit = length s.slots.items } };

    ghost invariant = { λ s. s.depth ≤ length s.slots.items };
}

impl Operands {
    /// No operands, within a limit of slots.
    pub fn with_limit(alloc: Global, limit: usize) -> Result<Operands, AllocError>
        ensures { IfOk result (λ s. s ≡ record { slots = []; limit = limit }) }
    {
        let slots = vec![in alloc; Slot::Top; limit]?;
        Ok(Operands { slots, depth: 0 })
    }

    /// Takes all.
    pub fn clear(&mut self)
        ensures { self.new ≡ with_slots self.old [] }
    {
        self.depth = 0;
    }

    /// Puts a slot on top, where there is room.
    #[tactic(auto, unfolding(crate::specs::Operands::pushed))]
    pub fn push(&mut self, slot: Slot) -> bool
        ensures { pushed slot self.old ≡ (if result then Some self.new else None) }
    {
        if self.depth < self.slots.len() {
            self.slots[self.depth] = slot;
            self.depth += 1;
            true
        } else {
            false
        }
    }

    /// Takes the slot on top, whatever it holds: it may be half of a long.
    #[tactic(auto, unfolding(crate::specs::Operands::popped))]
    pub fn pop(&mut self) -> Option<Slot>
        ensures { popped self.old ≡ option_map (λ slot. (slot, self.new)) result }
    {
        if self.depth == 0 {
            return None;
        }
        self.depth -= 1;
        Some(self.slots[self.depth])
    }

    /// Takes an int, where one is on top.
    #[tactic(auto, unfolding(crate::specs::Operands::taken))]
    pub fn take_int(&mut self) -> Option<i32>
        ensures value { taken values.Int self.old ≡ option_map (λ n. (n, self.new)) result }
        ensures limit { self.new.limit ≡ self.old.limit }
    {
        if self.depth == 0 {
            return None;
        }
        match self.slots[self.depth - 1] {
            Slot::Int(n) => {
                self.depth -= 1;
                Some(n)
            }
            _ => None,
        }
    }

    /// Takes a long, where one is on top.
    #[tactic(auto, unfolding(crate::specs::Operands::taken))]
    pub fn take_long(&mut self) -> Option<i64>
        ensures value { taken values.Long self.old ≡ option_map (λ n. (n, self.new)) result }
        ensures limit { self.new.limit ≡ self.old.limit }
    {
        if self.depth < 2 {
            return None;
        }
        match (self.slots[self.depth - 1], self.slots[self.depth - 2]) {
            (_, Slot::Long(n)) => {
                self.depth -= 2;
                Some(n)
            }
            _ => None,
        }
    }

    /// Takes a reference, where one is on top.
    #[tactic(auto, unfolding(crate::specs::Operands::taken))]
    pub fn take_reference(&mut self) -> Option<u32>
        ensures value { taken values.Reference self.old ≡ option_map (λ n. (n, self.new)) result }
        ensures limit { self.new.limit ≡ self.old.limit }
    {
        if self.depth == 0 {
            return None;
        }
        match self.slots[self.depth - 1] {
            Slot::Ref(n) => {
                self.depth -= 1;
                Some(n)
            }
            _ => None,
        }
    }
}
