//! The types of the locals from frame to frame, with what is asked of them at each: a frame that takes away or adds few
//! costs little, however many there are.

ghost use Rattle.std.specs.Prelude.{◌≡◌, ◌++◌, ◌∷◌, ◌<◌, ◌+◌, ◌-◌, ◌^◌, [], length, take, IfOk, OnOk, None, if◌then◌else◌};
ghost use Rattle.std.specs.List.{list_any};
ghost use Rattle.class_verify.specs.Frames.{is_float, slots_of, shape_of, kept};
ghost use Rattle.class_verify.specs.LocalTypes.{AreTold};

use crate::frames::{Limits, chopped, is_float};
use crate::locals::{Locals, push_type};
use crate::shape::Shape;
use crate::shared_kinds::SharedKinds;
use crate::stack::Stack;
use class_model::{FrameType, StackFrame};
use std::alloc::{AllocError, Global};

#[derive(Drop)]
pub(crate) struct LocalTypes {
    pub types: Vec<FrameType>,
    /// How many of them are floats.
    pub floats: usize,
    /// The slots of them all.
    pub slots: SharedKinds,
}

/// How many slots a type has.
fn width(t: FrameType) -> usize
    ensures { result ≡ length (slots_of t) }
{
    if t.tag == 4 { 2 } else { 1 }
}

/// How many floats there are with one type more.
fn floats_with(floats: usize, t: FrameType) -> usize
    requires { floats < 2 ^ 63 }
    ensures { result ≡ (if is_float t then floats + 1 else floats) }
{
    if is_float(t) { floats + 1 } else { floats }
}

fn floats_without(floats: usize, t: FrameType) -> usize
    ensures { result ≡ (if is_float t then floats - 1 else floats) }
{
    if is_float(t) {
        floats.saturating_sub(1)
    } else {
        floats
    }
}

impl LocalTypes {
    pub fn new(alloc: Global) -> LocalTypes
        ensures told { AreTold result }
        ensures types { result.types.items ≡ [] }
    {
        LocalTypes {
            types: Vec::new(alloc),
            floats: 0,
            slots: SharedKinds::of(Vec::new(alloc)),
        }
    }

    #[tactic(auto, using(crate::proofs::Tracking::floats_small))]
    fn push(&mut self, t: FrameType) -> Result<(), AllocError>
        requires { AreTold self.old }
        ensures told { OnOk result (AreTold self.new) }
        ensures types { OnOk result (self.new.types.items ≡ self.old.types.items ++ t ∷ []) }
    {
        self.floats = floats_with(self.floats, t);
        self.types.push(t)?;
        push_type(&mut self.slots, t)?;
        Ok(())
    }

    /// Adds types, as a frame has them.
    #[tactic(auto, using(crate::proofs::Tracking::push_end))]
    pub fn extend(&mut self, types: &[FrameType]) -> Result<(), AllocError>
        requires { AreTold self.old }
        ensures told { OnOk result (AreTold self.new) }
        ensures types { OnOk result (self.new.types.items ≡ self.old.types.items ++ types.now) }
    {
        for t in types {
            self.push(*t)?;
        }
        Ok(())
    }

    fn pop(&mut self)
        requires told { AreTold self.old }
        requires some { 0 < length self.old.types.items }
        ensures told { AreTold self.new }
        ensures types { self.new.types.items ≡ take (length self.old.types.items - 1) self.old.types.items }
    {
        let Some(t) = self.types.pop() else {
            return;
        };
        let most = self.slots.len().saturating_sub(width(t));
        self.slots.truncate(most);
        self.floats = floats_without(self.floats, t);
    }

    #[tactic(auto, using(std::proofs::lemmas::List::take_all))]
    fn truncate(&mut self, most: usize)
        requires { AreTold self.old }
        ensures told { AreTold self.new }
        ensures types { self.new.types.items ≡ take most self.old.types.items }
    {
        while self.types.len() > most {
            self.pop();
        }
    }

    /// Leaves of the types the ones that a frame keeps.
    #[tactic(auto, unfolding(crate::specs::Frames::kept))]
    pub fn keep(&mut self, f: &StackFrame)
        requires { AreTold self.old }
        ensures told { AreTold self.new }
        ensures types { self.new.types.items ≡ kept f.now self.old.types.items }
    {
        if f.tag == 255 {
            self.truncate(0);
        } else {
            let most = self.types.len().saturating_sub(chopped(f));
            self.truncate(most);
        }
    }

    #[tactic(auto, using(crate::proofs::Tracking::told_float))]
    pub fn has_float(&self) -> bool
        requires { AreTold self.now }
        ensures { result ≡ list_any is_float self.now.types.items }
    {
        self.floats > 0
    }

    /// The shape that they tell with types of the stack, if it keeps within the limits.
    #[tactic(auto, unfolding(crate::specs::Frames::shape_of), using(crate::proofs::Tracking::told_same))]
    pub fn shape(
        &mut self,
        alloc: Global,
        limits: Limits,
        stack: &[FrameType],
    ) -> Result<Option<Shape>, AllocError>
        requires { AreTold self.old }
        ensures told { OnOk result (AreTold self.new) }
        ensures types { self.new.types ≡ self.old.types }
        ensures shape { IfOk result (λ found. found ≡ shape_of limits self.old.types.items stack.now) }
    {
        if self.slots.len() > limits.locals {
            return Ok(None);
        }
        let mut items = Stack::new(alloc);
        items.push_types(stack)?;
        if items.len() > limits.stack {
            return Ok(None);
        }
        Ok(Some(Shape {
            stack: items,
            locals: Locals::padded(self.slots.copied()?, limits.locals),
        }))
    }

    /// The same, if it is told at all.
    pub fn shape_if(
        &mut self,
        alloc: Global,
        limits: Limits,
        is_told: bool,
        stack: &[FrameType],
    ) -> Result<Option<Shape>, AllocError>
        requires { AreTold self.old }
        ensures told { OnOk result (AreTold self.new) }
        ensures types { self.new.types ≡ self.old.types }
        ensures shape { IfOk result (λ found. found ≡ (if is_told then shape_of limits self.old.types.items stack.now else None)) }
    {
        if is_told {
            self.shape(alloc, limits, stack)
        } else {
            Ok(None)
        }
    }
}
