//! The operand stack.

ghost use Rattle.std.specs.Prelude.{◌≡◌, [], ◌∷◌, ◌++◌, None, Some, length, OnOk, IfOk, MatchBool, MatchOption, reverse, IsTrue};
ghost use Rattle.class_verify.specs.Kinds.{all_fit};
ghost use Rattle.class_verify.specs.Stacks.{below, below_value, below_values, with_value, with_values, group, without, repeated, swapped, moved};
ghost use Rattle.class_verify.specs.Frames.{slots_of, all_slots};
ghost use Rattle.class_verify.specs.Groups.{kinds_of};
ghost use Rattle.class_verify.specs.Targets.{is_thrown};
ghost use Rattle.class_verify.specs.declared.stack.Width.TheVariants as widths;

use crate::kinds::{Kind, all_fit};
use class_model::FrameType;
use jvm_tables::{Operation, ValueKind};
use std::alloc::{AllocError, Global};
use std::marker::Model;

/// The kinds on an operand stack. Contracts see them from the top on.
#[derive(Debug, Drop)]
pub struct Stack {
    slots: Vec<Kind>,
}

impl Model for Stack {
    ghost use Rattle.std.specs.Prelude.{List, reverse};
    ghost use Rattle.std.specs.Coded.{coded_list};
    ghost use Rattle.class_verify.specs.declared.kinds.Kind.{Kind};
    ghost use Rattle.class_verify.specs.contracts.kinds.Kind as kind_type;

    ghost Value = { List Kind };

    ghost coded = { coded_list kind_type.the_row.coded };

    ghost view = { λ s. reverse s.slots.items };
}

/// How many slots of the top are moved as one.
#[derive(Clone, Copy, Drop)]
pub(crate) enum Width {
    Zero,
    One,
    Two,
}

/// Slots that are moved as one, the top first.
#[derive(Clone, Copy, Drop)]
pub(crate) enum Group {
    Zero,
    One(Kind),
    Two(Kind, Kind),
}

impl Stack {
    pub fn new(alloc: Global) -> Stack
        ensures { result ≡ [] }
    {
        Stack {
            slots: Vec::new(alloc),
        }
    }

    pub fn len(&self) -> usize
        ensures { result ≡ length self.now }
    {
        self.slots.len()
    }

    pub(crate) fn clear(&mut self)
        ensures { self.new ≡ [] }
    {
        self.slots.clear();
    }

    pub(crate) fn push(&mut self, kind: Kind) -> Result<(), AllocError>
        ensures { OnOk result (self.new ≡ kind ∷ self.old) }
    {
        self.slots.push(kind)?;
        Ok(())
    }

    fn pop(&mut self) -> Option<Kind>
        ensures { MatchOption result (self.old ≡ []) (λ top. self.old ≡ top ∷ self.new) }
    {
        self.slots.pop()
    }

    /// Makes it equal to another.
    pub(crate) fn copy_from(&mut self, other: &Stack) -> Result<(), AllocError>
        ensures { OnOk result (self.new ≡ other.now) }
    {
        self.slots.clear();
        self.slots.extend_from_slice(other.slots.as_slice())?;
        Ok(())
    }

    #[tactic(auto, using(crate::proofs::Fitting::turned))]
    pub(crate) fn fits(&self, wanted: &Stack) -> bool
        ensures { result ≡ all_fit self.now wanted.now }
    {
        all_fit(self.slots.as_slice(), wanted.slots.as_slice())
    }

    /// Takes a slot of a kind, if it is on top.
    fn take(&mut self, wanted: Kind) -> bool
        ensures { MatchBool result (below wanted self.old ≡ Some self.new) (below wanted self.old ≡ None) }
    {
        match self.pop() {
            Some(kind) => kind.is(wanted),
            None => false,
        }
    }

    fn take_value(&mut self, kind: ValueKind) -> bool
        ensures { MatchBool result (below_value kind self.old ≡ Some self.new) (below_value kind self.old ≡ None) }
    {
        match kind {
            ValueKind::Int => self.take(Kind::Int),
            ValueKind::Long => self.take(Kind::Top) && self.take(Kind::Long),
            ValueKind::Reference => self.take(Kind::Reference),
        }
    }

    /// Takes values of these kinds, the last from the top, if they are there.
    #[tactic(auto, using(crate::proofs::Stacking::take_end))]
    pub(crate) fn take_values(&mut self, kinds: &[ValueKind]) -> bool
        ensures { MatchBool result (below_values (reverse kinds.now) self.old ≡ Some self.new) (below_values (reverse kinds.now) self.old ≡ None) }
    {
        for at in 0..kinds.len() {
            if !self.take_value(kinds[kinds.len() - 1 - at]) {
                return false;
            }
        }
        true
    }

    pub(crate) fn put_value(&mut self, kind: ValueKind) -> Result<(), AllocError>
        ensures { OnOk result (self.new ≡ with_value kind self.old) }
    {
        match kind {
            ValueKind::Int => self.push(Kind::Int),
            ValueKind::Long => {
                self.push(Kind::Long)?;
                self.push(Kind::Top)
            }
            ValueKind::Reference => self.push(Kind::Reference),
        }
    }

    #[tactic(auto, using(crate::proofs::Stacking::put_step, crate::proofs::Stacking::put_end))]
    pub(crate) fn put_values(&mut self, kinds: &[ValueKind]) -> Result<(), AllocError>
        ensures { OnOk result (self.new ≡ with_values kinds.now self.old) }
    {
        for kind in kinds {
            self.put_value(*kind)?;
        }
        Ok(())
    }

    /// Puts the slots of types on it.
    #[tactic(auto, using(crate::proofs::Slots::pile_end))]
    pub(crate) fn push_types(&mut self, types: &[FrameType]) -> Result<(), AllocError>
        ensures { OnOk result (self.new ≡ reverse (all_slots types.now) ++ self.old) }
    {
        for t in types {
            self.push_type(*t)?;
        }
        Ok(())
    }

    fn push_type(&mut self, t: FrameType) -> Result<(), AllocError>
        ensures { OnOk result (self.new ≡ reverse (slots_of t) ++ self.old) }
    {
        if t.tag == 0 {
            return self.push(Kind::Top);
        }
        if t.tag == 1 {
            return self.push(Kind::Int);
        }
        if t.tag == 4 {
            self.push(Kind::Long)?;
            return self.push(Kind::Top);
        }
        self.push(Kind::Reference)
    }

    /// Whether it holds a reference and nothing else.
    pub(crate) fn is_thrown(&self) -> bool
        ensures { result ≡ is_thrown self.now }
    {
        self.slots.len() == 1 && self.slots[0].is(Kind::Reference)
    }

    fn take_one(&mut self) -> Option<Group>
        ensures { MatchOption result (group widths.One self.old ≡ None) (λ found. group widths.One self.old ≡ Some (kinds_of found, self.new)) }
    {
        let top = self.pop()?;
        if top.is_single() {
            Some(Group::One(top))
        } else {
            None
        }
    }

    fn take_two(&mut self) -> Option<Group>
        ensures { MatchOption result (group widths.Two self.old ≡ None) (λ found. group widths.Two self.old ≡ Some (kinds_of found, self.new)) }
    {
        let top = self.pop()?;
        let next = self.pop()?;
        if top.is_pair(next) {
            Some(Group::Two(top, next))
        } else {
            None
        }
    }

    fn take_group(&mut self, width: Width) -> Option<Group>
        ensures { MatchOption result (group width self.old ≡ None) (λ found. group width self.old ≡ Some (kinds_of found, self.new)) }
    {
        match width {
            Width::Zero => Some(Group::Zero),
            Width::One => self.take_one(),
            Width::Two => self.take_two(),
        }
    }

    fn put_group(&mut self, group: Group) -> Result<(), AllocError>
        ensures { OnOk result (self.new ≡ kinds_of group ++ self.old) }
    {
        match group {
            Group::Zero => Ok(()),
            Group::One(top) => self.push(top),
            Group::Two(top, next) => {
                self.push(next)?;
                self.push(top)
            }
        }
    }

    fn drop_group(&mut self, width: Width) -> bool
        ensures { MatchBool result (without width self.old ≡ Some self.new) (without width self.old ≡ None) }
    {
        self.take_group(width).is_some()
    }

    fn repeat(&mut self, width: Width, under: Width) -> Result<bool, AllocError>
        ensures { IfOk result (λ is_there. MatchBool is_there (repeated width under self.old ≡ Some self.new) (repeated width under self.old ≡ None)) }
    {
        let Some(upper) = self.take_group(width) else {
            return Ok(false);
        };
        let Some(lower) = self.take_group(under) else {
            return Ok(false);
        };
        self.put_group(upper)?;
        self.put_group(lower)?;
        self.put_group(upper)?;
        Ok(true)
    }

    fn swap(&mut self) -> Result<bool, AllocError>
        ensures { IfOk result (λ is_there. MatchBool is_there (swapped self.old ≡ Some self.new) (swapped self.old ≡ None)) }
    {
        let Some(upper) = self.take_group(Width::One) else {
            return Ok(false);
        };
        let Some(lower) = self.take_group(Width::One) else {
            return Ok(false);
        };
        self.put_group(upper)?;
        self.put_group(lower)?;
        Ok(true)
    }

    /// Moves slots whatever they hold, if the instruction finds whole values there.
    pub(crate) fn move_slots(&mut self, operation: Operation) -> Result<bool, AllocError>
        ensures { IfOk result (λ is_there. MatchBool is_there (moved operation self.old ≡ Some self.new) (moved operation self.old ≡ None)) }
    {
        match operation {
            Operation::Pop => Ok(self.drop_group(Width::One)),
            Operation::Pop2 => Ok(self.drop_group(Width::Two)),
            Operation::Dup => self.repeat(Width::One, Width::Zero),
            Operation::DupX1 => self.repeat(Width::One, Width::One),
            Operation::DupX2 => self.repeat(Width::One, Width::Two),
            Operation::Dup2 => self.repeat(Width::Two, Width::Zero),
            Operation::Dup2X1 => self.repeat(Width::Two, Width::One),
            Operation::Dup2X2 => self.repeat(Width::Two, Width::Two),
            Operation::Swap => self.swap(),
            _ => Ok(false),
        }
    }
}
