//! Operands that an instruction takes.

ghost use Rattle.std.specs.Prelude.{◌≡◌, ◌∷◌, [], option_map};
ghost use Rattle.jvm_tables.specs.declared.instruction.ValueKind.TheVariants as values;
ghost use Rattle.jvm_heap.specs.Operands.{taken};
ghost use Rattle.jvm_model.specs.Plans.{end_of};
ghost use Rattle.jvm_model.specs.Instructions.{popped, one_popped, present};
ghost use Rattle.jvm_resolve.specs.Ends.{EndsAs};
ghost use Rattle.jvm_state.specs.Changes.{OperandsAlone};
ghost use Rattle.jvm_state.specs.Frames.{method_frame};
ghost use Rattle.jvm_effects.specs.Operands.{told};

use jvm_heap::{Frame, Operands, Slot};
use jvm_resolve::{Lookups, Stop};
use jvm_tables::ValueKind;
use native_model::Throw;

pub(crate) fn take_int<P: Lookups>(_program: &P, frame: &mut Frame) -> Result<i32, Stop>
    ensures taken { EndsAs (λ n. ((n, tt), method_frame (P.method_name _program.now) frame.new))
        result (end_of (P.oracle _program.now) (popped (values.Int ∷ [])
        (method_frame (P.method_name _program.now) frame.old))) }
    ensures frame { OperandsAlone frame.old frame.new }
{
    match frame.operands.take_int() {
        Some(n) => Ok(n),
        None => Err(Stop::Stuck),
    }
}

pub(crate) fn take_reference<P: Lookups>(_program: &P, frame: &mut Frame) -> Result<u32, Stop>
    ensures taken { EndsAs (λ n. ((n, tt), method_frame (P.method_name _program.now) frame.new))
        result (end_of (P.oracle _program.now) (popped (values.Reference ∷ [])
        (method_frame (P.method_name _program.now) frame.old))) }
    ensures frame { OperandsAlone frame.old frame.new }
{
    match frame.operands.take_reference() {
        Some(n) => Ok(n),
        None => Err(Stop::Stuck),
    }
}

fn int_slot(operands: &mut Operands) -> Option<Slot>
    ensures taken { option_map (told values.Int) (taken values.Int operands.old)
        ≡ option_map (λ slot. (slot, operands.new)) result }
    ensures limit { operands.new.limit ≡ operands.old.limit }
{
    match operands.take_int() {
        Some(n) => Some(Slot::Int(n)),
        None => None,
    }
}

fn long_slot(operands: &mut Operands) -> Option<Slot>
    ensures taken { option_map (told values.Long) (taken values.Long operands.old)
        ≡ option_map (λ slot. (slot, operands.new)) result }
    ensures limit { operands.new.limit ≡ operands.old.limit }
{
    match operands.take_long() {
        Some(n) => Some(Slot::Long(n)),
        None => None,
    }
}

fn reference_slot(operands: &mut Operands) -> Option<Slot>
    ensures taken { option_map (told values.Reference) (taken values.Reference operands.old)
        ≡ option_map (λ slot. (slot, operands.new)) result }
    ensures limit { operands.new.limit ≡ operands.old.limit }
{
    match operands.take_reference() {
        Some(n) => Some(Slot::Ref(n)),
        None => None,
    }
}

/// Takes a value of a kind.
#[tactic(auto, using(crate::proofs::Steps::told_kinds))]
pub(crate) fn take_slot(kind: ValueKind, operands: &mut Operands) -> Option<Slot>
    ensures taken { option_map (told kind) (taken kind operands.old)
        ≡ option_map (λ slot. (slot, operands.new)) result }
    ensures limit { operands.new.limit ≡ operands.old.limit }
{
    match kind {
        ValueKind::Int => int_slot(operands),
        ValueKind::Long => long_slot(operands),
        ValueKind::Reference => reference_slot(operands),
    }
}

/// Takes a value of a kind of a frame's operands.
#[tactic(auto, using(crate::proofs::Steps::taking))]
pub(crate) fn take_value<P: Lookups>(
    _program: &P,
    kind: ValueKind,
    frame: &mut Frame,
) -> Result<Slot, Stop>
    ensures taken { EndsAs (λ slot. (slot, method_frame (P.method_name _program.now) frame.new))
        result (end_of (P.oracle _program.now) (one_popped kind
        (method_frame (P.method_name _program.now) frame.old))) }
    ensures frame { OperandsAlone frame.old frame.new }
{
    match take_slot(kind, &mut frame.operands) {
        Some(slot) => Ok(slot),
        None => Err(Stop::Stuck),
    }
}

/// The number of an object, which is no null.
#[tactic(auto, using(crate::proofs::Steps::steps))]
pub(crate) fn present<P: Lookups>(_program: &P, number: u32) -> Result<u32, Stop>
    ensures { EndsAs (λ n. n) result (end_of (P.oracle _program.now) (present number)) }
{
    if number == 0 {
        Err(Stop::Throws(Throw::NullPointer))
    } else {
        Ok(number)
    }
}
