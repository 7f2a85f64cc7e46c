//! Arguments that an instruction takes, by a descriptor.

ghost use Rattle.std.specs.Prelude.{◌≡◌, ◌∷◌, IfOk, option_map};
ghost use Rattle.jvm_tables.specs.declared.instruction.ValueKind.TheVariants as values;
ghost use Rattle.class_code.specs.Types.{parameter_kinds};
ghost use Rattle.jvm_model.specs.Frames.{arguments_taken};
ghost use Rattle.jvm_model.specs.Plans.{end_of};
ghost use Rattle.jvm_model.specs.Instructions.{popped_slots};
ghost use Rattle.jvm_resolve.specs.Ends.{EndsAs};
ghost use Rattle.jvm_state.specs.Changes.{OperandsAlone};
ghost use Rattle.jvm_state.specs.Frames.{method_frame};

use crate::operands::take_slot;
use class_code::read_kinds;
use jvm_heap::{Frame, Operands, Slots};
use jvm_resolve::{Lookups, Stop};
use jvm_tables::ValueKind;
use std::alloc::{AllocError, Global};

/// The kinds of a method's parameters.
pub(crate) fn parameter_kinds(
    alloc: Global,
    descriptor: &[u8],
) -> Result<Vec<ValueKind>, AllocError>
    ensures { IfOk result (λ kinds. kinds.items ≡ parameter_kinds descriptor.now) }
{
    let mut kinds = Vec::new(alloc);
    match read_kinds(descriptor, &mut kinds)? {
        Some(_) => Ok(kinds),
        None => Ok(Vec::new(alloc)),
    }
}

/// The kinds of a method's receiver and of its parameters.
pub(crate) fn kinds_with_receiver(
    alloc: Global,
    descriptor: &[u8],
) -> Result<Vec<ValueKind>, AllocError>
    ensures { IfOk result (λ kinds. kinds.items
        ≡ values.Reference ∷ parameter_kinds descriptor.now) }
{
    let mut kinds = Vec::new(alloc);
    kinds.push(ValueKind::Reference)?;
    match read_kinds(descriptor, &mut kinds)? {
        Some(_) => Ok(kinds),
        None => {
            let mut receiver = Vec::new(alloc);
            receiver.push(ValueKind::Reference)?;
            Ok(receiver)
        }
    }
}

/// Takes values of kinds, the last of which is on top.
#[tactic(auto, using(crate::proofs::Steps::taking_all))]
fn take_slots(
    alloc: Global,
    kinds: &[ValueKind],
    operands: &mut Operands,
) -> Result<Option<Slots>, AllocError>
    ensures taken { IfOk result (λ slots. arguments_taken kinds.now operands.old
        ≡ option_map (λ s. (s, operands.new)) slots) }
    ensures limit { operands.new.limit ≡ operands.old.limit }
{
    let mut slots = Vec::with_capacity(alloc, kinds.len())?;
    let mut rest = kinds;
    while let Some((last, before)) = rest.split_last() {
        match take_slot(*last, operands) {
            Some(slot) => slots.push(slot)?,
            None => return Ok(None),
        }
        rest = before;
    }
    slots.reverse();
    Ok(Some(Slots::from_vec(slots)))
}

/// Takes values of kinds, the last of which is on top, in order.
pub(crate) fn take_arguments<P: Lookups>(
    alloc: Global,
    _program: &P,
    kinds: &[ValueKind],
    frame: &mut Frame,
) -> Result<Slots, Stop>
    ensures taken { EndsAs (λ slots. (slots, method_frame (P.method_name _program.now) frame.new))
        result (end_of (P.oracle _program.now) (popped_slots kinds.now
        (method_frame (P.method_name _program.now) frame.old))) }
    ensures frame { OperandsAlone frame.old frame.new }
{
    match take_slots(alloc, kinds, &mut frame.operands)? {
        Some(slots) => Ok(slots),
        None => Err(Stop::Stuck),
    }
}
