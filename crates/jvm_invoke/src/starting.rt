//! Methods begin, and go on with a result (JVMS 2.6, 2.6.4).

ghost use Rattle.std.specs.Prelude.{◌≡◌, ◌++◌, ◌∷◌, [], Some, None, IfOk, OnOk, if◌then◌else◌};
ghost use Rattle.jvm_model.specs.Frames.{laid_out, first_locals, given_slot, given_back, goes_on, started};
ghost use Rattle.jvm_model.specs.Plans.{end_of};
ghost use Rattle.jvm_state.specs.Frames.{method_frame};
ghost use Rattle.jvm_state.specs.Moves.{Leads};

use crate::machine::Machine;
use class_model::MemberId;
use jvm_heap::{Frame as MethodFrame, Operands, Slot, Slots};
use jvm_state::{Ending, Frame, Members, Move};
use native_model::{Budget, StepFault};
use std::alloc::{AllocError, Global};

/// The most frames of methods, and of natives and lambdas that call on.
const MOST_FRAMES: usize = 1024;

#[tactic(auto, using(crate::proofs::Laid::first))]
fn push_laid(locals: &mut Vec<Slot>, slot: Slot) -> Result<(), AllocError>
    ensures { OnOk result (locals.new.items ≡ locals.old.items ++ laid_out (slot ∷ [])) }
{
    locals.push(slot)?;
    if matches!(slot, Slot::Long(_)) {
        locals.push(Slot::Top)?;
    }
    Ok(())
}

/// Puts arguments behind the locals that there are, each long with its second slot.
fn lay_out(locals: &mut Vec<Slot>, arguments: &[Slot]) -> Result<(), AllocError>
    ensures { OnOk result (locals.new.items ≡ locals.old.items ++ laid_out arguments.now) }
{
    let mut rest = arguments;
    'laid: while let Some((slot, behind)) = rest.split_first() {
        push_laid(locals, *slot)?;
        rest = behind;
    }
    Ok(())
}

/// The locals of a method that begins: its arguments, and room for the others.
fn first_locals(alloc: Global, arguments: &[Slot], most: usize) -> Result<Slots, AllocError>
    ensures { IfOk result (λ locals. locals ≡ first_locals most arguments.now) }
{
    let mut locals = Vec::with_capacity(alloc, most)?;
    lay_out(&mut locals, arguments)?;
    if locals.len() < most {
        locals.resize(most, Slot::Top)?;
    }
    Ok(Slots::from_vec(locals))
}

/// A method of the program begins, within the frames that there may be.
#[tactic(auto, unfolding(jvm_model::specs::Frames::started))]
pub fn start<P: Members>(
    machine: &mut Machine<P>,
    method: MemberId,
    arguments: &[Slot],
) -> Result<Move, StepFault>
    ensures started { Leads result machine.new.state (end_of (P.oracle machine.old.program)
        (started machine.old.state.frames machine.old.state.shared
        (P.method_name machine.old.program method) arguments.now)) }
    ensures program { machine.new.program ≡ machine.old.program }
{
    let Some((operands, locals)) = machine.program().frame_size(method) else {
        return Ok(Move::Stuck);
    };
    if machine.counted() >= MOST_FRAMES {
        return Ok(Move::Finishes(Ending::Spent(Budget::Frames)));
    }
    let alloc = machine.allocator();
    machine.push(Frame::Method(MethodFrame {
        method,
        pc: 0,
        next: 0,
        locals: first_locals(alloc, arguments, locals as usize)?,
        operands: Operands::with_limit(alloc, operands as usize)?,
    }))?;
    Ok(Move::Goes)
}

/// Puts a value on the operands, where there is room.
fn give_slot(operands: &mut Operands, slot: Slot) -> bool
    ensures { given_slot slot operands.old ≡ (if result then Some operands.new else None) }
{
    match slot {
        Slot::Top => false,
        Slot::Long(_) => operands.push(slot) && operands.push(Slot::Top),
        _ => operands.push(slot),
    }
}

fn give_back(operands: &mut Operands, value: Option<Slot>) -> bool
    ensures { given_back value operands.old ≡ (if result then Some operands.new else None) }
{
    match value {
        Some(slot) => give_slot(operands, slot),
        None => true,
    }
}

/// A method goes on behind its present instruction, with a result where there is one.
pub fn go_on<P: Members>(
    machine: &mut Machine<P>,
    frame: MethodFrame,
    value: Option<Slot>,
) -> Result<Move, StepFault>
    ensures gone { Leads result machine.new.state (end_of (P.oracle machine.old.program)
        (goes_on (method_frame (P.method_name machine.old.program) frame)
        machine.old.state.frames machine.old.state.shared value)) }
    ensures program { machine.new.program ≡ machine.old.program }
{
    let mut frame = frame;
    if !give_back(&mut frame.operands, value) {
        return Ok(Move::Stuck);
    }
    frame.pc = frame.next;
    machine.push(Frame::Method(frame))?;
    Ok(Move::Goes)
}
