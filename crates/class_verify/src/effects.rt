//! What an instruction leaves on the operand stack and in the locals.

ghost use Rattle.std.specs.Prelude.{◌≡◌, ◌<◌, ◌^◌, ◌||◌, None, Some, IfOk, MatchBool, option_map, reverse};
ghost use Rattle.jvm_tables.specs.Agreement.{names_local, increments};
ghost use Rattle.class_code.specs.Operands.{local_of};
ghost use Rattle.class_verify.specs.Effects.{is_slots, used, stack_after, is_read, with_store, locals_after, left};
ghost use Rattle.class_code.specs.Constants.{use_of};
ghost use Rattle.class_code.specs.Descriptors.{descriptors_of};
ghost use Rattle.class_verify.specs.Stacks.{below_values, with_values};

use crate::locals::Locals;
use crate::shape::Shape;
use crate::stack::Stack;
use class_code::{Descriptors, Use, local_of, told_by_row};
use class_model::Class;
use jvm_tables::{Instr, OpRow, Operands, ValueKind};
use std::alloc::AllocError;

fn is_slots(operands: Operands) -> bool
    ensures { result ≡ is_slots operands }
{
    matches!(operands, Operands::Slots(_))
}

/// Takes values off the stack, if they are there, and puts others on it.
fn exchange(stack: &mut Stack, takes: &[ValueKind], gives: &[ValueKind]) -> Result<bool, AllocError>
    ensures { IfOk result (λ is_there. MatchBool is_there
        (option_map (with_values gives.now) (below_values (reverse takes.now) stack.old) ≡ Some stack.new)
        (option_map (with_values gives.now) (below_values (reverse takes.now) stack.old) ≡ None)) }
{
    if !stack.take_values(takes) {
        return Ok(false);
    }
    stack.put_values(gives)?;
    Ok(true)
}

/// Takes and puts what the row or the constant of an instruction tells, if they are there.
fn use_values(
    descriptors: &Descriptors,
    class: &Class,
    row: &OpRow,
    instr: &Instr,
    stack: &mut Stack,
    uses: &mut Use,
) -> Result<bool, AllocError>
    requires { descriptors.now ≡ descriptors_of class.now.pool }
    ensures { IfOk result (λ is_there. MatchBool is_there (used (use_of class.now row.now instr.now) stack.old ≡ Some stack.new) (used (use_of class.now row.now instr.now) stack.old ≡ None)) }
{
    if let Some((takes, gives)) = told_by_row(row) {
        return exchange(stack, takes, gives);
    }
    if !uses.fill(descriptors, class, row, instr)? {
        return Ok(false);
    }
    exchange(stack, uses.takes.as_slice(), uses.gives.as_slice())
}

#[tactic(auto, unfolding(crate::specs::Effects::stack_after))]
fn change_stack(
    descriptors: &Descriptors,
    class: &Class,
    row: &OpRow,
    instr: &Instr,
    stack: &mut Stack,
    uses: &mut Use,
) -> Result<bool, AllocError>
    requires { descriptors.now ≡ descriptors_of class.now.pool }
    ensures { IfOk result (λ is_there. MatchBool is_there (stack_after class.now row.now instr.now stack.old ≡ Some stack.new) (stack_after class.now row.now instr.now stack.old ≡ None)) }
{
    if is_slots(row.takes) {
        stack.move_slots(row.operation)
    } else {
        use_values(descriptors, class, row, instr, stack, uses)
    }
}

fn is_read(locals: &Locals, place: usize, kind: Option<ValueKind>) -> bool
    ensures { result ≡ is_read kind place locals.now }
{
    match kind {
        Some(kind) => locals.holds(place, kind),
        None => true,
    }
}

fn store(locals: &mut Locals, place: usize, kind: Option<ValueKind>) -> Result<bool, AllocError>
    requires { place < 2 ^ 32 }
    ensures { IfOk result (λ is_there. MatchBool is_there
        (with_store kind place locals.old ≡ Some locals.new) (with_store kind place locals.old ≡ None)) }
{
    match kind {
        Some(kind) => locals.store(place, kind),
        None => Ok(true),
    }
}

#[tactic(auto, unfolding(crate::specs::Effects::locals_after))]
fn change_locals(row: &OpRow, instr: &Instr, locals: &mut Locals) -> Result<bool, AllocError>
    ensures { IfOk result (λ is_there. MatchBool is_there
        (locals_after row.now instr.now locals.old ≡ Some locals.new) (locals_after row.now instr.now locals.old ≡ None)) }
{
    let place = local_of(row, instr);
    if !is_read(locals, place, row.reads) {
        return Ok(false);
    }
    store(locals, place, row.writes)
}

/// Makes a shape what an instruction leaves of it, if it leaves any.
#[tactic(auto, unfolding(crate::specs::Effects::left))]
pub(crate) fn leave(
    descriptors: &Descriptors,
    class: &Class,
    most: usize,
    row: &OpRow,
    instr: &Instr,
    shape: &mut Shape,
    uses: &mut Use,
) -> Result<bool, AllocError>
    requires { descriptors.now ≡ descriptors_of class.now.pool }
    ensures { IfOk result (λ is_there. MatchBool is_there (left class.now most row.now instr.now shape.old ≡ Some shape.new) (left class.now most row.now instr.now shape.old ≡ None)) }
{
    if !change_locals(row, instr, &mut shape.locals)? {
        return Ok(false);
    }
    if !change_stack(descriptors, class, row, instr, &mut shape.stack, uses)? {
        return Ok(false);
    }
    Ok(shape.stack.len() <= most)
}
