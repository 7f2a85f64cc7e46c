//! Where instructions begin, and where frames stand.

ghost use Rattle.std.specs.Prelude.{◌≡◌, ◌+◌, ◌<◌, ◌≤◌, IfOk, None, drop, length, option_and_then, slice_set, replicate, false, Some, Ok, IfSome};
ghost use Rattle.jvm_tables.specs.Decoding.{decoding};
ghost use Rattle.jvm_tables.specs.Opcodes.{row_of};
ghost use Rattle.class_verify.specs.Places.{float_length, length_by, within, next_place};
ghost use Rattle.class_verify.specs.Ready.{IsMarked, IsFramed};

use crate::frames::Written;
use jvm_tables::{CodeFault, Instr, OpRow, decode, op_row};
use std::alloc::{AllocError, Global};

fn float_length(row: &OpRow) -> Option<usize>
    ensures { result ≡ float_length row.now }
{
    if row.is_float {
        Some(usize::from(row.length))
    } else {
        None
    }
}

fn row_length(op: u8) -> Option<usize>
    ensures { result ≡ option_and_then float_length (row_of op) }
{
    match op_row(op) {
        Some(row) => float_length(&row),
        None => None,
    }
}

/// The length of the instruction at a place, if there is one; an opcode on floats has one too.
fn length_at(code: &[u8], pc: usize) -> Option<usize>
    requires within { pc < length code.now }
    requires short { length code.now ≤ 65535 }
    ensures { result ≡ length_by (decoding pc (drop pc code.now)) }
{
    match decode(code, pc as u32) {
        Ok(instr) => Some(instr.length as usize),
        Err(CodeFault::FloatOp(op)) => row_length(op),
        Err(CodeFault::UnknownOp(_)) => None,
        Err(CodeFault::CutShort) => None,
        Err(CodeFault::BadOperand) => None,
    }
}

fn within(code: &[u8], pc: usize, len: usize) -> Option<usize>
    requires pc { pc < length code.now }
    ensures { result ≡ within code.now (pc + len) }
{
    if len < code.len() - pc {
        Some(pc + len)
    } else {
        None
    }
}

/// Where the next instruction begins.
#[tactic(auto, unfolding(crate::specs::Places::next_place))]
pub(crate) fn next_place(code: &[u8], pc: usize) -> Option<usize>
    requires within { pc < length code.now }
    requires short { length code.now ≤ 65535 }
    ensures value { result ≡ next_place code.now pc }
    ensures rises { IfSome result (λ next. pc < next) }
    ensures inside { IfSome result (λ next. next < length code.now) }
{
    match length_at(code, pc) {
        Some(len) => within(code, pc, len),
        None => None,
    }
}

/// Where the next instruction begins, behind one that decodes.
#[tactic(auto, unfolding(crate::specs::Places::next_place))]
pub(crate) fn place_behind(code: &[u8], pc: usize, instr: &Instr) -> Option<usize>
    requires within { pc < length code.now }
    requires decoded { decoding pc (drop pc code.now) ≡ Ok instr.now }
    ensures value { result ≡ next_place code.now pc }
    ensures rises { IfSome result (λ next. pc < next) }
    ensures inside { IfSome result (λ next. next < length code.now) }
{
    within(code, pc, instr.length as usize)
}

fn no_marks(alloc: Global, len: usize) -> Result<Vec<bool>, AllocError>
    ensures { IfOk result (λ marks. marks.items ≡ replicate len false) }
{
    let mut marks = Vec::with_capacity(alloc, len)?;
    for _ in 0..len {
        marks.push(false)?;
    }
    Ok(marks)
}

fn no_places(alloc: Global, len: usize) -> Result<Vec<Option<usize>>, AllocError>
    ensures { IfOk result (λ table. table.items ≡ replicate len None) }
{
    let mut table = Vec::with_capacity(alloc, len)?;
    for _ in 0..len {
        table.push(None)?;
    }
    Ok(table)
}

/// Says of each place whether an instruction begins there.
pub(crate) fn marks_of(alloc: Global, code: &[u8]) -> Result<Vec<bool>, AllocError>
    requires some { 0 < length code.now }
    requires short { length code.now ≤ 65535 }
    ensures { IfOk result (λ marks. IsMarked code.now marks.items) }
{
    let mut marks = no_marks(alloc, code.len())?;
    let mut next = Some(0usize);
    for count in 0..code.len() {
        let Some(pc) = next else {
            return Ok(marks);
        };
        marks[pc] = true;
        next = next_place(code, pc);
    }
    Ok(marks)
}

fn enter_frame(table: &mut Vec<Option<usize>>, at: usize, place: usize)
    ensures { table.new.items ≡ slice_set table.old.items at (Some place) }
{
    if at < table.len() {
        table[at] = Some(place);
    }
}

/// Says of each place of the code which frame stands there.
pub(crate) fn framed(
    alloc: Global,
    code: &[u8],
    frames: &[Written],
) -> Result<Vec<Option<usize>>, AllocError>
    ensures { IfOk result (λ table. IsFramed code.now frames.now table.items) }
{
    let mut table = no_places(alloc, code.len())?;
    let mut place = frames.len();
    while place > 0 {
        place -= 1;
        enter_frame(&mut table, frames[place].at as usize, place);
    }
    Ok(table)
}
