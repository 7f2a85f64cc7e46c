//! The instruction at a place of the code, by the row of its opcode.

ghost use Rattle.std.specs.Prelude.{◌≡◌, ◌+◌, ◌<◌, ◌≤◌, IfOk, drop, length, pos};
ghost use Rattle.jvm_tables.specs.Decoding.{plain, interface_call, call_site, element_type, dimensions, increment, wide_local, wide_increment, wide_form, widened, wide, by_form, known, decoding};
ghost use Rattle.jvm_tables.specs.Opcodes.{row_of};

use crate::code::{CodeFault, Instr};
use crate::instruction::{Form, OpRow};
use crate::opcodes::op_row;
use crate::reading::{byte_at, short_at, word_at};
use crate::switches::{lookup_switch, table_switch};

/// The instruction that begins at `pc` (JVMS 6.5). Where it has none, the first of these that holds:
/// its opcode is unknown or a float opcode, its operands pass the end, they are bad. Of the operands
/// those are bad that stand in the place of a fixed 0 and differ, a code of an element type outside
/// 4 to 11, 0 dimensions, an opcode behind `wide` that does not take it, a switch with its low bound
/// above its high one, a negative number of pairs, or keys that do not rise.
#[tactic(auto, using(crate::proofs::Same::place_of, crate::proofs::Same::length_of_it, crate::proofs::Same::end_of))]
pub fn decode(code: &[u8], pc: u32) -> Result<Instr, CodeFault>
    requires within { pc < length code.now }
    requires small { length code.now ≤ 65535 }
    ensures exact { result ≡ decoding pc (drop pc code.now) }

    // It stands at the place, has a length, and ends within the code.
    ensures place { IfOk result (λ instr. instr.pc ≡ pc) }
    ensures some { IfOk result (λ instr. 0 < instr.length) }
    ensures end { IfOk result (λ instr. pc + instr.length ≤ length code.now) }
{
    let (_, bytes) = code.split_at(pc as usize);
    instruction(pc, bytes)
}

// The instruction at the front of the bytes.
#[tactic(auto, unfolding(crate::specs::Decoding::decoding))]
fn instruction(pc: u32, bytes: &[u8]) -> Result<Instr, CodeFault>
    requires { length bytes.now ≤ 65535 }
    ensures { result ≡ decoding pc bytes.now }
{
    let op = byte_at(bytes, 0)?;
    let row = known(op)?;
    let (_, operands) = bytes.split_at(1);
    by_form(pc, &row, operands)
}

fn known(op: u8) -> Result<OpRow, CodeFault>
    ensures { result ≡ known op (row_of op) }
{
    match op_row(op) {
        None => Err(CodeFault::UnknownOp(op)),
        Some(row) if row.is_float => Err(CodeFault::FloatOp(op)),
        Some(row) => Ok(row),
    }
}

fn plain(pc: u32, row: &OpRow, first: i32, second: i32) -> Instr
    ensures { result ≡ plain pc row.now first second }
{
    Instr {
        pc,
        op: row.opcode,
        wide: false,
        length: u32::from(row.length),
        first,
        second,
    }
}

// The arms of decoding: a number of the operands, and the instruction with it as its first operand.
macro_rules! one_operand {
    ($pc:expr, $row:expr, $number:expr) => {{
        let number = $number;
        Ok(plain($pc, $row, i32::from(number), 0))
    }};
}

fn by_form(pc: u32, row: &OpRow, bytes: &[u8]) -> Result<Instr, CodeFault>
    requires { length bytes.now ≤ 65535 }
    ensures { result ≡ by_form row.now.form pc row.now bytes.now }
{
    match row.form {
        Form::Bare => Ok(plain(pc, row, 0, 0)),
        Form::Byte => one_operand!(pc, row, byte_at(bytes, 0)?.cast_signed()),
        Form::Short => one_operand!(pc, row, short_at(bytes, 0)?.cast_signed()),
        Form::ByteConstant => one_operand!(pc, row, byte_at(bytes, 0)?),
        Form::Constant => one_operand!(pc, row, short_at(bytes, 0)?),
        Form::Local => one_operand!(pc, row, byte_at(bytes, 0)?),
        Form::LocalIncrement => increment(pc, row, bytes),
        Form::Branch => one_operand!(pc, row, short_at(bytes, 0)?.cast_signed()),
        Form::WideBranch => one_operand!(pc, row, word_at(bytes, 0)?),
        Form::TableSwitch => table_switch(pc, row, bytes),
        Form::LookupSwitch => lookup_switch(pc, row, bytes),
        Form::InterfaceCall => interface_call(pc, row, bytes),
        Form::CallSite => call_site(pc, row, bytes),
        Form::ElementType => element_type(pc, row, bytes),
        Form::Dimensions => dimensions(pc, row, bytes),
        Form::Wide => wide(pc, bytes),
    }
}

#[tactic(auto, unfolding(crate::specs::Decoding::increment))]
fn increment(pc: u32, row: &OpRow, bytes: &[u8]) -> Result<Instr, CodeFault>
    ensures { result ≡ increment pc row.now bytes.now }
{
    let local = byte_at(bytes, 0)?;
    let by = byte_at(bytes, 1)?;
    Ok(plain(pc, row, i32::from(local), i32::from(by.cast_signed())))
}

#[tactic(auto, unfolding(crate::specs::Decoding::interface_call))]
fn interface_call(pc: u32, row: &OpRow, bytes: &[u8]) -> Result<Instr, CodeFault>
    ensures { result ≡ interface_call pc row.now bytes.now }
{
    let constant = short_at(bytes, 0)?;
    let count = byte_at(bytes, 2)?;
    let end = byte_at(bytes, 3)?;
    if end == 0 {
        Ok(plain(pc, row, i32::from(constant), i32::from(count)))
    } else {
        Err(CodeFault::BadOperand)
    }
}

#[tactic(auto, unfolding(crate::specs::Decoding::call_site))]
fn call_site(pc: u32, row: &OpRow, bytes: &[u8]) -> Result<Instr, CodeFault>
    ensures { result ≡ call_site pc row.now bytes.now }
{
    let constant = short_at(bytes, 0)?;
    let end = short_at(bytes, 2)?;
    if end == 0 {
        Ok(plain(pc, row, i32::from(constant), 0))
    } else {
        Err(CodeFault::BadOperand)
    }
}

#[tactic(auto, unfolding(crate::specs::Decoding::element_type))]
fn element_type(pc: u32, row: &OpRow, bytes: &[u8]) -> Result<Instr, CodeFault>
    ensures { result ≡ element_type pc row.now bytes.now }
{
    let code = byte_at(bytes, 0)?;
    if 4 <= code && code <= 11 {
        Ok(plain(pc, row, i32::from(code), 0))
    } else {
        Err(CodeFault::BadOperand)
    }
}

#[tactic(auto, unfolding(crate::specs::Decoding::dimensions))]
fn dimensions(pc: u32, row: &OpRow, bytes: &[u8]) -> Result<Instr, CodeFault>
    ensures { result ≡ dimensions pc row.now bytes.now }
{
    let constant = short_at(bytes, 0)?;
    let count = byte_at(bytes, 2)?;
    if count == 0 {
        Err(CodeFault::BadOperand)
    } else {
        Ok(plain(pc, row, i32::from(constant), i32::from(count)))
    }
}

#[tactic(auto, unfolding(crate::specs::Decoding::wide))]
fn wide(pc: u32, bytes: &[u8]) -> Result<Instr, CodeFault>
    ensures { result ≡ wide pc bytes.now }
{
    let op = byte_at(bytes, 0)?;
    let row = widened(op)?;
    let (_, operands) = bytes.split_at(1);
    match row.form {
        Form::LocalIncrement => wide_increment(pc, &row, operands),
        _ => wide_local(pc, &row, operands),
    }
}

fn widened(op: u8) -> Result<OpRow, CodeFault>
    ensures { result ≡ widened (row_of op) }
{
    match op_row(op) {
        Some(row) if row.takes_wide => Ok(row),
        _ => Err(CodeFault::BadOperand),
    }
}

#[tactic(auto, unfolding(crate::specs::Decoding::wide_local))]
fn wide_local(pc: u32, row: &OpRow, bytes: &[u8]) -> Result<Instr, CodeFault>
    ensures { result ≡ wide_local pc row.now bytes.now }
{
    let local = short_at(bytes, 0)?;
    Ok(Instr {
        pc,
        op: row.opcode,
        wide: true,
        length: 4,
        first: i32::from(local),
        second: 0,
    })
}

#[tactic(auto, unfolding(crate::specs::Decoding::wide_increment))]
fn wide_increment(pc: u32, row: &OpRow, bytes: &[u8]) -> Result<Instr, CodeFault>
    ensures { result ≡ wide_increment pc row.now bytes.now }
{
    let local = short_at(bytes, 0)?;
    let by = short_at(bytes, 2)?;
    let second = i32::from(by.cast_signed());
    Ok(Instr {
        pc,
        op: row.opcode,
        wide: true,
        length: 6,
        first: i32::from(local),
        second,
    })
}
