//! The switches (JVMS 6.5, `tableswitch` and `lookupswitch`).

ghost use Rattle.std.specs.Prelude.{◌≡◌, ◌+◌, ◌-◌, ◌*◌, ◌<◌, ◌≤◌, ◌^◌, length, int_lt};
ghost use Rattle.jvm_tables.specs.Switches.{word, padding, switch_instr, keys_rise, lookup_pairs, table_switch, lookup_switch};

use crate::code::{CodeFault, Instr};
use crate::instruction::OpRow;
use crate::reading::word_at;

// The bytes between the opcode of a switch and its default.
pub(crate) fn padding(pc: u32) -> usize
    ensures { result ≡ padding pc }
{
    3 - (pc % 4) as usize
}

fn switch_instr(pc: u32, row: &OpRow, operands: usize, default: i32) -> Instr
    requires { operands ≤ 65535 }
    ensures { result ≡ switch_instr pc row.now (1 + operands) default }
{
    Instr {
        pc,
        op: row.opcode,
        wide: false,
        length: 1 + operands as u32,
        first: default,
        second: 0,
    }
}

#[tactic(auto, unfolding(crate::specs::Switches::table_switch))]
pub(crate) fn table_switch(pc: u32, row: &OpRow, bytes: &[u8]) -> Result<Instr, CodeFault>
    requires { length bytes.now ≤ 65535 }
    ensures { result ≡ table_switch pc row.now bytes.now }
{
    let at = padding(pc);
    let default = word_at(bytes, at)?;
    let low = word_at(bytes, at + 4)?;
    let high = word_at(bytes, at + 8)?;
    if high < low {
        return Err(CodeFault::BadOperand);
    }
    let size = at + 12 + 4 * (high.abs_diff(low) as usize + 1);
    if bytes.len() < size {
        return Err(CodeFault::CutShort);
    }
    Ok(switch_instr(pc, row, size, default))
}

#[tactic(auto, unfolding(crate::specs::Switches::lookup_switch))]
pub(crate) fn lookup_switch(pc: u32, row: &OpRow, bytes: &[u8]) -> Result<Instr, CodeFault>
    requires { length bytes.now ≤ 65535 }
    ensures { result ≡ lookup_switch pc row.now bytes.now }
{
    let at = padding(pc);
    let default = word_at(bytes, at)?;
    let count = word_at(bytes, at + 4)?;
    if count < 0 {
        return Err(CodeFault::BadOperand);
    }
    let pairs = count.unsigned_abs() as usize;
    let size = at + 8 + 8 * pairs;
    if bytes.len() < size {
        return Err(CodeFault::CutShort);
    }
    if !keys_rise(bytes, at + 8, pairs) {
        return Err(CodeFault::BadOperand);
    }
    Ok(switch_instr(pc, row, size, default))
}

// The word at a place inside the bytes.
#[tactic(auto, unfolding(crate::specs::Switches::word))]
pub(crate) fn word(bytes: &[u8], at: usize) -> i32
    requires { at + 4 ≤ length bytes.now }
    ensures { result ≡ word bytes.now at }
{
    i32::from_be_bytes([bytes[at], bytes[at + 1], bytes[at + 2], bytes[at + 3]])
}

// Whether the key of a pair is below that of the next one.
fn rises(bytes: &[u8], at: usize) -> bool
    requires { at + 12 ≤ length bytes.now }
    ensures { result ≡ int_lt (word bytes.now at) (word bytes.now (at + 8)) }
{
    word(bytes, at) < word(bytes, at + 8)
}

// Whether so many pairs, from a place on, have their keys in rising order.
#[tactic(auto, using(crate::proofs::Pairs::rise_on, crate::proofs::Pairs::fall, crate::proofs::Pairs::last_rises))]
fn keys_rise(bytes: &[u8], at: usize, count: usize) -> bool
    requires { at + 8 * count ≤ length bytes.now }
    ensures { result ≡ keys_rise (lookup_pairs count at bytes.now) }
{
    for k in 1..count {
        if !rises(bytes, at + 8 * (k - 1)) {
            return false;
        }
    }
    true
}
