//! Where a decoded switch goes.

ghost use Rattle.std.specs.Prelude.{◌≡◌, ◌+◌, ◌-◌, ◌*◌, ◌<◌, ◌≤◌, ◌-ℤ◌, ◌+ℤ◌, ◌&&◌, Some, drop, length, false, not, pos, slice_get, int_lt, unsigned_abs};
ghost use Rattle.std.specs.Ordering.{int_eq};
ghost use Rattle.jvm_tables.specs.declared.instruction.Form.TheVariants.{TableSwitch, LookupSwitch};
ghost use Rattle.jvm_tables.specs.Agreement.{is_switch};
ghost use Rattle.jvm_tables.specs.Opcodes.{row_of};
ghost use Rattle.jvm_tables.specs.Switches.{word, padding, IsTable, IsLookup, table_switch_pairs, lookup_switch_pairs, table_pairs, lookup_pairs, pairs_of, chosen, target};
ghost use Rattle.jvm_tables.specs.Switching.{IsSwitchAt, form_of, pairs_at, cases_at, target_at};

use crate::code::Instr;
use crate::instruction::Form;
use crate::opcodes::op_row;
use crate::switches::{padding, word};

/// Whether a decoded instruction is a switch.
pub fn is_switch(instr: &Instr) -> bool
    ensures { result ≡ is_switch (form_of (row_of instr.now.op)) }
{
    matches!(form(instr.op), Form::TableSwitch | Form::LookupSwitch)
}

/// Where a switch goes at a key: its pc and the offset of the key, or the default offset where no
/// pair has the key, modulo 2^32.
pub fn switch_target(code: &[u8], instr: &Instr, key: i32) -> u32
    requires { IsSwitchAt code.now instr.now }
    ensures { result ≡ target_at code.now instr.now key }
{
    let bytes = operands(code, instr);
    let offset = match form(instr.op) {
        Form::TableSwitch => table_offset(bytes, instr.pc, instr.first, key),
        Form::LookupSwitch => lookup_offset(bytes, instr.pc, instr.first, key),
        _ => instr.first,
    };
    instr.pc.wrapping_add_signed(offset)
}

/// The number of keys that a switch has.
pub fn switch_len(code: &[u8], instr: &Instr) -> usize
    requires { IsSwitchAt code.now instr.now }
    ensures { result ≡ length (pairs_at code.now instr.now) }
{
    let bytes = operands(code, instr);
    match form(instr.op) {
        Form::TableSwitch => table_len(bytes, instr.pc),
        Form::LookupSwitch => lookup_len(bytes, instr.pc),
        _ => 0,
    }
}

/// The key at a place among the keys of a switch, which rise, and where it leads.
#[tactic(auto, using(crate::proofs::Cases::case_at))]
pub fn switch_case(code: &[u8], instr: &Instr, at: usize) -> (i32, u32)
    requires switch { IsSwitchAt code.now instr.now }
    requires there { at < length (pairs_at code.now instr.now) }
    ensures { slice_get (cases_at code.now instr.now) at ≡ Some result }
{
    case_of(instr.pc, pair_at(code, instr, at))
}

fn case_of(pc: u32, pair: (i32, i32)) -> (i32, u32)
    ensures { result ≡ (pair.0, target pc pair.1) }
{
    (pair.0, pc.wrapping_add_signed(pair.1))
}

// The key and the offset at a place among the pairs of a switch.
fn pair_at(code: &[u8], instr: &Instr, at: usize) -> (i32, i32)
    requires switch { IsSwitchAt code.now instr.now }
    requires there { at < length (pairs_at code.now instr.now) }
    ensures { slice_get (pairs_at code.now instr.now) at ≡ Some result }
{
    let bytes = operands(code, instr);
    match form(instr.op) {
        Form::TableSwitch => table_pair(bytes, instr.pc, at),
        Form::LookupSwitch => lookup_pair(bytes, instr.pc, at),
        _ => unreachable!(),
    }
}

// The bytes behind the opcode, which hold a whole switch.
fn operands<'a>(code: &'a [u8], instr: &Instr) -> &'a [u8]
    requires { IsSwitchAt code.now instr.now }
    ensures bytes { result.now ≡ drop 1 (drop instr.now.pc code.now) }
    ensures table { form_of (row_of instr.now.op) ≡ TableSwitch → IsTable instr.now.pc result.now }
    ensures lookup { form_of (row_of instr.now.op) ≡ LookupSwitch → IsLookup instr.now.pc result.now }
{
    let (_, bytes) = code.split_at(instr.pc as usize);
    let (_, operands) = bytes.split_at(1);
    operands
}

fn form(op: u8) -> Form
    ensures { result ≡ form_of (row_of op) }
{
    match op_row(op) {
        None => Form::Bare,
        Some(row) => row.form,
    }
}

#[tactic(auto, using(crate::proofs::Cases::table_chosen), unfolding(crate::specs::Switches::table_switch_pairs))]
fn table_offset(bytes: &[u8], pc: u32, default: i32, key: i32) -> i32
    requires { IsTable pc bytes.now }
    ensures { result ≡ chosen default key (table_switch_pairs pc bytes.now) }
{
    let at = padding(pc);
    let low = word(bytes, at + 4);
    let high = word(bytes, at + 8);
    if is_between(low, key, high) {
        word(bytes, at + 12 + 4 * steps(low, key))
    } else {
        default
    }
}

fn is_between(low: i32, key: i32, high: i32) -> bool
    ensures { result ≡ (not (int_lt key low) && not (int_lt high key)) }
{
    !(key < low) && !(high < key)
}

// How many keys lie from the lowest on before a key.
fn steps(low: i32, key: i32) -> usize
    ensures { result ≡ unsigned_abs (key -ℤ low) }
{
    key.abs_diff(low) as usize
}

#[tactic(auto, unfolding(crate::specs::Switches::lookup_switch_pairs))]
fn lookup_offset(bytes: &[u8], pc: u32, default: i32, key: i32) -> i32
    requires { IsLookup pc bytes.now }
    ensures { result ≡ chosen default key (lookup_switch_pairs pc bytes.now) }
{
    let at = padding(pc);
    let count = word(bytes, at + 4).unsigned_abs() as usize;
    offset_among(bytes, at + 8, count, default, key)
}

// The offset of a key among so many pairs from a place on, else the default.
#[tactic(auto, using(crate::proofs::Cases::lookup_found, crate::proofs::Cases::lookup_on))]
fn offset_among(bytes: &[u8], at: usize, count: usize, default: i32, key: i32) -> i32
    requires { at + 8 * count ≤ length bytes.now }
    ensures { result ≡ chosen default key (lookup_pairs count at bytes.now) }
{
    for k in 0..count {
        if has_key(bytes, at + 8 * k, key) {
            return word(bytes, at + 8 * k + 4);
        }
    }
    default
}

fn has_key(bytes: &[u8], at: usize, key: i32) -> bool
    requires { at + 4 ≤ length bytes.now }
    ensures { result ≡ int_eq (word bytes.now at) key }
{
    word(bytes, at) == key
}

#[tactic(auto, using(crate::proofs::Cases::table_count))]
fn table_len(bytes: &[u8], pc: u32) -> usize
    requires { IsTable pc bytes.now }
    ensures { result ≡ length (table_switch_pairs pc bytes.now) }
{
    let at = padding(pc);
    steps(word(bytes, at + 4), word(bytes, at + 8)) + 1
}

#[tactic(auto, using(crate::proofs::Cases::lookup_count))]
fn lookup_len(bytes: &[u8], pc: u32) -> usize
    requires { IsLookup pc bytes.now }
    ensures { result ≡ length (lookup_switch_pairs pc bytes.now) }
{
    word(bytes, padding(pc) + 4).unsigned_abs() as usize
}

#[tactic(auto, using(crate::proofs::Cases::table_count, crate::proofs::Cases::table_pair))]
fn table_pair(bytes: &[u8], pc: u32, k: usize) -> (i32, i32)
    requires table { IsTable pc bytes.now }
    requires there { k < length (table_switch_pairs pc bytes.now) }
    ensures { slice_get (table_switch_pairs pc bytes.now) k ≡ Some result }
{
    let at = padding(pc);
    let low = word(bytes, at + 4);
    let high = word(bytes, at + 8);
    (key_after(low, high, k), word(bytes, at + 12 + 4 * k))
}

// The key so many steps after the lowest.
fn key_after(low: i32, high: i32, steps: usize) -> i32
    requires bounds { int_lt high low ≡ false }
    requires within { steps ≤ unsigned_abs (high -ℤ low) }
    ensures { result ≡ low +ℤ pos steps }
{
    (i64::from(low) + steps as i64) as i32
}

#[tactic(auto, using(crate::proofs::Cases::lookup_count, crate::proofs::Cases::lookup_pair))]
fn lookup_pair(bytes: &[u8], pc: u32, k: usize) -> (i32, i32)
    requires lookup { IsLookup pc bytes.now }
    requires there { k < length (lookup_switch_pairs pc bytes.now) }
    ensures { slice_get (lookup_switch_pairs pc bytes.now) k ≡ Some result }
{
    let at = padding(pc) + 8 + 8 * k;
    (word(bytes, at), word(bytes, at + 4))
}
