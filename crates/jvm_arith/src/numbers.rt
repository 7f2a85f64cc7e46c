//! The instructions that take numbers off the operand stack and give numbers.

ghost use Rattle.std.specs.Prelude.{◌≡◌, ◌%◌, ◌^◌, pos, [], ◌∷◌, Ok, option_map};
ghost use Rattle.std.specs.Int.{w8, w16, w32, cast_signed, cast_unsigned};
ghost use Rattle.jvm_tables.specs.declared.instruction.ValueKind.TheVariants as values;
ghost use Rattle.jvm_heap.specs.Operands.{all_taken};
ghost use Rattle.native_model.specs.Numbers.{narrowed};
ghost use Rattle.jvm_model.specs.declared.action.Plain.TheVariants as plains;
ghost use Rattle.jvm_model.specs.Arithmetic.{compared, effect_of, plain};
ghost use Rattle.jvm_arith.specs.Ends.{done_of};

use jvm_heap::{Operands, Slot};
use jvm_model::Plain;

/// How an instruction ends that stays in its frame.
#[derive(Clone, Copy, Drop)]
pub enum ArithEnd {
    /// It goes on.
    Done,
    /// It divides by zero.
    ByZero,
    /// It finds no such values to take, or no room. Verified code never does.
    Stuck,
}

fn compared(a: i64, b: i64) -> i32
    ensures { result ≡ compared a b }
{
    if a < b {
        -1
    } else if a == b {
        0
    } else {
        1
    }
}

fn narrowed(n: i64) -> i32
    ensures { result ≡ narrowed n }
{
    ((n.cast_unsigned() & 0xffff_ffff) as u32).cast_signed()
}

fn as_byte(n: i32) -> i32
    ensures { result ≡ cast_signed w8 (cast_unsigned w32 n % 2 ^ 8) }
{
    i32::from(((n.cast_unsigned() & 0xff) as u8).cast_signed())
}

fn as_char(n: i32) -> i32
    ensures { result ≡ pos (cast_unsigned w32 n % 2 ^ 16) }
{
    i32::from((n.cast_unsigned() & 0xffff) as u16)
}

fn as_short(n: i32) -> i32
    ensures { result ≡ cast_signed w16 (cast_unsigned w32 n % 2 ^ 16) }
{
    i32::from(((n.cast_unsigned() & 0xffff) as u16).cast_signed())
}

#[tactic(auto, unfolding(jvm_model::specs::Arithmetic::effect_of))]
fn give_int(stack: &mut Operands, n: i32) -> ArithEnd
    ensures { effect_of (values.Int ∷ []) (Ok (n, tt)) stack.old ≡ done_of result stack.new }
{
    if stack.push(Slot::Int(n)) {
        ArithEnd::Done
    } else {
        ArithEnd::Stuck
    }
}

#[tactic(auto, unfolding(jvm_model::specs::Arithmetic::effect_of))]
fn give_long(stack: &mut Operands, n: i64) -> ArithEnd
    ensures { effect_of (values.Long ∷ []) (Ok (n, tt)) stack.old ≡ done_of result stack.new }
{
    if stack.push(Slot::Long(n)) && stack.push(Slot::Top) {
        ArithEnd::Done
    } else {
        ArithEnd::Stuck
    }
}

// The upper value first, as in the three functions below.
pub(crate) fn take_ints(stack: &mut Operands) -> Option<(i32, i32)>
    ensures { all_taken (values.Int ∷ values.Int ∷ []) stack.old
        ≡ option_map (λ two. ((two.0, (two.1, tt)), stack.new)) result }
{
    let upper = stack.take_int()?;
    let lower = stack.take_int()?;
    Some((upper, lower))
}

pub(crate) fn take_references(stack: &mut Operands) -> Option<(u32, u32)>
    ensures { all_taken (values.Reference ∷ values.Reference ∷ []) stack.old
        ≡ option_map (λ two. ((two.0, (two.1, tt)), stack.new)) result }
{
    let upper = stack.take_reference()?;
    let lower = stack.take_reference()?;
    Some((upper, lower))
}

fn take_longs(stack: &mut Operands) -> Option<(i64, i64)>
    ensures { all_taken (values.Long ∷ values.Long ∷ []) stack.old
        ≡ option_map (λ two. ((two.0, (two.1, tt)), stack.new)) result }
{
    let upper = stack.take_long()?;
    let lower = stack.take_long()?;
    Some((upper, lower))
}

fn take_shifted_long(stack: &mut Operands) -> Option<(i32, i64)>
    ensures { all_taken (values.Int ∷ values.Long ∷ []) stack.old
        ≡ option_map (λ two. ((two.0, (two.1, tt)), stack.new)) result }
{
    let count = stack.take_int()?;
    let shifted = stack.take_long()?;
    Some((count, shifted))
}

#[tactic(auto, unfolding(jvm_model::specs::Arithmetic::plain))]
fn add_int(stack: &mut Operands) -> ArithEnd
    ensures { plain plains.AddInt stack.old ≡ done_of result stack.new }
{
    match take_ints(stack) {
        Some((b, a)) => give_int(stack, a.wrapping_add(b)),
        None => ArithEnd::Stuck,
    }
}

#[tactic(auto, unfolding(jvm_model::specs::Arithmetic::plain))]
fn add_long(stack: &mut Operands) -> ArithEnd
    ensures { plain plains.AddLong stack.old ≡ done_of result stack.new }
{
    match take_longs(stack) {
        Some((b, a)) => give_long(stack, a.wrapping_add(b)),
        None => ArithEnd::Stuck,
    }
}

#[tactic(auto, unfolding(jvm_model::specs::Arithmetic::plain))]
fn subtract_int(stack: &mut Operands) -> ArithEnd
    ensures { plain plains.SubtractInt stack.old ≡ done_of result stack.new }
{
    match take_ints(stack) {
        Some((b, a)) => give_int(stack, a.wrapping_sub(b)),
        None => ArithEnd::Stuck,
    }
}

#[tactic(auto, unfolding(jvm_model::specs::Arithmetic::plain))]
fn subtract_long(stack: &mut Operands) -> ArithEnd
    ensures { plain plains.SubtractLong stack.old ≡ done_of result stack.new }
{
    match take_longs(stack) {
        Some((b, a)) => give_long(stack, a.wrapping_sub(b)),
        None => ArithEnd::Stuck,
    }
}

#[tactic(auto, unfolding(jvm_model::specs::Arithmetic::plain))]
fn multiply_int(stack: &mut Operands) -> ArithEnd
    ensures { plain plains.MultiplyInt stack.old ≡ done_of result stack.new }
{
    match take_ints(stack) {
        Some((b, a)) => give_int(stack, a.wrapping_mul(b)),
        None => ArithEnd::Stuck,
    }
}

#[tactic(auto, unfolding(jvm_model::specs::Arithmetic::plain))]
fn multiply_long(stack: &mut Operands) -> ArithEnd
    ensures { plain plains.MultiplyLong stack.old ≡ done_of result stack.new }
{
    match take_longs(stack) {
        Some((b, a)) => give_long(stack, a.wrapping_mul(b)),
        None => ArithEnd::Stuck,
    }
}

#[tactic(auto, unfolding(jvm_model::specs::Arithmetic::plain, jvm_model::specs::Arithmetic::effect_of))]
fn divide_int(stack: &mut Operands) -> ArithEnd
    ensures { plain plains.DivideInt stack.old ≡ done_of result stack.new }
{
    match take_ints(stack) {
        Some((b, a)) => {
            if b == 0 {
                ArithEnd::ByZero
            } else {
                give_int(stack, a.wrapping_div(b))
            }
        }
        None => ArithEnd::Stuck,
    }
}

#[tactic(auto, unfolding(jvm_model::specs::Arithmetic::plain, jvm_model::specs::Arithmetic::effect_of))]
fn divide_long(stack: &mut Operands) -> ArithEnd
    ensures { plain plains.DivideLong stack.old ≡ done_of result stack.new }
{
    match take_longs(stack) {
        Some((b, a)) => {
            if b == 0 {
                ArithEnd::ByZero
            } else {
                give_long(stack, a.wrapping_div(b))
            }
        }
        None => ArithEnd::Stuck,
    }
}

#[tactic(auto, unfolding(jvm_model::specs::Arithmetic::plain, jvm_model::specs::Arithmetic::effect_of))]
fn remainder_int(stack: &mut Operands) -> ArithEnd
    ensures { plain plains.RemainderInt stack.old ≡ done_of result stack.new }
{
    match take_ints(stack) {
        Some((b, a)) => {
            if b == 0 {
                ArithEnd::ByZero
            } else {
                give_int(stack, a.wrapping_rem(b))
            }
        }
        None => ArithEnd::Stuck,
    }
}

#[tactic(auto, unfolding(jvm_model::specs::Arithmetic::plain, jvm_model::specs::Arithmetic::effect_of))]
fn remainder_long(stack: &mut Operands) -> ArithEnd
    ensures { plain plains.RemainderLong stack.old ≡ done_of result stack.new }
{
    match take_longs(stack) {
        Some((b, a)) => {
            if b == 0 {
                ArithEnd::ByZero
            } else {
                give_long(stack, a.wrapping_rem(b))
            }
        }
        None => ArithEnd::Stuck,
    }
}

#[tactic(auto, unfolding(jvm_model::specs::Arithmetic::plain))]
fn negate_int(stack: &mut Operands) -> ArithEnd
    ensures { plain plains.NegateInt stack.old ≡ done_of result stack.new }
{
    match stack.take_int() {
        Some(a) => give_int(stack, a.wrapping_neg()),
        None => ArithEnd::Stuck,
    }
}

#[tactic(auto, unfolding(jvm_model::specs::Arithmetic::plain))]
fn negate_long(stack: &mut Operands) -> ArithEnd
    ensures { plain plains.NegateLong stack.old ≡ done_of result stack.new }
{
    match stack.take_long() {
        Some(a) => give_long(stack, a.wrapping_neg()),
        None => ArithEnd::Stuck,
    }
}

#[tactic(auto, unfolding(jvm_model::specs::Arithmetic::plain))]
fn shift_left_int(stack: &mut Operands) -> ArithEnd
    ensures { plain plains.ShiftLeftInt stack.old ≡ done_of result stack.new }
{
    match take_ints(stack) {
        Some((count, a)) => give_int(stack, a.wrapping_shl(count.cast_unsigned())),
        None => ArithEnd::Stuck,
    }
}

#[tactic(auto, unfolding(jvm_model::specs::Arithmetic::plain))]
fn shift_left_long(stack: &mut Operands) -> ArithEnd
    ensures { plain plains.ShiftLeftLong stack.old ≡ done_of result stack.new }
{
    match take_shifted_long(stack) {
        Some((count, a)) => give_long(stack, a.wrapping_shl(count.cast_unsigned())),
        None => ArithEnd::Stuck,
    }
}

#[tactic(auto, unfolding(jvm_model::specs::Arithmetic::plain))]
fn shift_right_int(stack: &mut Operands) -> ArithEnd
    ensures { plain plains.ShiftRightInt stack.old ≡ done_of result stack.new }
{
    match take_ints(stack) {
        Some((count, a)) => give_int(stack, a.wrapping_shr(count.cast_unsigned())),
        None => ArithEnd::Stuck,
    }
}

#[tactic(auto, unfolding(jvm_model::specs::Arithmetic::plain))]
fn shift_right_long(stack: &mut Operands) -> ArithEnd
    ensures { plain plains.ShiftRightLong stack.old ≡ done_of result stack.new }
{
    match take_shifted_long(stack) {
        Some((count, a)) => give_long(stack, a.wrapping_shr(count.cast_unsigned())),
        None => ArithEnd::Stuck,
    }
}

#[tactic(auto, unfolding(jvm_model::specs::Arithmetic::plain))]
fn unsigned_shift_right_int(stack: &mut Operands) -> ArithEnd
    ensures { plain plains.UnsignedShiftRightInt stack.old ≡ done_of result stack.new }
{
    match take_ints(stack) {
        Some((count, a)) => give_int(
            stack,
            a.cast_unsigned()
                .wrapping_shr(count.cast_unsigned())
                .cast_signed(),
        ),
        None => ArithEnd::Stuck,
    }
}

#[tactic(auto, unfolding(jvm_model::specs::Arithmetic::plain))]
fn unsigned_shift_right_long(stack: &mut Operands) -> ArithEnd
    ensures { plain plains.UnsignedShiftRightLong stack.old ≡ done_of result stack.new }
{
    match take_shifted_long(stack) {
        Some((count, a)) => give_long(
            stack,
            a.cast_unsigned()
                .wrapping_shr(count.cast_unsigned())
                .cast_signed(),
        ),
        None => ArithEnd::Stuck,
    }
}

#[tactic(auto, unfolding(jvm_model::specs::Arithmetic::plain))]
fn and_int(stack: &mut Operands) -> ArithEnd
    ensures { plain plains.AndInt stack.old ≡ done_of result stack.new }
{
    match take_ints(stack) {
        Some((b, a)) => give_int(stack, a & b),
        None => ArithEnd::Stuck,
    }
}

#[tactic(auto, unfolding(jvm_model::specs::Arithmetic::plain))]
fn and_long(stack: &mut Operands) -> ArithEnd
    ensures { plain plains.AndLong stack.old ≡ done_of result stack.new }
{
    match take_longs(stack) {
        Some((b, a)) => give_long(stack, a & b),
        None => ArithEnd::Stuck,
    }
}

#[tactic(auto, unfolding(jvm_model::specs::Arithmetic::plain))]
fn or_int(stack: &mut Operands) -> ArithEnd
    ensures { plain plains.OrInt stack.old ≡ done_of result stack.new }
{
    match take_ints(stack) {
        Some((b, a)) => give_int(stack, a | b),
        None => ArithEnd::Stuck,
    }
}

#[tactic(auto, unfolding(jvm_model::specs::Arithmetic::plain))]
fn or_long(stack: &mut Operands) -> ArithEnd
    ensures { plain plains.OrLong stack.old ≡ done_of result stack.new }
{
    match take_longs(stack) {
        Some((b, a)) => give_long(stack, a | b),
        None => ArithEnd::Stuck,
    }
}

#[tactic(auto, unfolding(jvm_model::specs::Arithmetic::plain))]
fn xor_int(stack: &mut Operands) -> ArithEnd
    ensures { plain plains.XorInt stack.old ≡ done_of result stack.new }
{
    match take_ints(stack) {
        Some((b, a)) => give_int(stack, a ^ b),
        None => ArithEnd::Stuck,
    }
}

#[tactic(auto, unfolding(jvm_model::specs::Arithmetic::plain))]
fn xor_long(stack: &mut Operands) -> ArithEnd
    ensures { plain plains.XorLong stack.old ≡ done_of result stack.new }
{
    match take_longs(stack) {
        Some((b, a)) => give_long(stack, a ^ b),
        None => ArithEnd::Stuck,
    }
}

#[tactic(auto, unfolding(jvm_model::specs::Arithmetic::plain))]
fn int_to_long(stack: &mut Operands) -> ArithEnd
    ensures { plain plains.IntToLong stack.old ≡ done_of result stack.new }
{
    match stack.take_int() {
        Some(a) => give_long(stack, i64::from(a)),
        None => ArithEnd::Stuck,
    }
}

#[tactic(auto, unfolding(jvm_model::specs::Arithmetic::plain))]
fn long_to_int(stack: &mut Operands) -> ArithEnd
    ensures { plain plains.LongToInt stack.old ≡ done_of result stack.new }
{
    match stack.take_long() {
        Some(a) => give_int(stack, narrowed(a)),
        None => ArithEnd::Stuck,
    }
}

#[tactic(auto, unfolding(jvm_model::specs::Arithmetic::plain))]
fn int_to_byte(stack: &mut Operands) -> ArithEnd
    ensures { plain plains.IntToByte stack.old ≡ done_of result stack.new }
{
    match stack.take_int() {
        Some(a) => give_int(stack, as_byte(a)),
        None => ArithEnd::Stuck,
    }
}

#[tactic(auto, unfolding(jvm_model::specs::Arithmetic::plain))]
fn int_to_char(stack: &mut Operands) -> ArithEnd
    ensures { plain plains.IntToChar stack.old ≡ done_of result stack.new }
{
    match stack.take_int() {
        Some(a) => give_int(stack, as_char(a)),
        None => ArithEnd::Stuck,
    }
}

#[tactic(auto, unfolding(jvm_model::specs::Arithmetic::plain))]
fn int_to_short(stack: &mut Operands) -> ArithEnd
    ensures { plain plains.IntToShort stack.old ≡ done_of result stack.new }
{
    match stack.take_int() {
        Some(a) => give_int(stack, as_short(a)),
        None => ArithEnd::Stuck,
    }
}

#[tactic(auto, unfolding(jvm_model::specs::Arithmetic::plain))]
fn compare_long(stack: &mut Operands) -> ArithEnd
    ensures { plain plains.CompareLong stack.old ≡ done_of result stack.new }
{
    match take_longs(stack) {
        Some((b, a)) => give_int(stack, compared(a, b)),
        None => ArithEnd::Stuck,
    }
}

/// Does an instruction on numbers (JVMS 6.5). It takes no memory.
pub fn plain(op: Plain, stack: &mut Operands) -> ArithEnd
    ensures { plain op stack.old ≡ done_of result stack.new }
{
    match op {
        Plain::AddInt => add_int(stack),
        Plain::AddLong => add_long(stack),
        Plain::SubtractInt => subtract_int(stack),
        Plain::SubtractLong => subtract_long(stack),
        Plain::MultiplyInt => multiply_int(stack),
        Plain::MultiplyLong => multiply_long(stack),
        Plain::DivideInt => divide_int(stack),
        Plain::DivideLong => divide_long(stack),
        Plain::RemainderInt => remainder_int(stack),
        Plain::RemainderLong => remainder_long(stack),
        Plain::NegateInt => negate_int(stack),
        Plain::NegateLong => negate_long(stack),
        Plain::ShiftLeftInt => shift_left_int(stack),
        Plain::ShiftLeftLong => shift_left_long(stack),
        Plain::ShiftRightInt => shift_right_int(stack),
        Plain::ShiftRightLong => shift_right_long(stack),
        Plain::UnsignedShiftRightInt => unsigned_shift_right_int(stack),
        Plain::UnsignedShiftRightLong => unsigned_shift_right_long(stack),
        Plain::AndInt => and_int(stack),
        Plain::AndLong => and_long(stack),
        Plain::OrInt => or_int(stack),
        Plain::OrLong => or_long(stack),
        Plain::XorInt => xor_int(stack),
        Plain::XorLong => xor_long(stack),
        Plain::IntToLong => int_to_long(stack),
        Plain::LongToInt => long_to_int(stack),
        Plain::IntToByte => int_to_byte(stack),
        Plain::IntToChar => int_to_char(stack),
        Plain::IntToShort => int_to_short(stack),
        Plain::CompareLong => compare_long(stack),
    }
}
