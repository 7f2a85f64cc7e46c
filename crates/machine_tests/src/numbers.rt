//! Instructions on numbers.

use crate::frames::print_stack;
use jvm_arith::act;
use jvm_heap::{Operands, Slot, Slots};
use jvm_model::{Action, Plain};
use std::io;

const LEAST_LONG: i64 = -9_223_372_036_854_775_808;

/// Two operands, the second on top, and an instruction.
const OF_TWO: [(Slot, Slot, Plain); 21] = [
    (Slot::Int(2_147_483_647), Slot::Int(1), Plain::AddInt),
    (Slot::Int(-2_147_483_648), Slot::Int(1), Plain::SubtractInt),
    (Slot::Int(65_536), Slot::Int(65_537), Plain::MultiplyInt),
    (Slot::Int(-2_147_483_648), Slot::Int(-1), Plain::DivideInt),
    (Slot::Int(-7), Slot::Int(2), Plain::DivideInt),
    (Slot::Int(1), Slot::Int(0), Plain::DivideInt),
    (Slot::Int(-7), Slot::Int(3), Plain::RemainderInt),
    (Slot::Int(7), Slot::Int(-3), Plain::RemainderInt),
    (Slot::Int(1), Slot::Int(33), Plain::ShiftLeftInt),
    (Slot::Int(-8), Slot::Int(1), Plain::ShiftRightInt),
    (Slot::Int(-8), Slot::Int(1), Plain::UnsignedShiftRightInt),
    (Slot::Int(12), Slot::Int(10), Plain::AndInt),
    (Slot::Int(12), Slot::Int(10), Plain::OrInt),
    (Slot::Int(12), Slot::Int(10), Plain::XorInt),
    (Slot::Long(LEAST_LONG), Slot::Long(-1), Plain::AddLong),
    (Slot::Long(LEAST_LONG), Slot::Long(-1), Plain::DivideLong),
    (Slot::Long(-7), Slot::Long(0), Plain::RemainderLong),
    (Slot::Long(1), Slot::Int(65), Plain::ShiftLeftLong),
    (Slot::Long(-8), Slot::Int(1), Plain::UnsignedShiftRightLong),
    (Slot::Long(1), Slot::Long(2), Plain::CompareLong),
    (Slot::Long(2), Slot::Long(1), Plain::CompareLong),
];

const OF_ONE: [(Slot, Plain); 6] = [
    (Slot::Int(-2_147_483_648), Plain::NegateInt),
    (Slot::Long(4_294_967_297), Plain::LongToInt),
    (Slot::Int(-1), Plain::IntToLong),
    (Slot::Int(200), Plain::IntToByte),
    (Slot::Int(-1), Plain::IntToChar),
    (Slot::Int(40_000), Plain::IntToShort),
];

/// A value on the operand stack; a long has a second slot.
pub fn put(stack: &mut Operands, value: Slot) {
    let _ = stack.push(value);
    if let Slot::Long(_) = value {
        let _ = stack.push(Slot::Top);
    }
}

fn print_plain(rt: &HostRuntime, operands: &[Slot], op: Plain) -> io::Result<()> {
    let mut stack = Operands::with_limit(rt.alloc(), 4)?;
    let mut locals = Slots::repeated(rt.alloc(), Slot::Top, 0)?;
    for value in operands {
        put(&mut stack, *value);
    }
    let end = act(Action::Plain(op), &mut locals, &mut stack);
    print_stack(rt, end, &mut stack)
}

pub fn print_all(rt: &HostRuntime) -> io::Result<()> {
    for (lower, upper, op) in OF_TWO {
        print_plain(rt, &[lower, upper], op)?;
    }
    for (value, op) in OF_ONE {
        print_plain(rt, &[value], op)?;
    }
    Ok(())
}
