//! Instructions on slots and locals, and branches.

use crate::numbers::put;
use jvm_arith::{FrameEnd, act};
use jvm_heap::{Operands, Slot, Slots};
use jvm_model::{Action, Rearrangement, Test};
use jvm_tables::ValueKind;
use std::io;

/// Each on the slots 1, 2, 3 and 4, of which 4 is on top.
const REARRANGEMENTS: [Rearrangement; 9] = [
    Rearrangement::Pop,
    Rearrangement::Pop2,
    Rearrangement::Dup,
    Rearrangement::DupX1,
    Rearrangement::DupX2,
    Rearrangement::Dup2,
    Rearrangement::Dup2X1,
    Rearrangement::Dup2X2,
    Rearrangement::Swap,
];

/// One after another in one frame of four locals.
const ACTIONS: [Action; 12] = [
    Action::PushLong(5),
    Action::Store(ValueKind::Long, 1),
    Action::PushInt(7),
    Action::Store(ValueKind::Int, 3),
    Action::Increment(3, -10),
    Action::Load(ValueKind::Int, 3),
    Action::IfInt(Test::Lt, 40),
    Action::PushNull,
    Action::IfNull(true, 50),
    Action::Load(ValueKind::Int, 1),
    Action::Store(ValueKind::Int, 4),
    Action::Load(ValueKind::Long, 1),
];

fn print_slot(rt: &HostRuntime, slot: Slot) -> io::Result<()> {
    match slot {
        Slot::Top => print!(rt; " top"),
        Slot::Int(n) => print!(rt; " {n}"),
        Slot::Long(n) => print!(rt; " {n}L"),
        Slot::Ref(n) => print!(rt; " ref {n}"),
    }
}

fn print_end(rt: &HostRuntime, end: FrameEnd) -> io::Result<()> {
    match end {
        FrameEnd::Next => print!(rt; "next:"),
        FrameEnd::Jump(target) => print!(rt; "to {target}:"),
        FrameEnd::ByZero => print!(rt; "by zero:"),
        FrameEnd::Stuck => print!(rt; "stuck:"),
    }
}

/// How an instruction ended, and the operands that it left, the top first.
pub fn print_stack(rt: &HostRuntime, end: FrameEnd, stack: &mut Operands) -> io::Result<()> {
    print_end(rt, end)?;
    for _ in 0..8 {
        if let Some(slot) = stack.pop() {
            print_slot(rt, slot)?;
        }
    }
    println!(rt; "")
}

fn print_rearrangement(rt: &HostRuntime, how: Rearrangement) -> io::Result<()> {
    let mut stack = Operands::with_limit(rt.alloc(), 6)?;
    let mut locals = Slots::repeated(rt.alloc(), Slot::Top, 0)?;
    for n in 1..5 {
        put(&mut stack, Slot::Int(n));
    }
    let end = act(Action::Rearrange(how), &mut locals, &mut stack);
    print_stack(rt, end, &mut stack)
}

fn print_actions(rt: &HostRuntime) -> io::Result<()> {
    let mut stack = Operands::with_limit(rt.alloc(), 2)?;
    let mut locals = Slots::repeated(rt.alloc(), Slot::Top, 4)?;
    for action in ACTIONS {
        print_end(rt, act(action, &mut locals, &mut stack))?;
    }
    print_stack(rt, FrameEnd::Next, &mut stack)
}

pub fn print_all(rt: &HostRuntime) -> io::Result<()> {
    for how in REARRANGEMENTS {
        print_rearrangement(rt, how)?;
    }
    print_actions(rt)
}
