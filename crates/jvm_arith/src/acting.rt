//! Any instruction that stays in its frame.

ghost use Rattle.std.specs.Prelude.{◌≡◌};
ghost use Rattle.jvm_model.specs.declared.action.Action.TheVariants as actions;
ghost use Rattle.jvm_model.specs.Working.{work, worked};
ghost use Rattle.jvm_arith.specs.Frames.{ended_of};

use crate::branches::{branch_if_int, branch_if_ints, branch_if_null, branch_if_references};
use crate::frame_end::FrameEnd;
use crate::locals::{increment, load, store};
use crate::numbers::{ArithEnd, plain};
use crate::rearranging::rearrange;
use jvm_heap::{Operands, Slot, Slots};
use jvm_model::Action;

fn push_null(locals: &Slots, stack: &mut Operands) -> FrameEnd
    ensures { worked actions.PushNull (work locals.now stack.old) ≡ ended_of result (work locals.now stack.new) }
{
    if stack.push(Slot::Ref(0)) {
        FrameEnd::Next
    } else {
        FrameEnd::Stuck
    }
}

fn push_int(n: i32, locals: &Slots, stack: &mut Operands) -> FrameEnd
    ensures { worked (actions.PushInt n) (work locals.now stack.old) ≡ ended_of result (work locals.now stack.new) }
{
    if stack.push(Slot::Int(n)) {
        FrameEnd::Next
    } else {
        FrameEnd::Stuck
    }
}

fn push_long(n: i64, locals: &Slots, stack: &mut Operands) -> FrameEnd
    ensures { worked (actions.PushLong n) (work locals.now stack.old) ≡ ended_of result (work locals.now stack.new) }
{
    if stack.push(Slot::Long(n)) && stack.push(Slot::Top) {
        FrameEnd::Next
    } else {
        FrameEnd::Stuck
    }
}

/// Does an action on the locals and the operands of its frame.
pub fn act(action: Action, locals: &mut Slots, stack: &mut Operands) -> FrameEnd
    ensures { worked action (work locals.old stack.old) ≡ ended_of result (work locals.new stack.new) }
{
    match action {
        Action::Nop => FrameEnd::Next,
        Action::PushNull => push_null(locals, stack),
        Action::PushInt(n) => push_int(n, locals, stack),
        Action::PushLong(n) => push_long(n, locals, stack),
        Action::Plain(op) => match plain(op, stack) {
            ArithEnd::Done => FrameEnd::Next,
            ArithEnd::ByZero => FrameEnd::ByZero,
            ArithEnd::Stuck => FrameEnd::Stuck,
        },
        Action::Load(kind, at) => load(kind, at, locals, stack),
        Action::Store(kind, at) => store(kind, at, locals, stack),
        Action::Increment(at, by) => increment(at, by, locals, stack),
        Action::Rearrange(how) => {
            if rearrange(how, stack) {
                FrameEnd::Next
            } else {
                FrameEnd::Stuck
            }
        }
        Action::IfInt(test, target) => branch_if_int(test, target, locals, stack),
        Action::IfInts(test, target) => branch_if_ints(test, target, locals, stack),
        Action::IfReferences(same, target) => branch_if_references(same, target, locals, stack),
        Action::IfNull(null, target) => branch_if_null(null, target, locals, stack),
        Action::Goto(target) => FrameEnd::Jump(target),
    }
}
