//! The branches (JVMS 6.5).

ghost use Rattle.std.specs.Prelude.{◌≡◌};
ghost use Rattle.jvm_model.specs.Working.{work, passes, tested, compared, references_compared, null_tested, is_as_wanted};
ghost use Rattle.jvm_arith.specs.Frames.{ended_of};

use crate::frame_end::FrameEnd;
use crate::numbers::{take_ints, take_references};
use jvm_heap::{Operands, Slots};
use jvm_model::Test;

fn passes(test: Test, a: i32, b: i32) -> bool
    ensures { result ≡ passes test a b }
{
    match test {
        Test::Eq => a == b,
        Test::Ne => a != b,
        Test::Lt => a < b,
        Test::Ge => a >= b,
        Test::Gt => a > b,
        Test::Le => a <= b,
    }
}

fn is_as_wanted(wanted: bool, holds: bool) -> bool
    ensures { result ≡ is_as_wanted wanted holds }
{
    if wanted { holds } else { !holds }
}

/// Goes to a target where an int passes a test against 0.
#[tactic(auto, unfolding(jvm_model::specs::Working::tested))]
pub fn branch_if_int(test: Test, target: u32, locals: &Slots, stack: &mut Operands) -> FrameEnd
    ensures { tested test target (work locals.now stack.old) ≡ ended_of result (work locals.now stack.new) }
{
    match stack.take_int() {
        Some(n) => {
            if passes(test, n, 0) {
                FrameEnd::Jump(target)
            } else {
                FrameEnd::Next
            }
        }
        None => FrameEnd::Stuck,
    }
}

/// Goes to a target where two ints pass a test.
#[tactic(auto, unfolding(jvm_model::specs::Working::compared))]
pub fn branch_if_ints(test: Test, target: u32, locals: &Slots, stack: &mut Operands) -> FrameEnd
    ensures { compared test target (work locals.now stack.old) ≡ ended_of result (work locals.now stack.new) }
{
    match take_ints(stack) {
        Some((upper, lower)) => {
            if passes(test, lower, upper) {
                FrameEnd::Jump(target)
            } else {
                FrameEnd::Next
            }
        }
        None => FrameEnd::Stuck,
    }
}

/// Goes to a target where two references are the same, or where they aren't.
#[tactic(auto, unfolding(jvm_model::specs::Working::references_compared))]
pub fn branch_if_references(
    same: bool,
    target: u32,
    locals: &Slots,
    stack: &mut Operands,
) -> FrameEnd
    ensures { references_compared same target (work locals.now stack.old) ≡ ended_of result (work locals.now stack.new) }
{
    match take_references(stack) {
        Some((upper, lower)) => {
            if is_as_wanted(same, lower == upper) {
                FrameEnd::Jump(target)
            } else {
                FrameEnd::Next
            }
        }
        None => FrameEnd::Stuck,
    }
}

/// Goes to a target where a reference is null, or where it isn't.
#[tactic(auto, unfolding(jvm_model::specs::Working::null_tested))]
pub fn branch_if_null(null: bool, target: u32, locals: &Slots, stack: &mut Operands) -> FrameEnd
    ensures { null_tested null target (work locals.now stack.old) ≡ ended_of result (work locals.now stack.new) }
{
    match stack.take_reference() {
        Some(n) => {
            if is_as_wanted(null, n == 0) {
                FrameEnd::Jump(target)
            } else {
                FrameEnd::Next
            }
        }
        None => FrameEnd::Stuck,
    }
}
