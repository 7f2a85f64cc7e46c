//! The instructions on slots of the operand stack, whatever they hold (JVMS 6.5, pop to swap). In the names of slots `a` is
//! the uppermost.

ghost use Rattle.std.specs.Prelude.{◌≡◌, Some, None, option_map, if◌then◌else◌};
ghost use Rattle.jvm_model.specs.declared.action.Rearrangement.TheVariants as rearrangements;
ghost use Rattle.jvm_model.specs.Working.{two_popped, three_popped, four_popped, rearranged};

use jvm_heap::{Operands, Slot};
use jvm_model::Rearrangement;

fn pop_two(stack: &mut Operands) -> Option<(Slot, Slot)>
    ensures { two_popped stack.old ≡ option_map (λ found. (found, stack.new)) result }
{
    let a = stack.pop()?;
    let b = stack.pop()?;
    Some((a, b))
}

fn pop_three(stack: &mut Operands) -> Option<(Slot, Slot, Slot)>
    ensures { three_popped stack.old ≡ option_map (λ found. (found, stack.new)) result }
{
    let (a, b) = pop_two(stack)?;
    let c = stack.pop()?;
    Some((a, b, c))
}

fn pop_four(stack: &mut Operands) -> Option<(Slot, Slot, Slot, Slot)>
    ensures { four_popped stack.old ≡ option_map (λ found. (found, stack.new)) result }
{
    let (a, b, c) = pop_three(stack)?;
    let d = stack.pop()?;
    Some((a, b, c, d))
}

#[tactic(auto, unfolding(jvm_model::specs::Working::rearranged))]
fn drop_one(stack: &mut Operands) -> bool
    ensures { rearranged rearrangements.Pop stack.old ≡ (if result then Some stack.new else None) }
{
    stack.pop().is_some()
}

#[tactic(auto, unfolding(jvm_model::specs::Working::rearranged))]
fn drop_two(stack: &mut Operands) -> bool
    ensures { rearranged rearrangements.Pop2 stack.old ≡ (if result then Some stack.new else None) }
{
    pop_two(stack).is_some()
}

#[tactic(auto, unfolding(jvm_model::specs::Working::rearranged))]
fn repeat_one(stack: &mut Operands) -> bool
    ensures { rearranged rearrangements.Dup stack.old ≡ (if result then Some stack.new else None) }
{
    match stack.pop() {
        Some(a) => stack.push(a) && stack.push(a),
        None => false,
    }
}

#[tactic(auto, unfolding(jvm_model::specs::Working::rearranged))]
fn repeat_one_below_one(stack: &mut Operands) -> bool
    ensures { rearranged rearrangements.DupX1 stack.old ≡ (if result then Some stack.new else None) }
{
    match pop_two(stack) {
        Some((a, b)) => stack.push(a) && stack.push(b) && stack.push(a),
        None => false,
    }
}

#[tactic(auto, unfolding(jvm_model::specs::Working::rearranged))]
fn repeat_one_below_two(stack: &mut Operands) -> bool
    ensures { rearranged rearrangements.DupX2 stack.old ≡ (if result then Some stack.new else None) }
{
    match pop_three(stack) {
        Some((a, b, c)) => stack.push(a) && stack.push(c) && stack.push(b) && stack.push(a),
        None => false,
    }
}

#[tactic(auto, unfolding(jvm_model::specs::Working::rearranged))]
fn repeat_two(stack: &mut Operands) -> bool
    ensures { rearranged rearrangements.Dup2 stack.old ≡ (if result then Some stack.new else None) }
{
    match pop_two(stack) {
        Some((a, b)) => stack.push(b) && stack.push(a) && stack.push(b) && stack.push(a),
        None => false,
    }
}

#[tactic(auto, unfolding(jvm_model::specs::Working::rearranged))]
fn repeat_two_below_one(stack: &mut Operands) -> bool
    ensures { rearranged rearrangements.Dup2X1 stack.old ≡ (if result then Some stack.new else None) }
{
    match pop_three(stack) {
        Some((a, b, c)) => {
            stack.push(b) && stack.push(a) && stack.push(c) && stack.push(b) && stack.push(a)
        }
        None => false,
    }
}

#[tactic(auto, unfolding(jvm_model::specs::Working::rearranged))]
fn repeat_two_below_two(stack: &mut Operands) -> bool
    ensures { rearranged rearrangements.Dup2X2 stack.old ≡ (if result then Some stack.new else None) }
{
    match pop_four(stack) {
        Some((a, b, c, d)) => {
            stack.push(b)
                && stack.push(a)
                && stack.push(d)
                && stack.push(c)
                && stack.push(b)
                && stack.push(a)
        }
        None => false,
    }
}

#[tactic(auto, unfolding(jvm_model::specs::Working::rearranged))]
fn swap(stack: &mut Operands) -> bool
    ensures { rearranged rearrangements.Swap stack.old ≡ (if result then Some stack.new else None) }
{
    match pop_two(stack) {
        Some((a, b)) => stack.push(a) && stack.push(b),
        None => false,
    }
}

/// Takes and gives slots; false where there are no such slots, or no room.
pub fn rearrange(how: Rearrangement, stack: &mut Operands) -> bool
    ensures { rearranged how stack.old ≡ (if result then Some stack.new else None) }
{
    match how {
        Rearrangement::Pop => drop_one(stack),
        Rearrangement::Pop2 => drop_two(stack),
        Rearrangement::Dup => repeat_one(stack),
        Rearrangement::DupX1 => repeat_one_below_one(stack),
        Rearrangement::DupX2 => repeat_one_below_two(stack),
        Rearrangement::Dup2 => repeat_two(stack),
        Rearrangement::Dup2X1 => repeat_two_below_one(stack),
        Rearrangement::Dup2X2 => repeat_two_below_two(stack),
        Rearrangement::Swap => swap(stack),
    }
}
