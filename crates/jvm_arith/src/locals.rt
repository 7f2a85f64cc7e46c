//! The instructions on locals: loads, stores and iinc (JVMS 6.5).

ghost use Rattle.std.specs.Prelude.{◌≡◌, Some, None, if◌then◌else◌};
ghost use Rattle.jvm_tables.specs.declared.instruction.ValueKind.TheVariants as values;
ghost use Rattle.jvm_model.specs.Working.{work, loaded, stored, incremented, with_local};
ghost use Rattle.jvm_arith.specs.Frames.{ended_of, int_at, long_at, reference_at};

use crate::frame_end::FrameEnd;
use jvm_heap::{Operands, Slot, Slots};
use jvm_tables::ValueKind;

#[tactic(auto, unfolding(crate::specs::Frames::int_at))]
fn int_at(locals: &Slots, at: u16) -> Option<i32>
    ensures { result ≡ int_at locals.now at }
{
    let at = usize::from(at);
    if at >= locals.len() {
        return None;
    }
    match locals.get(at) {
        Slot::Int(n) => Some(n),
        _ => None,
    }
}

#[tactic(auto, unfolding(crate::specs::Frames::long_at))]
fn long_at(locals: &Slots, at: u16) -> Option<i64>
    ensures { result ≡ long_at locals.now at }
{
    let at = usize::from(at);
    if at >= locals.len() {
        return None;
    }
    match locals.get(at) {
        Slot::Long(n) => Some(n),
        _ => None,
    }
}

#[tactic(auto, unfolding(crate::specs::Frames::reference_at))]
fn reference_at(locals: &Slots, at: u16) -> Option<u32>
    ensures { result ≡ reference_at locals.now at }
{
    let at = usize::from(at);
    if at >= locals.len() {
        return None;
    }
    match locals.get(at) {
        Slot::Ref(n) => Some(n),
        _ => None,
    }
}

/// Writes a local, where there is one.
#[tactic(auto, unfolding(jvm_model::specs::Working::with_local))]
fn write(locals: &mut Slots, at: usize, slot: Slot) -> bool
    ensures { with_local at slot locals.old ≡ (if result then Some locals.new else None) }
{
    if at < locals.len() {
        locals.set(at, slot);
        true
    } else {
        false
    }
}

#[tactic(auto, unfolding(jvm_model::specs::Working::loaded, crate::specs::Frames::int_at))]
fn load_int(at: u16, locals: &Slots, stack: &mut Operands) -> FrameEnd
    ensures { loaded values.Int at (work locals.now stack.old) ≡ ended_of result (work locals.now stack.new) }
{
    match int_at(locals, at) {
        Some(n) => {
            if stack.push(Slot::Int(n)) {
                FrameEnd::Next
            } else {
                FrameEnd::Stuck
            }
        }
        None => FrameEnd::Stuck,
    }
}

#[tactic(auto, unfolding(jvm_model::specs::Working::loaded, crate::specs::Frames::long_at))]
fn load_long(at: u16, locals: &Slots, stack: &mut Operands) -> FrameEnd
    ensures { loaded values.Long at (work locals.now stack.old) ≡ ended_of result (work locals.now stack.new) }
{
    match long_at(locals, at) {
        Some(n) => {
            if stack.push(Slot::Long(n)) && stack.push(Slot::Top) {
                FrameEnd::Next
            } else {
                FrameEnd::Stuck
            }
        }
        None => FrameEnd::Stuck,
    }
}

#[tactic(auto, unfolding(jvm_model::specs::Working::loaded, crate::specs::Frames::reference_at))]
fn load_reference(at: u16, locals: &Slots, stack: &mut Operands) -> FrameEnd
    ensures { loaded values.Reference at (work locals.now stack.old) ≡ ended_of result (work locals.now stack.new) }
{
    match reference_at(locals, at) {
        Some(n) => {
            if stack.push(Slot::Ref(n)) {
                FrameEnd::Next
            } else {
                FrameEnd::Stuck
            }
        }
        None => FrameEnd::Stuck,
    }
}

/// Pushes a local of a kind.
pub fn load(kind: ValueKind, at: u16, locals: &Slots, stack: &mut Operands) -> FrameEnd
    ensures { loaded kind at (work locals.now stack.old) ≡ ended_of result (work locals.now stack.new) }
{
    match kind {
        ValueKind::Int => load_int(at, locals, stack),
        ValueKind::Long => load_long(at, locals, stack),
        ValueKind::Reference => load_reference(at, locals, stack),
    }
}

#[tactic(auto, unfolding(jvm_model::specs::Working::stored))]
fn store_int(at: u16, locals: &mut Slots, stack: &mut Operands) -> FrameEnd
    ensures { stored values.Int at (work locals.old stack.old) ≡ ended_of result (work locals.new stack.new) }
{
    match stack.take_int() {
        Some(n) => {
            if write(locals, usize::from(at), Slot::Int(n)) {
                FrameEnd::Next
            } else {
                FrameEnd::Stuck
            }
        }
        None => FrameEnd::Stuck,
    }
}

#[tactic(auto, unfolding(jvm_model::specs::Working::stored))]
fn store_long(at: u16, locals: &mut Slots, stack: &mut Operands) -> FrameEnd
    ensures { stored values.Long at (work locals.old stack.old) ≡ ended_of result (work locals.new stack.new) }
{
    match stack.take_long() {
        Some(n) => {
            let at = usize::from(at);
            if write(locals, at, Slot::Long(n)) && write(locals, at + 1, Slot::Top) {
                FrameEnd::Next
            } else {
                FrameEnd::Stuck
            }
        }
        None => FrameEnd::Stuck,
    }
}

#[tactic(auto, unfolding(jvm_model::specs::Working::stored))]
fn store_reference(at: u16, locals: &mut Slots, stack: &mut Operands) -> FrameEnd
    ensures { stored values.Reference at (work locals.old stack.old) ≡ ended_of result (work locals.new stack.new) }
{
    match stack.take_reference() {
        Some(n) => {
            if write(locals, usize::from(at), Slot::Ref(n)) {
                FrameEnd::Next
            } else {
                FrameEnd::Stuck
            }
        }
        None => FrameEnd::Stuck,
    }
}

/// Takes a value of a kind into a local.
pub fn store(kind: ValueKind, at: u16, locals: &mut Slots, stack: &mut Operands) -> FrameEnd
    ensures { stored kind at (work locals.old stack.old) ≡ ended_of result (work locals.new stack.new) }
{
    match kind {
        ValueKind::Int => store_int(at, locals, stack),
        ValueKind::Long => store_long(at, locals, stack),
        ValueKind::Reference => store_reference(at, locals, stack),
    }
}

/// Adds to the int in a local.
#[tactic(auto, unfolding(jvm_model::specs::Working::incremented, crate::specs::Frames::int_at))]
pub fn increment(at: u16, by: i32, locals: &mut Slots, stack: &Operands) -> FrameEnd
    ensures { incremented at by (work locals.old stack.now) ≡ ended_of result (work locals.new stack.now) }
{
    match int_at(locals, at) {
        Some(n) => {
            if write(locals, usize::from(at), Slot::Int(n.wrapping_add(by))) {
                FrameEnd::Next
            } else {
                FrameEnd::Stuck
            }
        }
        None => FrameEnd::Stuck,
    }
}
