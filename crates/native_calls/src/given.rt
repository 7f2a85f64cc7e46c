//! Arguments of natives.

ghost use Rattle.std.specs.Prelude.{◌≡◌, IfOk, map};
ghost use Rattle.native_model.specs.Lists.{number_in};
ghost use Rattle.native_calls.specs.Rows.{reference_at, int_at, long_at};

use jvm_heap::Slot;
use std::alloc::{AllocError, Global};

/// The reference at a place; null where there is none.
pub(crate) fn reference_at(arguments: &[Slot], at: usize) -> u32
    ensures { result ≡ reference_at arguments.now at }
{
    match arguments.get(at) {
        Some(Slot::Ref(number)) => *number,
        _ => 0,
    }
}

/// The int at a place; 0 where there is none.
pub(crate) fn int_at(arguments: &[Slot], at: usize) -> i32
    ensures { result ≡ int_at arguments.now at }
{
    match arguments.get(at) {
        Some(Slot::Int(number)) => *number,
        _ => 0,
    }
}

/// The long at a place; 0 where there is none.
pub(crate) fn long_at(arguments: &[Slot], at: usize) -> i64
    ensures { result ≡ long_at arguments.now at }
{
    match arguments.get(at) {
        Some(Slot::Long(number)) => *number,
        _ => 0,
    }
}

fn number_in(slot: Slot) -> u32
    ensures { result ≡ number_in slot }
{
    match slot {
        Slot::Ref(number) => number,
        _ => 0,
    }
}

/// All references, copied.
pub(crate) fn numbers_in(alloc: Global, slots: &[Slot]) -> Result<Vec<u32>, AllocError>
    ensures { IfOk result (λ numbers. numbers.items ≡ map number_in slots.now) }
{
    slots.iter().map(|slot| number_in(*slot)).collect(alloc)
}
