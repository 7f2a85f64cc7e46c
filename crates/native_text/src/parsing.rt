//! Natives that read a number in a text.

ghost use Rattle.std.specs.Prelude.{◌≡◌, ◌+◌, ◌<◌, ◌≤◌, ◌≤ℤ◌, ◌^◌, pos, negsuc, neg_ℤ, IfOk, IfSome, option_map, option_and_then};
ghost use Rattle.native_model.specs.Ends.{answer_of};
ghost use Rattle.native_model.specs.declared.native_end.NativeEnd.TheVariants as ends;
ghost use Rattle.native_model.specs.declared.throw.Throw.TheVariants as throws;
ghost use Rattle.native_model.specs.Numbers.{int_parsed, long_parsed};
ghost use Rattle.native_model.specs.Texts.{number_of, signed_number_of, if_within};
ghost use Rattle.std.specs.Option.{ForSome};
ghost use Rattle.native_text.specs.Parsing.{if_at_most};

use jvm_heap::{Slot, Units};
use native_model::{Naming, NativeEnd, StepFault, Throw, World};
use std::alloc::Global;

/// A number in decimal digits of ASCII, where it is at most so great.
#[tactic(auto, using(crate::proofs::Digits::digits))]
fn number_within(units: &[u16], most: u64) -> Option<u64>
    ensures number { result ≡ option_and_then (if_at_most most) (number_of units.now) }
    ensures within { IfSome result (λ n. n ≤ most) }
{
    if units.is_empty() {
        return None;
    }
    let mut number: u64 = 0;
    for unit in units {
        if *unit < 0x30 || *unit > 0x39 {
            return None;
        }
        let next = 10 * u128::from(number) + u128::from(*unit - 0x30);
        if next > u128::from(most) {
            return None;
        }
        number = next as u64;
    }
    Some(number)
}

fn negative(found: Option<u64>) -> Option<i64>
    requires { ForSome found (λ n. n ≤ 2 ^ 63) }
    ensures { result ≡ option_map (λ n. neg_ℤ (pos n)) found }
{
    match found {
        Some(0) => Some(0),
        Some(n) => Some(-((n - 1) as i64) - 1),
        None => None,
    }
}

fn positive(found: Option<u64>) -> Option<i64>
    requires { ForSome found (λ n. n < 2 ^ 63) }
    ensures { result ≡ option_map pos found }
{
    match found {
        Some(n) => Some(n as i64),
        None => None,
    }
}

#[tactic(auto, using(crate::proofs::Digits::signs))]
fn signed(units: &[u16], most: u64) -> Option<i64>
    requires { most < 2 ^ 63 }
    ensures { result ≡ option_and_then (if_within (negsuc most) (pos most)) (signed_number_of units.now) }
{
    let Some((first, behind)) = units.split_first() else {
        return None;
    };
    if *first == 0x2d {
        return negative(number_within(behind, most + 1));
    }
    if *first == 0x2b {
        return positive(number_within(behind, most));
    }
    positive(number_within(units, most))
}

/// A number with a sign or without one, where it is at most so great, or is negative and no further below -1.
fn signed_within(units: &[u16], most: u64) -> Option<i64>
    requires { most < 2 ^ 63 }
    ensures number { result ≡ option_and_then (if_within (negsuc most) (pos most)) (signed_number_of units.now) }
    ensures least { IfSome result (λ n. negsuc most ≤ℤ n) }
    ensures greatest { IfSome result (λ n. n ≤ℤ pos most) }
{
    signed(units, most)
}

fn no_number(alloc: Global, units: &[u16]) -> Result<NativeEnd, StepFault>
    ensures { IfOk result (λ end. end ≡ ends.Throws (throws.NumberFormat units.now)) }
{
    Ok(NativeEnd::Throws(Throw::NumberFormat(Units::from_slice(alloc, units)?)))
}

/// `Integer.parseInt(String)`.
pub fn int_parsed<N: Naming>(text: u32, world: &World<N>) -> Result<NativeEnd, StepFault>
    ensures { IfOk result (λ end. int_parsed text world.now.world ≡ answer_of end world.now.world) }
{
    match world.text(text) {
        Some(units) => match signed_within(units, 0x7fff_ffff) {
            Some(n) => Ok(NativeEnd::Gives(Some(Slot::Int(n as i32)))),
            None => no_number(world.allocator(), units),
        },
        None => Ok(NativeEnd::Throws(Throw::IncompatibleChange)),
    }
}

/// `Long.parseLong(String)`.
pub fn long_parsed<N: Naming>(text: u32, world: &World<N>) -> Result<NativeEnd, StepFault>
    ensures { IfOk result (λ end. long_parsed text world.now.world ≡ answer_of end world.now.world) }
{
    match world.text(text) {
        Some(units) => match signed_within(units, 0x7fff_ffff_ffff_ffff) {
            Some(n) => Ok(NativeEnd::Gives(Some(Slot::Long(n)))),
            None => no_number(world.allocator(), units),
        },
        None => Ok(NativeEnd::Throws(Throw::IncompatibleChange)),
    }
}
