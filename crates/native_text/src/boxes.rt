//! Natives of Integer, Long and Boolean: boxes.

ghost use Rattle.std.specs.Prelude.{◌≡◌};
ghost use Rattle.native_model.specs.Ends.{answer_of, Answers};
ghost use Rattle.native_model.specs.Numbers.{is_same_number, is_same_truth, int_box, int_of_box, long_of_int_box, int_box_equals, narrowed, long_box, int_of_long_box, long_of_box, long_box_equals, hash_of_long, long_box_hash, boolean_box, boolean_of_box, boolean_box_equals, hash_of_boolean, boolean_box_hash};

use jvm_heap::Slot;
use native_model::{Naming, NativeEnd, StepFault, Throw, World};

fn narrowed(n: i64) -> i32
    ensures { result ≡ narrowed n }
{
    ((n.cast_unsigned() & 0xffff_ffff) as u32).cast_signed()
}

fn hash_of_long(n: i64) -> i32
    ensures { result ≡ hash_of_long n }
{
    let bits = n.cast_unsigned();
    ((bits >> 32) as u32 ^ (bits & 0xffff_ffff) as u32).cast_signed()
}

fn hash_of_boolean(is: bool) -> i32
    ensures { result ≡ hash_of_boolean is }
{
    if is { 1231 } else { 1237 }
}

fn is_same_int(n: i32, other: Option<i32>) -> bool
    ensures { result ≡ is_same_number n other }
{
    match other {
        Some(m) => n == m,
        None => false,
    }
}

fn is_same_long(n: i64, other: Option<i64>) -> bool
    ensures { result ≡ is_same_number n other }
{
    match other {
        Some(m) => n == m,
        None => false,
    }
}

fn is_same_truth(is: bool, other: Option<bool>) -> bool
    ensures { result ≡ is_same_truth is other }
{
    match other {
        Some(that) => is == that,
        None => false,
    }
}

/// `Integer.valueOf(int)`.
pub fn int_box<N: Naming>(value: i32, world: &mut World<N>) -> Result<NativeEnd, StepFault>
    ensures { Answers (int_box value world.old.world) result world.old world.new }
{
    world.give_int_box(value)
}

/// `Integer.intValue()` and `hashCode()`.
pub fn int_of_box<N: Naming>(object: u32, world: &World<N>) -> NativeEnd
    ensures { int_of_box object world.now.world ≡ answer_of result world.now.world }
{
    match world.int(object) {
        Some(n) => NativeEnd::Gives(Some(Slot::Int(n))),
        None => NativeEnd::Throws(Throw::IncompatibleChange),
    }
}

/// `Integer.longValue()`.
pub fn long_of_int_box<N: Naming>(object: u32, world: &World<N>) -> NativeEnd
    ensures { long_of_int_box object world.now.world ≡ answer_of result world.now.world }
{
    match world.int(object) {
        Some(n) => NativeEnd::Gives(Some(Slot::Long(i64::from(n)))),
        None => NativeEnd::Throws(Throw::IncompatibleChange),
    }
}

/// `Integer.equals(Object)`.
pub fn int_box_equals<N: Naming>(object: u32, other: u32, world: &World<N>) -> NativeEnd
    ensures { int_box_equals object other world.now.world ≡ answer_of result world.now.world }
{
    match world.int(object) {
        Some(n) => NativeEnd::truth(is_same_int(n, world.int(other))),
        None => NativeEnd::Throws(Throw::IncompatibleChange),
    }
}

/// `Long.valueOf(long)`.
pub fn long_box<N: Naming>(value: i64, world: &mut World<N>) -> Result<NativeEnd, StepFault>
    ensures { Answers (long_box value world.old.world) result world.old world.new }
{
    world.give_long_box(value)
}

/// `Long.intValue()`.
pub fn int_of_long_box<N: Naming>(object: u32, world: &World<N>) -> NativeEnd
    ensures { int_of_long_box object world.now.world ≡ answer_of result world.now.world }
{
    match world.long(object) {
        Some(n) => NativeEnd::Gives(Some(Slot::Int(narrowed(n)))),
        None => NativeEnd::Throws(Throw::IncompatibleChange),
    }
}

/// `Long.longValue()`.
pub fn long_of_box<N: Naming>(object: u32, world: &World<N>) -> NativeEnd
    ensures { long_of_box object world.now.world ≡ answer_of result world.now.world }
{
    match world.long(object) {
        Some(n) => NativeEnd::Gives(Some(Slot::Long(n))),
        None => NativeEnd::Throws(Throw::IncompatibleChange),
    }
}

/// `Long.equals(Object)`.
pub fn long_box_equals<N: Naming>(object: u32, other: u32, world: &World<N>) -> NativeEnd
    ensures { long_box_equals object other world.now.world ≡ answer_of result world.now.world }
{
    match world.long(object) {
        Some(n) => NativeEnd::truth(is_same_long(n, world.long(other))),
        None => NativeEnd::Throws(Throw::IncompatibleChange),
    }
}

/// `Long.hashCode()`.
pub fn long_box_hash<N: Naming>(object: u32, world: &World<N>) -> NativeEnd
    ensures { long_box_hash object world.now.world ≡ answer_of result world.now.world }
{
    match world.long(object) {
        Some(n) => NativeEnd::Gives(Some(Slot::Int(hash_of_long(n)))),
        None => NativeEnd::Throws(Throw::IncompatibleChange),
    }
}

/// `Boolean.valueOf(boolean)`.
pub fn boolean_box<N: Naming>(value: i32, world: &mut World<N>) -> Result<NativeEnd, StepFault>
    ensures { Answers (boolean_box value world.old.world) result world.old world.new }
{
    world.give_boolean_box(value != 0)
}

/// `Boolean.booleanValue()`.
pub fn boolean_of_box<N: Naming>(object: u32, world: &World<N>) -> NativeEnd
    ensures { boolean_of_box object world.now.world ≡ answer_of result world.now.world }
{
    match world.boolean(object) {
        Some(is) => NativeEnd::truth(is),
        None => NativeEnd::Throws(Throw::IncompatibleChange),
    }
}

/// `Boolean.equals(Object)`.
pub fn boolean_box_equals<N: Naming>(object: u32, other: u32, world: &World<N>) -> NativeEnd
    ensures { boolean_box_equals object other world.now.world ≡ answer_of result world.now.world }
{
    match world.boolean(object) {
        Some(is) => NativeEnd::truth(is_same_truth(is, world.boolean(other))),
        None => NativeEnd::Throws(Throw::IncompatibleChange),
    }
}

/// `Boolean.hashCode()`.
pub fn boolean_box_hash<N: Naming>(object: u32, world: &World<N>) -> NativeEnd
    ensures { boolean_box_hash object world.now.world ≡ answer_of result world.now.world }
{
    match world.boolean(object) {
        Some(is) => NativeEnd::Gives(Some(Slot::Int(hash_of_boolean(is)))),
        None => NativeEnd::Throws(Throw::IncompatibleChange),
    }
}
