//! Natives of Integer, Long and Math on numbers.

ghost use Rattle.std.specs.Prelude.{◌≡◌};
ghost use Rattle.native_model.specs.Ends.{answer_of};
ghost use Rattle.native_model.specs.Numbers.{int_sum, long_sum, int_abs, long_abs, int_greater, long_greater, int_less, long_less};
ghost use Rattle.native_model.specs.Worlds.{World};

use jvm_heap::Slot;
use native_model::NativeEnd;

/// `Integer.sum(int, int)`.
pub fn int_sum(a: i32, b: i32) -> NativeEnd
    ensures { (w : World) → int_sum a b w ≡ answer_of result w }
{
    NativeEnd::Gives(Some(Slot::Int(a.wrapping_add(b))))
}

/// `Long.sum(long, long)`.
pub fn long_sum(a: i64, b: i64) -> NativeEnd
    ensures { (w : World) → long_sum a b w ≡ answer_of result w }
{
    NativeEnd::Gives(Some(Slot::Long(a.wrapping_add(b))))
}

/// `Math.abs(int)`, which is negative for the least int.
pub fn int_abs(n: i32) -> NativeEnd
    ensures { (w : World) → int_abs n w ≡ answer_of result w }
{
    NativeEnd::Gives(Some(Slot::Int(if n < 0 { n.wrapping_neg() } else { n })))
}

/// `Math.abs(long)`, likewise.
pub fn long_abs(n: i64) -> NativeEnd
    ensures { (w : World) → long_abs n w ≡ answer_of result w }
{
    NativeEnd::Gives(Some(Slot::Long(if n < 0 { n.wrapping_neg() } else { n })))
}

/// `Math.max(int, int)`.
pub fn int_greater(a: i32, b: i32) -> NativeEnd
    ensures { (w : World) → int_greater a b w ≡ answer_of result w }
{
    NativeEnd::Gives(Some(Slot::Int(a.max(b))))
}

/// `Math.max(long, long)`.
pub fn long_greater(a: i64, b: i64) -> NativeEnd
    ensures { (w : World) → long_greater a b w ≡ answer_of result w }
{
    NativeEnd::Gives(Some(Slot::Long(a.max(b))))
}

/// `Math.min(int, int)`.
pub fn int_less(a: i32, b: i32) -> NativeEnd
    ensures { (w : World) → int_less a b w ≡ answer_of result w }
{
    NativeEnd::Gives(Some(Slot::Int(a.min(b))))
}

/// `Math.min(long, long)`.
pub fn long_less(a: i64, b: i64) -> NativeEnd
    ensures { (w : World) → long_less a b w ≡ answer_of result w }
{
    NativeEnd::Gives(Some(Slot::Long(a.min(b))))
}
