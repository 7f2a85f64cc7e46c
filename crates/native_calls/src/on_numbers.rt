//! Natives of numbers, by their rows.

ghost use Rattle.std.specs.Prelude.{◌≡◌, ◌∷◌, [], ◌<◌, ◌^◌, true};
ghost use Rattle.jvm_heap.specs.declared.slot.Slot.TheVariants.{Int, Long, Ref};
ghost use Rattle.native_model.specs.Ends.{progress_of};
ghost use Rattle.native_calls.specs.Rows.{Called, is_among, of_int, of_long, of_ints, of_longs, of_object_and_int, of_object_and_long};

use list_natives::{list_get, list_made_for};
use native_model::{Naming, NativeEnd, Progress, StepFault, Throw, World};
use native_text::{
    append_char, append_number, append_truth, boolean_box, int_abs, int_box, int_greater, int_less,
    int_sum, int_text, long_abs, long_box, long_greater, long_less, long_sum, text_char_at,
    text_from, text_of_char, text_of_number, text_of_truth,
};

/// Natives of an int.
#[tactic(auto, using(crate::proofs::Staying::staying), unfolding(native_model::specs::Table::native_answer, native_model::specs::Table::cases))]
pub(crate) fn call_int<N: Naming>(
    row: u32,
    number: i32,
    progress: &Progress,
    world: &mut World<N>,
) -> Result<NativeEnd, StepFault>
    requires among { is_among of_int row ≡ true }
    ensures { Called row (Int number ∷ []) (progress_of progress.now) result world.old world.new }
{
    let _ = progress;
    match row {
        19 => text_of_number(i64::from(number), world),
        21 => text_of_truth(number, world),
        22 => text_of_char(number, world),
        34 => int_box(number, world),
        36 => int_text(i64::from(number), world),
        52 => boolean_box(number, world),
        57 => Ok(int_abs(number)),
        _ => Ok(NativeEnd::Throws(Throw::IncompatibleChange)),
    }
}

/// Natives of a long.
#[tactic(auto, using(crate::proofs::Staying::staying), unfolding(native_model::specs::Table::native_answer, native_model::specs::Table::cases))]
pub(crate) fn call_long<N: Naming>(
    row: u32,
    number: i64,
    progress: &Progress,
    world: &mut World<N>,
) -> Result<NativeEnd, StepFault>
    requires among { is_among of_long row ≡ true }
    ensures { Called row (Long number ∷ []) (progress_of progress.now) result world.old world.new }
{
    let _ = progress;
    match row {
        20 => text_of_number(number, world),
        43 => long_box(number, world),
        45 => int_text(number, world),
        58 => Ok(long_abs(number)),
        _ => Ok(NativeEnd::Throws(Throw::IncompatibleChange)),
    }
}

/// Natives of two ints.
#[tactic(auto, using(crate::proofs::Staying::staying), unfolding(native_model::specs::Table::native_answer, native_model::specs::Table::cases))]
pub(crate) fn call_ints<N: Naming>(
    row: u32,
    first: i32,
    second: i32,
    progress: &Progress,
    world: &mut World<N>,
) -> Result<NativeEnd, StepFault>
    requires among { is_among of_ints row ≡ true }
    ensures { Called row (Int first ∷ Int second ∷ []) (progress_of progress.now) result world.old world.new }
{
    let _ = progress;
    match row {
        37 => Ok(int_sum(first, second)),
        59 => Ok(int_greater(first, second)),
        61 => Ok(int_less(first, second)),
        _ => Ok(NativeEnd::Throws(Throw::IncompatibleChange)),
    }
}

/// Natives of two longs.
#[tactic(auto, using(crate::proofs::Staying::staying), unfolding(native_model::specs::Table::native_answer, native_model::specs::Table::cases))]
pub(crate) fn call_longs<N: Naming>(
    row: u32,
    first: i64,
    second: i64,
    progress: &Progress,
    world: &mut World<N>,
) -> Result<NativeEnd, StepFault>
    requires among { is_among of_longs row ≡ true }
    ensures { Called row (Long first ∷ Long second ∷ []) (progress_of progress.now) result world.old world.new }
{
    let _ = progress;
    match row {
        46 => Ok(long_sum(first, second)),
        60 => Ok(long_greater(first, second)),
        62 => Ok(long_less(first, second)),
        _ => Ok(NativeEnd::Throws(Throw::IncompatibleChange)),
    }
}

/// Natives of an object and an int.
#[tactic(auto, using(crate::proofs::Staying::staying), unfolding(native_model::specs::Table::native_answer, native_model::specs::Table::cases))]
pub(crate) fn call_at<N: Naming>(
    row: u32,
    object: u32,
    number: i32,
    progress: &Progress,
    world: &mut World<N>,
) -> Result<NativeEnd, StepFault>
    requires among { is_among of_object_and_int row ≡ true }
    ensures { Called row (Ref object ∷ Int number ∷ []) (progress_of progress.now) result world.old world.new }
{
    let _ = progress;
    match row {
        7 => Ok(text_char_at(object, number, world)),
        8 => text_from(object, number, world),
        29 => append_number(object, i64::from(number), world),
        31 => append_char(object, number, world),
        32 => append_truth(object, number, world),
        70 => Ok(list_made_for(object, number)),
        73 => Ok(list_get(object, number, world)),
        _ => Ok(NativeEnd::Throws(Throw::IncompatibleChange)),
    }
}

/// The native of an object and a long.
#[tactic(auto, using(crate::proofs::Staying::staying), unfolding(native_model::specs::Table::native_answer, native_model::specs::Table::cases))]
pub(crate) fn call_long_at<N: Naming>(
    row: u32,
    object: u32,
    number: i64,
    progress: &Progress,
    world: &mut World<N>,
) -> Result<NativeEnd, StepFault>
    requires among { is_among of_object_and_long row ≡ true }
    ensures { Called row (Ref object ∷ Long number ∷ []) (progress_of progress.now) result world.old world.new }
{
    let _ = progress;
    match row {
        30 => append_number(object, number, world),
        _ => Ok(NativeEnd::Throws(Throw::IncompatibleChange)),
    }
}
