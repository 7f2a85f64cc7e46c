//! Natives of two objects, by their rows.

ghost use Rattle.std.specs.Prelude.{◌≡◌, ◌∷◌, [], ◌<◌, ◌^◌, true};
ghost use Rattle.jvm_heap.specs.declared.slot.Slot.TheVariants.{Ref};
ghost use Rattle.native_model.specs.Ends.{progress_of};
ghost use Rattle.native_calls.specs.Rows.{Called, is_among, of_texts, of_pairs, of_elements, of_places};

use list_natives::{
    list_add, list_contains, list_each, list_equals, list_filter, list_index, list_map,
};
use native_model::{Naming, NativeEnd, Progress, StepFault, Throw, World};
use native_text::{
    append_object, append_text, boolean_box_equals, builder_made, int_box_equals, long_box_equals,
    object_equals, objects_equal, suppressed_added, text_compare, text_concat, text_contains,
    text_ends, text_equals, text_index, text_starts, throwable_caused, throwable_made,
};
use os_natives::{fs_read, fs_size, fs_write, reference_sub};

/// Natives of an object or a text and another.
#[tactic(auto, using(crate::proofs::Staying::staying), unfolding(native_model::specs::Table::native_answer, native_model::specs::Table::cases))]
pub(crate) fn call_texts<N: Naming>(
    row: u32,
    object: u32,
    other: u32,
    progress: &Progress,
    world: &mut World<N>,
) -> Result<NativeEnd, StepFault>
    requires among { is_among of_texts row ≡ true }
    ensures { Called row (Ref object ∷ Ref other ∷ []) (progress_of progress.now) result world.old world.new }
{
    let _ = progress;
    match row {
        3 => Ok(object_equals(object, other)),
        10 => text_index(object, other, world),
        11 => Ok(text_starts(object, other, world)),
        12 => Ok(text_ends(object, other, world)),
        13 => text_concat(object, other, world),
        14 => Ok(text_compare(object, other, world)),
        15 => Ok(text_equals(object, other, world)),
        18 => text_contains(object, other, world),
        _ => Ok(NativeEnd::Throws(Throw::IncompatibleChange)),
    }
}

/// Natives of a builder, a box or an object and another.
#[tactic(auto, using(crate::proofs::Staying::staying), unfolding(native_model::specs::Table::native_answer, native_model::specs::Table::cases))]
pub(crate) fn call_pairs<N: Naming>(
    row: u32,
    object: u32,
    other: u32,
    progress: &Progress,
    world: &mut World<N>,
) -> Result<NativeEnd, StepFault>
    requires among { is_among of_pairs row ≡ true }
    ensures { Called row (Ref object ∷ Ref other ∷ []) (progress_of progress.now) result world.old world.new }
{
    match row {
        25 => builder_made(object, other, world),
        28 => append_text(object, other, world),
        33 => append_object(object, other, progress, world),
        40 => Ok(int_box_equals(object, other, world)),
        49 => Ok(long_box_equals(object, other, world)),
        54 => Ok(boolean_box_equals(object, other, world)),
        64 => Ok(objects_equal(object, other, progress)),
        _ => Ok(NativeEnd::Throws(Throw::IncompatibleChange)),
    }
}

/// Natives of a list or a throwable and an object.
#[tactic(auto, using(crate::proofs::Staying::staying), unfolding(native_model::specs::Table::native_answer, native_model::specs::Table::cases))]
pub(crate) fn call_elements<N: Naming>(
    row: u32,
    object: u32,
    other: u32,
    progress: &Progress,
    world: &mut World<N>,
) -> Result<NativeEnd, StepFault>
    requires asked { progress.now.answered < 2 ^ 31 }
    requires among { is_among of_elements row ≡ true }
    ensures { Called row (Ref object ∷ Ref other ∷ []) (progress_of progress.now) result world.old world.new }
{
    match row {
        75 => list_add(object, other, world),
        76 => Ok(list_contains(object, other, progress, world)),
        77 => Ok(list_index(object, other, progress, world)),
        79 => Ok(list_each(object, other, progress, world)),
        81 => Ok(list_equals(object, other)),
        98 => Ok(throwable_made(object, other, 0, world)),
        100 => Ok(throwable_caused(object, other, progress, world)),
        103 => Ok(suppressed_added(object, other)),
        _ => Ok(NativeEnd::Throws(Throw::IncompatibleChange)),
    }
}

/// Natives of a list and a function, and of files.
#[tactic(auto, using(crate::proofs::Staying::staying), unfolding(native_model::specs::Table::native_answer, native_model::specs::Table::cases))]
pub(crate) fn call_places<N: Naming>(
    row: u32,
    object: u32,
    other: u32,
    progress: &Progress,
    world: &mut World<N>,
) -> Result<NativeEnd, StepFault>
    requires among { is_among of_places row ≡ true }
    ensures { Called row (Ref object ∷ Ref other ∷ []) (progress_of progress.now) result world.old world.new }
{
    match row {
        105 => list_map(object, other, progress, world),
        106 => list_filter(object, other, progress, world),
        108 => Ok(list_each(object, other, progress, world)),
        109 => fs_read(object, other, progress, world),
        110 => fs_size(object, other, progress, world),
        112 => fs_write(object, other, world),
        114 => reference_sub(object, other, world),
        _ => Ok(NativeEnd::Throws(Throw::IncompatibleChange)),
    }
}
