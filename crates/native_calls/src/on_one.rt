//! Natives of one object, by their rows.

ghost use Rattle.std.specs.Prelude.{◌≡◌, ◌∷◌, [], ◌<◌, ◌^◌, true};
ghost use Rattle.jvm_heap.specs.declared.slot.Slot.TheVariants.{Ref};
ghost use Rattle.native_model.specs.Ends.{progress_of};
ghost use Rattle.native_calls.specs.Rows.{Called, is_among, of_objects, of_numbers, of_boxes, of_lists, of_throwables, of_outside};

use list_natives::{
    iterator_has_next, iterator_next, list_hash, list_is_empty, list_iterator, list_made,
    list_of_array, list_size, list_text,
};
use native_model::{Naming, NativeEnd, Progress, StepFault, Throw, World};
use native_text::{
    array_clone, boolean_box_hash, boolean_box_text, boolean_of_box, builder_length, builder_text,
    enum_name, enum_ordinal, int_box_text, int_of_box, int_of_long_box, int_parsed, long_box_hash,
    long_box_text, long_of_box, long_of_int_box, long_parsed, object_hash, object_made,
    object_text, required, text_hash, text_is_empty, text_itself, text_length, text_of_object,
    throwable_cause, throwable_made, throwable_message, throwable_text,
};
use os_natives::{env_get, fs_dest, log_info};

/// Natives of objects and texts.
#[tactic(auto, using(crate::proofs::Staying::staying), unfolding(native_model::specs::Table::native_answer, native_model::specs::Table::cases))]
pub(crate) fn call_object<N: Naming>(
    row: u32,
    object: u32,
    progress: &Progress,
    world: &mut World<N>,
) -> Result<NativeEnd, StepFault>
    requires small { object < 2 ^ 31 }
    requires among { is_among of_objects row ≡ true }
    ensures { Called row (Ref object ∷ []) (progress_of progress.now) result world.old world.new }
{
    match row {
        0 => Ok(object_made(object)),
        1 => object_text(object, world),
        2 => Ok(object_hash(object)),
        4 => array_clone(object, world),
        5 => Ok(text_length(object, world)),
        6 => Ok(text_is_empty(object, world)),
        16 => Ok(text_hash(object, world)),
        17 => Ok(text_itself(object)),
        23 => text_of_object(object, progress, world),
        _ => Ok(NativeEnd::Throws(Throw::IncompatibleChange)),
    }
}

/// Natives of builders and of Integer.
#[tactic(auto, using(crate::proofs::Staying::staying), unfolding(native_model::specs::Table::native_answer, native_model::specs::Table::cases))]
pub(crate) fn call_number<N: Naming>(
    row: u32,
    object: u32,
    progress: &Progress,
    world: &mut World<N>,
) -> Result<NativeEnd, StepFault>
    requires among { is_among of_numbers row ≡ true }
    ensures { Called row (Ref object ∷ []) (progress_of progress.now) result world.old world.new }
{
    let _ = progress;
    match row {
        24 => Ok(object_made(object)),
        26 => builder_text(object, world),
        27 => Ok(builder_length(object, world)),
        35 => int_parsed(object, world),
        38 => Ok(int_of_box(object, world)),
        39 => Ok(long_of_int_box(object, world)),
        41 => Ok(int_of_box(object, world)),
        42 => int_box_text(object, world),
        _ => Ok(NativeEnd::Throws(Throw::IncompatibleChange)),
    }
}

/// Natives of Long, of Boolean and of Objects.
#[tactic(auto, using(crate::proofs::Staying::staying), unfolding(native_model::specs::Table::native_answer, native_model::specs::Table::cases))]
pub(crate) fn call_box<N: Naming>(
    row: u32,
    object: u32,
    progress: &Progress,
    world: &mut World<N>,
) -> Result<NativeEnd, StepFault>
    requires among { is_among of_boxes row ≡ true }
    ensures { Called row (Ref object ∷ []) (progress_of progress.now) result world.old world.new }
{
    let _ = progress;
    match row {
        44 => long_parsed(object, world),
        47 => Ok(int_of_long_box(object, world)),
        48 => Ok(long_of_box(object, world)),
        50 => Ok(long_box_hash(object, world)),
        51 => long_box_text(object, world),
        53 => Ok(boolean_of_box(object, world)),
        55 => Ok(boolean_box_hash(object, world)),
        56 => boolean_box_text(object, world),
        63 => Ok(required(object)),
        _ => Ok(NativeEnd::Throws(Throw::IncompatibleChange)),
    }
}

/// Natives of enums and lists.
#[tactic(auto, using(crate::proofs::Staying::staying), unfolding(native_model::specs::Table::native_answer, native_model::specs::Table::cases))]
pub(crate) fn call_list<N: Naming>(
    row: u32,
    object: u32,
    progress: &Progress,
    world: &mut World<N>,
) -> Result<NativeEnd, StepFault>
    requires among { is_among of_lists row ≡ true }
    ensures { Called row (Ref object ∷ []) (progress_of progress.now) result world.old world.new }
{
    match row {
        66 => Ok(enum_name(object, world)),
        67 => Ok(enum_ordinal(object, world)),
        68 => Ok(enum_name(object, world)),
        69 => Ok(list_made(object)),
        71 => Ok(list_size(object, world)),
        72 => Ok(list_is_empty(object, world)),
        78 => list_iterator(object, world),
        80 => list_text(object, progress, world),
        82 => Ok(list_hash(object)),
        _ => Ok(NativeEnd::Throws(Throw::IncompatibleChange)),
    }
}

/// Natives of iterators and throwables.
#[tactic(auto, using(crate::proofs::Staying::staying), unfolding(native_model::specs::Table::native_answer, native_model::specs::Table::cases))]
pub(crate) fn call_thrown<N: Naming>(
    row: u32,
    object: u32,
    progress: &Progress,
    world: &mut World<N>,
) -> Result<NativeEnd, StepFault>
    requires among { is_among of_throwables row ≡ true }
    ensures { Called row (Ref object ∷ []) (progress_of progress.now) result world.old world.new }
{
    let _ = progress;
    match row {
        94 => list_of_array(object, world),
        95 => Ok(iterator_has_next(object, world)),
        96 => Ok(iterator_next(object, world)),
        97 => Ok(throwable_made(object, 0, 0, world)),
        101 => Ok(throwable_message(object, world)),
        102 => Ok(throwable_cause(object, world)),
        104 => throwable_text(object, world),
        _ => Ok(NativeEnd::Throws(Throw::IncompatibleChange)),
    }
}

/// Natives of files, of the log and of the environment.
#[tactic(auto, using(crate::proofs::Staying::staying), unfolding(native_model::specs::Table::native_answer, native_model::specs::Table::cases))]
pub(crate) fn call_outside<N: Naming>(
    row: u32,
    object: u32,
    progress: &Progress,
    world: &mut World<N>,
) -> Result<NativeEnd, StepFault>
    requires among { is_among of_outside row ≡ true }
    ensures { Called row (Ref object ∷ []) (progress_of progress.now) result world.old world.new }
{
    let _ = progress;
    match row {
        113 => fs_dest(object, world),
        115 => log_info(object, world),
        116 => env_get(object, world),
        _ => Ok(NativeEnd::Throws(Throw::IncompatibleChange)),
    }
}
