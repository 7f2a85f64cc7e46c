//! Natives of other objects and numbers together, by their rows.

ghost use Rattle.std.specs.Prelude.{◌≡◌, ◌∷◌, [], ◌<◌, ◌^◌, true};
ghost use Rattle.jvm_heap.specs.declared.slot.Slot.TheVariants.{Int, Ref};
ghost use Rattle.native_model.specs.Ends.{progress_of};
ghost use Rattle.native_calls.specs.Rows.{Called, is_among, of_three, of_part, of_set, of_enum, of_none};

use list_natives::{list_fold, list_set};
use native_model::{Naming, NativeEnd, Progress, StepFault, Throw, World};
use native_text::{enum_made, text_between, throwable_made};
use os_natives::env_now;

/// Natives of three objects.
#[tactic(auto, using(crate::proofs::Staying::staying), unfolding(native_model::specs::Table::native_answer, native_model::specs::Table::cases))]
pub(crate) fn call_three<N: Naming>(
    row: u32,
    object: u32,
    other: u32,
    third: u32,
    progress: &Progress,
    world: &mut World<N>,
) -> Result<NativeEnd, StepFault>
    requires among { is_among of_three row ≡ true }
    ensures { Called row (Ref object ∷ Ref other ∷ Ref third ∷ []) (progress_of progress.now) result world.old world.new }
{
    match row {
        99 => Ok(throwable_made(object, other, third, world)),
        107 => Ok(list_fold(object, other, third, progress, world)),
        _ => Ok(NativeEnd::Throws(Throw::IncompatibleChange)),
    }
}

/// A part of a text.
#[tactic(auto, using(crate::proofs::Staying::staying), unfolding(native_model::specs::Table::native_answer, native_model::specs::Table::cases))]
pub(crate) fn call_part<N: Naming>(
    row: u32,
    object: u32,
    first: i32,
    second: i32,
    progress: &Progress,
    world: &mut World<N>,
) -> Result<NativeEnd, StepFault>
    requires among { is_among of_part row ≡ true }
    ensures { Called row (Ref object ∷ Int first ∷ Int second ∷ []) (progress_of progress.now) result world.old world.new }
{
    let _ = progress;
    match row {
        9 => text_between(object, first, second, world),
        _ => Ok(NativeEnd::Throws(Throw::IncompatibleChange)),
    }
}

/// An element of a list that is set.
#[tactic(auto, using(crate::proofs::Staying::staying), unfolding(native_model::specs::Table::native_answer, native_model::specs::Table::cases))]
pub(crate) fn call_set<N: Naming>(
    row: u32,
    object: u32,
    number: i32,
    other: u32,
    progress: &Progress,
    world: &mut World<N>,
) -> Result<NativeEnd, StepFault>
    requires among { is_among of_set row ≡ true }
    ensures { Called row (Ref object ∷ Int number ∷ Ref other ∷ []) (progress_of progress.now) result world.old world.new }
{
    let _ = progress;
    match row {
        74 => Ok(list_set(object, number, other, world)),
        _ => Ok(NativeEnd::Throws(Throw::IncompatibleChange)),
    }
}

/// The constructor of enums.
#[tactic(auto, using(crate::proofs::Staying::staying), unfolding(native_model::specs::Table::native_answer, native_model::specs::Table::cases))]
pub(crate) fn call_enum<N: Naming>(
    row: u32,
    object: u32,
    other: u32,
    number: i32,
    progress: &Progress,
    world: &mut World<N>,
) -> Result<NativeEnd, StepFault>
    requires among { is_among of_enum row ≡ true }
    ensures { Called row (Ref object ∷ Ref other ∷ Int number ∷ []) (progress_of progress.now) result world.old world.new }
{
    let _ = progress;
    match row {
        65 => Ok(enum_made(object, other, number, world)),
        _ => Ok(NativeEnd::Throws(Throw::IncompatibleChange)),
    }
}

/// The native that takes nothing.
#[tactic(auto, using(crate::proofs::Staying::staying), unfolding(native_model::specs::Table::native_answer, native_model::specs::Table::cases))]
pub(crate) fn call_alone<N: Naming>(
    row: u32,
    progress: &Progress,
    world: &mut World<N>,
) -> Result<NativeEnd, StepFault>
    requires among { is_among of_none row ≡ true }
    ensures { Called row ([]) (progress_of progress.now) result world.old world.new }
{
    let _ = progress;
    match row {
        117 => Ok(env_now(world)),
        _ => Ok(NativeEnd::Throws(Throw::IncompatibleChange)),
    }
}
