//! Natives by their rows.

ghost use Rattle.std.specs.Prelude.{◌≡◌, ◌∷◌, [], ◌<◌, ◌^◌, true, IsSome};
ghost use Rattle.jvm_heap.specs.declared.slot.Slot.TheVariants.{Ref};
ghost use Rattle.native_model.specs.Ends.{progress_of};
ghost use Rattle.native_model.specs.Table.{native_answer};
ghost use Rattle.native_calls.specs.Rows.{Called, given, given_numbers, given_others, is_among, of_list_of, reference_at, rows_of, rows_of_numbers, rows_of_one, rows_of_others, rows_of_two};

use crate::coded::{CodedRow, Group, Numbers, Ones, Others, Twos};
use crate::given::{int_at, long_at, numbers_in, reference_at};
use crate::on_more::{call_alone, call_enum, call_part, call_set, call_three};
use crate::on_numbers::{call_at, call_int, call_ints, call_long, call_long_at, call_longs};
use crate::on_one::{call_box, call_list, call_number, call_object, call_outside, call_thrown};
use crate::on_two::{call_elements, call_pairs, call_places, call_texts};
use jvm_heap::{Slot, Slots};
use list_natives::list_of;
use native_model::{Naming, NativeEnd, Progress, StepFault, World};

/// Natives of one object.
fn on_one<N: Naming>(
    group: Ones,
    at: u32,
    object: u32,
    progress: &Progress,
    world: &mut World<N>,
) -> Result<NativeEnd, StepFault>
    requires small { object < 2 ^ 31 }
    requires among { is_among (rows_of_one group) at ≡ true }
    ensures { Called at (Ref object ∷ []) (progress_of progress.now) result world.old world.new }
{
    match group {
        Ones::Objects => call_object(at, object, progress, world),
        Ones::Numbers => call_number(at, object, progress, world),
        Ones::Boxes => call_box(at, object, progress, world),
        Ones::Lists => call_list(at, object, progress, world),
        Ones::Throwables => call_thrown(at, object, progress, world),
        Ones::Outside => call_outside(at, object, progress, world),
    }
}

/// Natives of two objects.
fn on_two<N: Naming>(
    group: Twos,
    at: u32,
    object: u32,
    other: u32,
    progress: &Progress,
    world: &mut World<N>,
) -> Result<NativeEnd, StepFault>
    requires asked { progress.now.answered < 2 ^ 31 }
    requires among { is_among (rows_of_two group) at ≡ true }
    ensures { Called at (Ref object ∷ Ref other ∷ []) (progress_of progress.now) result world.old world.new }
{
    match group {
        Twos::Texts => call_texts(at, object, other, progress, world),
        Twos::Pairs => call_pairs(at, object, other, progress, world),
        Twos::Elements => call_elements(at, object, other, progress, world),
        Twos::Places => call_places(at, object, other, progress, world),
    }
}

/// Natives of numbers, and of an object and a number.
fn on_numbers<N: Naming>(
    group: Numbers,
    at: u32,
    slots: &[Slot],
    progress: &Progress,
    world: &mut World<N>,
) -> Result<NativeEnd, StepFault>
    requires { is_among (rows_of_numbers group) at ≡ true }
    ensures { Called at (given_numbers group slots.now) (progress_of progress.now) result world.old world.new }
{
    let object = reference_at(slots, 0);
    match group {
        Numbers::Int => call_int(at, int_at(slots, 0), progress, world),
        Numbers::Long => call_long(at, long_at(slots, 0), progress, world),
        Numbers::Ints => call_ints(at, int_at(slots, 0), int_at(slots, 1), progress, world),
        Numbers::Longs => call_longs(at, long_at(slots, 0), long_at(slots, 1), progress, world),
        Numbers::At => call_at(at, object, int_at(slots, 1), progress, world),
        Numbers::LongAt => call_long_at(at, object, long_at(slots, 1), progress, world),
    }
}

/// `List.of` of none to ten elements.
fn call_list_of<N: Naming>(
    at: u32,
    slots: &[Slot],
    progress: &Progress,
    world: &mut World<N>,
) -> Result<NativeEnd, StepFault>
    requires { is_among of_list_of at ≡ true }
    ensures { Called at slots.now (progress_of progress.now) result world.old world.new }
{
    let _ = at;
    let _ = progress;
    let elements = numbers_in(world.allocator(), slots)?;
    list_of(elements, world)
}

/// Natives that take something else.
fn on_others<N: Naming>(
    group: Others,
    at: u32,
    slots: &[Slot],
    progress: &Progress,
    world: &mut World<N>,
) -> Result<NativeEnd, StepFault>
    requires { is_among (rows_of_others group) at ≡ true }
    ensures { Called at (given_others group slots.now) (progress_of progress.now) result world.old world.new }
{
    let (a, b, c) = (
        reference_at(slots, 0),
        reference_at(slots, 1),
        reference_at(slots, 2),
    );
    let (second, third) = (int_at(slots, 1), int_at(slots, 2));
    match group {
        Others::Three => call_three(at, a, b, c, progress, world),
        Others::Part => call_part(at, a, second, third, progress, world),
        Others::Set => call_set(at, a, second, c, progress, world),
        Others::Enum => call_enum(at, a, b, third, progress, world),
        Others::Nothing => call_alone(at, progress, world),
        Others::ListOf => call_list_of(at, slots, progress, world),
    }
}

/// The native of a row, on its arguments as they are taken.
fn on_given<N: Naming>(
    group: Group,
    at: u32,
    slots: &[Slot],
    progress: &Progress,
    world: &mut World<N>,
) -> Result<NativeEnd, StepFault>
    requires small { reference_at slots.now 0 < 2 ^ 31 }
    requires asked { progress.now.answered < 2 ^ 31 }
    requires among { is_among (rows_of group) at ≡ true }
    ensures { Called at (given group slots.now) (progress_of progress.now) result world.old world.new }
{
    let object = reference_at(slots, 0);
    match group {
        Group::One(group) => on_one(group, at, object, progress, world),
        Group::Two(group) => on_two(group, at, object, reference_at(slots, 1), progress, world),
        Group::Numbers(group) => on_numbers(group, at, slots, progress, world),
        Group::Others(group) => on_others(group, at, slots, progress, world),
    }
}

fn on_slots<N: Naming>(
    group: Group,
    at: u32,
    slots: &[Slot],
    progress: &Progress,
    world: &mut World<N>,
) -> Result<NativeEnd, StepFault>
    requires small { reference_at slots.now 0 < 2 ^ 31 }
    requires asked { progress.now.answered < 2 ^ 31 }
    requires among { is_among (rows_of group) at ≡ true }
    ensures { Called at slots.now (progress_of progress.now) result world.old world.new }
{
    on_given(group, at, slots, progress, world)
}

/// The native of a row, on its arguments, the receiver first. They are of the kinds that it takes. The heap's limit keeps
/// the number of an object below 2^31, and the budget of instructions that of callbacks.
pub fn call_native<N: Naming>(
    row: &CodedRow,
    arguments: &Slots,
    progress: &Progress,
    world: &mut World<N>,
) -> Result<NativeEnd, StepFault>
    requires small { reference_at arguments.now 0 < 2 ^ 31 }
    requires asked { progress.now.answered < 2 ^ 31 }
    requires kinds { IsSome (native_answer row.now arguments.now (progress_of progress.now) world.old.world) }
    ensures { Called row.now arguments.now (progress_of progress.now) result world.old world.new }
{
    on_slots(row.group, row.at, arguments.as_slice(), progress, world)
}
