//! Boxes that are opened and made (JVMS 6.5, invokedynamic, of `metafactory`).

ghost use Rattle.std.specs.Prelude.{◌≡◌, ℕ, List};
ghost use Rattle.class_model.specs.declared.identifiers.ClassId.{ClassId};
ghost use Rattle.class_model.specs.declared.identifiers.SiteId.{SiteId};
ghost use Rattle.class_model.specs.TypeForms.{type_of};
ghost use Rattle.jvm_heap.specs.declared.slot.Slot.TheVariants.{Int};
ghost use Rattle.jvm_heap.specs.Objects as objects;
ghost use Rattle.jvm_heap.specs.Renaming.{renamed_object};
ghost use Rattle.native_model.specs.Worlds.{Origin};
ghost use Rattle.native_model.specs.declared.budget.Budget.TheVariants.{Cells};
ghost use Rattle.jvm_model.specs.Plans.{end_of};
ghost use Rattle.jvm_model.specs.Attempts.{or_out};
ghost use Rattle.jvm_model.specs.Lambdas.{opened, or_cast, unboxed, widened, as_type, boxed, boxed_as};
ghost use Rattle.jvm_resolve.specs.Ends.{EndsAs};
ghost use Rattle.jvm_state.specs.Changes.{HeapAlone, KeptIfThrown};
ghost use Rattle.jvm_invoke.specs.Changes.{reference_to};

use crate::letters::primitive_letter;
use class_model::TypeForm;
use jvm_heap::{Content, HeapFault, Object, Slot};
use jvm_resolve::{Lookups, Stop};
use native_model::{Budget, Throw, World};

fn opened_int(letter: u8, value: i32) -> Option<Slot>
    ensures { result ≡ opened letter (objects.boxed_int value) }
{
    match letter {
        b'J' => Some(Slot::Long(i64::from(value))),
        b'Z' => None,
        _ => Some(Slot::Int(value)),
    }
}

/// What a box holds as a value of a primitive type.
fn opened(letter: u8, object: &Object) -> Option<Slot>
    ensures { (f : ClassId → List ℕ) (g : SiteId → Origin) →
        result ≡ opened letter (renamed_object f g object.now) }
{
    match object.content() {
        Content::BoxedInt { value } => opened_int(letter, *value),
        Content::BoxedLong { value } => {
            if letter == b'J' {
                Some(Slot::Long(*value))
            } else {
                None
            }
        }
        Content::BoxedBoolean { value } => {
            if letter == b'Z' {
                Some(Slot::Int(i32::from(*value)))
            } else {
                None
            }
        }
        _ => None,
    }
}

fn or_cast<P: Lookups>(_program: &P, slot: Option<Slot>) -> Result<Slot, Stop>
    ensures { EndsAs (λ s. s) result (end_of (P.oracle _program.now) (or_cast slot)) }
{
    match slot {
        Some(slot) => Ok(slot),
        None => Err(Stop::Throws(Throw::ClassCast)),
    }
}

/// What the box holds that a reference leads to.
#[tactic(auto, using(crate::proofs::LetterLemmas::steps))]
fn unboxed<P: Lookups>(letter: u8, slot: Slot, world: &World<P>) -> Result<Slot, Stop>
    ensures { EndsAs (λ s. s) result
        (end_of (P.oracle world.now.names) (unboxed letter slot world.now.world)) }
{
    match slot {
        Slot::Ref(0) => Err(Stop::Throws(Throw::NullPointer)),
        Slot::Ref(number) => match world.object(number) {
            Some(object) => or_cast(world.names(), opened(letter, object)),
            None => Err(Stop::Stuck),
        },
        _ => Err(Stop::Stuck),
    }
}

fn widened(letter: u8, slot: Slot) -> Slot
    ensures { result ≡ widened letter slot }
{
    match slot {
        Slot::Int(value) => {
            if letter == b'J' {
                Slot::Long(i64::from(value))
            } else {
                Slot::Int(value)
            }
        }
        other => other,
    }
}

/// A value of one type as one of another, but for boxes that are still to be made.
#[tactic(auto, using(crate::proofs::LetterLemmas::steps))]
pub(crate) fn as_type<P: Lookups>(
    from: TypeForm<'_>,
    to: TypeForm<'_>,
    slot: Slot,
    world: &World<P>,
) -> Result<Slot, Stop>
    ensures { EndsAs (λ s. s) result
        (end_of (P.oracle world.now.names) (as_type (type_of from.entry) (type_of to.entry) slot world.now.world)) }
{
    let Some(letter) = primitive_letter(to) else {
        return Ok(slot);
    };
    match primitive_letter(from) {
        Some(_) => Ok(widened(letter, slot)),
        None => unboxed(letter, slot, world),
    }
}

/// The reference to an object that was made, or a budget that is spent.
fn reference_to(made: Result<u32, HeapFault>) -> Result<Slot, Stop>
    ensures { result ≡ reference_to made }
{
    match made {
        Ok(number) => Ok(Slot::Ref(number)),
        Err(HeapFault::Full) => Err(Stop::Spends(Budget::Cells)),
        Err(HeapFault::Memory) => Err(Stop::Memory),
    }
}

fn boxed_int<P: Lookups>(letter: u8, value: i32, world: &mut World<P>) -> Result<Slot, Stop>
    ensures made { EndsAs (λ s. (s, world.new.world.heap)) result
        (end_of (P.oracle world.old.names) (or_out Cells (boxed letter (Int value) world.old.world.heap))) }
    ensures rest { HeapAlone world.old world.new }
    ensures kept { KeptIfThrown result world.old world.new }
{
    if letter == b'Z' {
        reference_to(world.box_of_boolean(value != 0))
    } else {
        reference_to(world.box_of_int(value))
    }
}

/// The box of a value, `valueOf` by its type: byte, char and short are Integers. What is no number stays.
fn boxed<P: Lookups>(letter: u8, slot: Slot, world: &mut World<P>) -> Result<Slot, Stop>
    ensures made { EndsAs (λ s. (s, world.new.world.heap)) result
        (end_of (P.oracle world.old.names) (or_out Cells (boxed letter slot world.old.world.heap))) }
    ensures rest { HeapAlone world.old world.new }
    ensures kept { KeptIfThrown result world.old world.new }
{
    match slot {
        Slot::Int(value) => boxed_int(letter, value, world),
        Slot::Long(value) => reference_to(world.box_of_long(value)),
        other => Ok(other),
    }
}

/// A value of one type in a box where another wants one.
#[tactic(auto, using(crate::proofs::LetterLemmas::steps))]
pub(crate) fn boxed_as<P: Lookups>(
    from: TypeForm<'_>,
    to: TypeForm<'_>,
    slot: Slot,
    world: &mut World<P>,
) -> Result<Slot, Stop>
    ensures made { EndsAs (λ s. (s, world.new.world.heap)) result (end_of (P.oracle world.old.names)
        (or_out Cells (boxed_as (type_of from.entry) (type_of to.entry) slot world.old.world.heap))) }
    ensures rest { HeapAlone world.old world.new }
    ensures kept { KeptIfThrown result world.old world.new }
{
    let Some(letter) = primitive_letter(from) else {
        return Ok(slot);
    };
    match primitive_letter(to) {
        Some(_) => Ok(slot),
        None => boxed(letter, slot, world),
    }
}
