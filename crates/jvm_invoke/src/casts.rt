//! Casts of references, and results of one type as ones of another (JVMS 6.5, checkcast, and invokedynamic of
//! `metafactory`).

ghost use Rattle.std.specs.Prelude.{◌≡◌, option_map};
ghost use Rattle.class_model.specs.TypeForms.{type_of};
ghost use Rattle.jvm_model.specs.Plans.{end_of};
ghost use Rattle.jvm_model.specs.Lambdas.{cast, cast_between, converted};
ghost use Rattle.jvm_resolve.specs.Ends.{EndsAs};
ghost use Rattle.jvm_state.specs.Changes.{HeapAlone, KeptIfThrown};
ghost use Rattle.jvm_invoke.specs.Letters.{cast_object, converted_value};

use crate::boxes::{as_type, boxed_as};
use crate::letters::primitive_letter;
use class_model::TypeForm;
use jvm_heap::Slot;
use jvm_resolve::{Lookups, Stop, is_instance, is_known};
use native_model::{Throw, World};

/// A reference to an object, which is of a type.
#[tactic(auto, using(crate::proofs::LetterLemmas::steps))]
fn cast_object<P: Lookups>(form: TypeForm<'_>, number: u32, world: &World<P>) -> Result<Slot, Stop>
    ensures { EndsAs (λ s. s) result
        (end_of (P.oracle world.now.names) (cast_object (type_of form.entry) number world.now.world)) }
{
    is_known(world.allocator(), world.names(), form)?;
    let Some(object) = world.object(number) else {
        return Err(Stop::Stuck);
    };
    if is_instance(world.names(), object, form) {
        Ok(Slot::Ref(number))
    } else {
        Err(Stop::Throws(Throw::ClassCast))
    }
}

/// A reference of a type, as checkcast has it. A primitive type is no cast.
#[tactic(auto, using(crate::proofs::LetterLemmas::casts))]
fn cast<P: Lookups>(form: TypeForm<'_>, slot: Slot, world: &World<P>) -> Result<Slot, Stop>
    ensures { EndsAs (λ s. s) result
        (end_of (P.oracle world.now.names) (cast (type_of form.entry) slot world.now.world)) }
{
    if primitive_letter(form).is_some() {
        return Ok(slot);
    }
    match slot {
        Slot::Ref(0) => Ok(slot),
        Slot::Ref(number) => cast_object(form, number, world),
        _ => Err(Stop::Stuck),
    }
}

/// A reference is cast to the type of a reference.
#[tactic(auto, using(crate::proofs::LetterLemmas::casts))]
fn cast_between<P: Lookups>(
    from: TypeForm<'_>,
    to: TypeForm<'_>,
    slot: Slot,
    world: &World<P>,
) -> Result<Slot, Stop>
    ensures { EndsAs (λ s. s) result (end_of (P.oracle world.now.names)
        (cast_between (type_of from.entry) (type_of to.entry) slot world.now.world)) }
{
    if primitive_letter(from).is_some() {
        return Ok(slot);
    }
    cast(to, slot, world)
}

/// A result of one type as one of another, which is a cast and a box where they are wanted.
#[tactic(auto, using(crate::proofs::LetterLemmas::steps))]
fn converted_value<P: Lookups>(
    from: TypeForm<'_>,
    to: TypeForm<'_>,
    slot: Slot,
    world: &mut World<P>,
) -> Result<Slot, Stop>
    ensures made { EndsAs (λ s. (s, world.new.world.heap)) result (end_of (P.oracle world.old.names)
        (converted_value (type_of from.entry) (type_of to.entry) slot world.old.world)) }
    ensures rest { HeapAlone world.old world.new }
    ensures kept { KeptIfThrown result world.old world.new }
{
    let value = as_type(from, to, slot, world)?;
    let fitting = cast_between(from, to, value, world)?;
    boxed_as(from, to, fitting, world)
}

/// A result of one type as one of another, in the world with its box. A type of `None` is that of no value.
#[tactic(auto, using(crate::proofs::LetterLemmas::results))]
pub fn converted<P: Lookups>(
    from: Option<TypeForm<'_>>,
    to: Option<TypeForm<'_>>,
    value: Option<Slot>,
    world: &mut World<P>,
) -> Result<Option<Slot>, Stop>
    ensures made { EndsAs (λ v. (v, world.new.world.heap)) result (end_of (P.oracle world.old.names)
        (converted (option_map type_of from.entry) (option_map type_of to.entry) value world.old.world)) }
    ensures rest { HeapAlone world.old world.new }
    ensures kept { KeptIfThrown result world.old world.new }
{
    let Some(to) = to else {
        return Ok(None);
    };
    let Some(from) = from else {
        return Err(Stop::Stuck);
    };
    let Some(slot) = value else {
        return Err(Stop::Stuck);
    };
    let value = converted_value(from, to, slot, world)?;
    Ok(Some(value))
}
