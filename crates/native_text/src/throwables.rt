//! Natives of throwables.

ghost use Rattle.std.specs.Prelude.{◌≡◌, ℕ, List, IfOk, Ok, option_map};
ghost use Rattle.class_model.specs.declared.identifiers.ClassId.{ClassId};
ghost use Rattle.class_model.specs.declared.identifiers.SiteId.{SiteId};
ghost use Rattle.jvm_heap.specs.Renaming.{renamed_object};
ghost use Rattle.native_model.specs.Ends.{answer_of, Answers};
ghost use Rattle.native_model.specs.Plain.{throwable_made, throwable_message, throwable_cause, suppressed_added, throwable_text};
ghost use Rattle.native_text.specs.Found.{class_and_message, thrown_units};
ghost use Rattle.native_model.specs.Worlds as worlds;
ghost use Rattle.native_model.specs.Worlds.{Origin, seen};

use crate::names::dotted;
use class_model::ClassId;
use jvm_heap::{Content, Object, Slot, Units};
use native_model::{Naming, NativeEnd, StepFault, Throw, World};

/// The constructors of throwables: message and cause, 0 where there is none.
pub fn throwable_made<N: Naming>(
    object: u32,
    message: u32,
    cause: u32,
    world: &mut World<N>,
) -> NativeEnd
    ensures { Answers (throwable_made object message cause world.old.world) (Ok result) world.old world.new }
{
    world.set_message(object, message, cause)
}

/// `Throwable.getMessage()`.
pub fn throwable_message<N: Naming>(object: u32, world: &World<N>) -> NativeEnd
    ensures { throwable_message object world.now.world ≡ answer_of result world.now.world }
{
    match world.message(object) {
        Some(message) => NativeEnd::Gives(Some(Slot::Ref(message))),
        None => NativeEnd::Throws(Throw::IncompatibleChange),
    }
}

/// `Throwable.getCause()`.
pub fn throwable_cause<N: Naming>(object: u32, world: &World<N>) -> NativeEnd
    ensures { throwable_cause object world.now.world ≡ answer_of result world.now.world }
{
    match world.cause(object) {
        Some(cause) => NativeEnd::Gives(Some(Slot::Ref(cause))),
        None => NativeEnd::Throws(Throw::IncompatibleChange),
    }
}

/// `Throwable.addSuppressed(Throwable)`, which has no effect.
pub fn suppressed_added(object: u32, other: u32) -> NativeEnd
    ensures { (w : worlds.World) → suppressed_added object other w ≡ answer_of result w }
{
    let _ = (object, other);
    NativeEnd::Gives(None)
}

/// The class and the message of an object that is a throwable.
fn thrown_in(object: &Object) -> Option<(ClassId, u32)>
    ensures { (f : ClassId → List ℕ) (g : SiteId → Origin) →
        option_map (λ t. (f t.0, t.1)) result ≡ class_and_message (renamed_object f g object.now) }
{
    match object.content() {
        Content::Throwable { class, message, .. } => Some((*class, *message)),
        _ => None,
    }
}

/// The name of a throwable's class, and its message.
fn thrown<N: Naming>(object: u32, world: &World<N>) -> Option<(&[u8], u32)>
    ensures { option_map (λ t. (t.0.now, t.1)) result
        ≡ seen class_and_message object world.now.world }
{
    match world.object(object) {
        Some(found) => match thrown_in(found) {
            Some((class, message)) => Some((world.names().name_of(class), message)),
            None => None,
        },
        None => None,
    }
}

fn thrown_units<N: Naming>(object: u32, world: &World<N>) -> Result<Option<Units>, StepFault>
    ensures { IfOk result (λ found. found ≡ thrown_units object world.now.world) }
{
    let Some((class, message)) = thrown(object, world) else {
        return Ok(None);
    };
    let mut units = dotted(world.allocator(), class)?;
    if let Some(text) = world.text(message) {
        units.extend_from_slice(&[0x3a, 0x20])?;
        units.extend_from_slice(text)?;
    }
    Ok(Some(Units::from_vec(units)))
}

/// `Throwable.toString()`: the class's name with dots, and the message behind a colon and a blank, where there is one.
#[tactic(auto, using(crate::proofs::Thrown::thrown_told))]
pub fn throwable_text<N: Naming>(object: u32, world: &mut World<N>) -> Result<NativeEnd, StepFault>
    ensures { Answers (throwable_text object world.old.world) result world.old world.new }
{
    match thrown_units(object, world)? {
        Some(units) => world.give_text(units),
        None => Ok(NativeEnd::Throws(Throw::IncompatibleChange)),
    }
}
