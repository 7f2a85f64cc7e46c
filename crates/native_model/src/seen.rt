//! What an object is, where it is of one kind.

ghost use Rattle.std.specs.Prelude.{◌≡◌, ◌<◌, ℕ, List, IfSome, length, option_map};
ghost use Rattle.std.specs.Option.{option_copied};
ghost use Rattle.class_model.specs.declared.identifiers.ClassId.{ClassId};
ghost use Rattle.class_model.specs.declared.identifiers.SiteId.{SiteId};
ghost use Rattle.jvm_heap.specs.Objects.{cells_of};
ghost use Rattle.jvm_heap.specs.Contents.{kind_of};
ghost use Rattle.jvm_heap.specs.Renaming.{renamed_object, renamed_kind};
ghost use Rattle.native_model.specs.Worlds.{Origin, as_text, as_int, as_long, as_boolean, as_builder, as_iterator, as_list, as_array, as_reference};
ghost use Rattle.native_model.specs.Plain.{name_of, ordinal_of, message_of, cause_of};

use class_model::ClassId;
use jvm_heap::{ArrayKind, Content, Object, PathReference, Slot};

pub(crate) fn text_in(object: &Object) -> Option<&[u16]>
    ensures { (f : ClassId → List ℕ) (g : SiteId → Origin) →
        option_copied result ≡ as_text (renamed_object f g object.now) }
{
    match object.content() {
        Content::Text { units } => Some(units.as_slice()),
        _ => None,
    }
}

pub(crate) fn builder_in(object: &Object) -> Option<&[u16]>
    ensures { (f : ClassId → List ℕ) (g : SiteId → Origin) →
        option_copied result ≡ as_builder (renamed_object f g object.now) }
{
    match object.content() {
        Content::Builder { units } => Some(units.as_slice()),
        _ => None,
    }
}

pub(crate) fn int_in(object: &Object) -> Option<i32>
    ensures { (f : ClassId → List ℕ) (g : SiteId → Origin) →
        result ≡ as_int (renamed_object f g object.now) }
{
    match object.content() {
        Content::BoxedInt { value } => Some(*value),
        _ => None,
    }
}

pub(crate) fn long_in(object: &Object) -> Option<i64>
    ensures { (f : ClassId → List ℕ) (g : SiteId → Origin) →
        result ≡ as_long (renamed_object f g object.now) }
{
    match object.content() {
        Content::BoxedLong { value } => Some(*value),
        _ => None,
    }
}

pub(crate) fn boolean_in(object: &Object) -> Option<bool>
    ensures { (f : ClassId → List ℕ) (g : SiteId → Origin) →
        result ≡ as_boolean (renamed_object f g object.now) }
{
    match object.content() {
        Content::BoxedBoolean { value } => Some(*value),
        _ => None,
    }
}

pub(crate) fn iterator_in(object: &Object) -> Option<(u32, u32)>
    ensures { (f : ClassId → List ℕ) (g : SiteId → Origin) →
        result ≡ as_iterator (renamed_object f g object.now) }
{
    match object.content() {
        Content::Iterator { list, next } => Some((*list, *next)),
        _ => None,
    }
}

pub(crate) fn name_in(object: &Object) -> Option<u32>
    ensures { (f : ClassId → List ℕ) (g : SiteId → Origin) →
        result ≡ name_of (renamed_object f g object.now) }
{
    match object.content() {
        Content::Enumerated { name, .. } => Some(*name),
        _ => None,
    }
}

pub(crate) fn ordinal_in(object: &Object) -> Option<i32>
    ensures { (f : ClassId → List ℕ) (g : SiteId → Origin) →
        result ≡ ordinal_of (renamed_object f g object.now) }
{
    match object.content() {
        Content::Enumerated { ordinal, .. } => Some(*ordinal),
        _ => None,
    }
}

pub(crate) fn message_in(object: &Object) -> Option<u32>
    ensures { (f : ClassId → List ℕ) (g : SiteId → Origin) →
        result ≡ message_of (renamed_object f g object.now) }
{
    match object.content() {
        Content::Throwable { message, .. } => Some(*message),
        _ => None,
    }
}

pub(crate) fn cause_in(object: &Object) -> Option<u32>
    ensures { (f : ClassId → List ℕ) (g : SiteId → Origin) →
        result ≡ cause_of (renamed_object f g object.now) }
{
    match object.content() {
        Content::Throwable { cause, .. } => Some(*cause),
        _ => None,
    }
}

pub(crate) fn list_in(object: &Object) -> Option<(ClassId, &[u32])>
    ensures { (f : ClassId → List ℕ) (g : SiteId → Origin) →
        option_map (λ l. (f l.0, l.1.now)) result ≡ as_list (renamed_object f g object.now) }
{
    match object.content() {
        Content::Listed { class, elements } => Some((*class, elements.as_slice())),
        _ => None,
    }
}

pub(crate) fn array_in(object: &Object) -> Option<(ArrayKind, &[Slot])>
    ensures parts { (f : ClassId → List ℕ) (g : SiteId → Origin) →
        option_map (λ a. (renamed_kind f (kind_of a.0), a.1.now)) result
        ≡ as_array (renamed_object f g object.now) }
    ensures few { IfSome result (λ a. length a.1.now < cells_of object.now) }
{
    match object.content() {
        Content::Array { kind, elements } => Some((*kind, elements.as_slice())),
        _ => None,
    }
}

pub(crate) fn reference_in(object: &Object) -> Option<&PathReference>
    ensures { (f : ClassId → List ℕ) (g : SiteId → Origin) →
        option_map (λ r. record { owner = r.now.owner; path = r.now.path }) result
        ≡ as_reference (renamed_object f g object.now) }
{
    match object.content() {
        Content::PathReference { reference } => Some(reference.get()),
        _ => None,
    }
}
