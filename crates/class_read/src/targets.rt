//! Indices at the front of bytes, each of which leads to a constant that may stand there.

ghost use Rattle.std.specs.Prelude.{◌≡◌, [], bytes_eq, codes, unwrap_or};
ghost use Rattle.class_model.specs.Constants.{class_at};
ghost use Rattle.class_text.specs.Readers.{index_at};
ghost use Rattle.class_text.specs.Attributes.{leads_to_caught};
ghost use Rattle.class_text.specs.Classes.{leads_to_super};
ghost use Rattle.const_pool.specs.Faults.{GivesFront};
ghost use Rattle.class_read.specs.Targets.{leads_to};

use crate::item_lists::ReadItem;
use crate::numbers::u2_in;
use class_text::OBJECT_NAME;
use const_pool::{ClassFault, JudgedPool, offset_of};

/// What an index leads to.
#[derive(Clone, Copy)]
pub(crate) enum Target<'a> {
    /// A class, an interface or an array class.
    Class,
    /// The same, or nothing at 0: what an exception handler catches.
    Caught,
    /// A class or an interface.
    PlainClass,
    /// The same, or nothing at 0, if the class of this number is `java/lang/Object`.
    SuperOf(u16),
    Text,
    FieldName,
    MethodName,
    /// A field descriptor.
    FieldType,
    /// A field descriptor or `V`.
    ReturnType,
    /// A method handle.
    Handle,
    /// What an instruction can load.
    Loadable,
    /// The value of an annotation under this tag.
    ValueOf(u8),
    /// The value of a field of this descriptor.
    ValueFor(&'a [u8]),
}

#[tactic(auto, unfolding(class_text::specs::Attributes::leads_to_caught, class_text::specs::Frames::leads_to_class))]
fn is_caught(pool: &JudgedPool, number: u16) -> bool
    ensures { result ≡ leads_to_caught pool.now number }
{
    if number == 0 {
        return true;
    }
    pool.as_pool().is_class(number)
}

fn is_object(pool: &JudgedPool, number: u16) -> bool
    ensures { result ≡ bytes_eq (unwrap_or (class_at pool.now number) [])
        (codes "java/lang/Object") }
{
    match pool.as_pool().class_name(number) {
        Some(name) => name == OBJECT_NAME,
        None => false,
    }
}

#[tactic(auto, unfolding(class_text::specs::Classes::leads_to_super))]
fn is_super(pool: &JudgedPool, this: u16, number: u16) -> bool
    ensures { result ≡ leads_to_super pool.now this number }
{
    if number == 0 {
        return is_object(pool, this);
    }
    pool.is_plain_class(number)
}

#[tactic(auto, unfolding(class_text::specs::Frames::leads_to_class, class_text::specs::Elements::leads_to_text, class_text::specs::Elements::leads_to_type, class_text::specs::Elements::leads_to_result, class_text::specs::Elements::leads_to_value_of, class_text::specs::Attributes::leads_to_handle, class_text::specs::Attributes::leads_to_loadable, class_text::specs::Attributes::leads_to_value_for, class_text::specs::Classes::leads_to_field_name, class_text::specs::Classes::leads_to_method_name))]
fn leads_to(pool: &JudgedPool, target: Target<'_>, number: u16) -> bool
    ensures { result ≡ leads_to pool.now target.entry number }
{
    match target {
        Target::Class => pool.as_pool().is_class(number),
        Target::Caught => is_caught(pool, number),
        Target::PlainClass => pool.is_plain_class(number),
        Target::SuperOf(this) => is_super(pool, this, number),
        Target::Text => pool.as_pool().is_text(number),
        Target::FieldName => pool.is_field_name(number),
        Target::MethodName => pool.is_method_name(number),
        Target::FieldType => pool.is_field_type(number),
        Target::ReturnType => pool.is_return_type(number),
        Target::Handle => pool.as_pool().is_handle(number),
        Target::Loadable => pool.as_pool().is_loadable(number),
        Target::ValueOf(tag) => pool.as_pool().is_value_of(tag, number),
        Target::ValueFor(descriptor) => pool.as_pool().is_value_for(descriptor, number),
    }
}

/// An index that leads to a target.
#[tactic(auto, unfolding(class_text::specs::Readers::index_at))]
pub(crate) fn index_in<'a>(
    pool: &JudgedPool,
    target: Target<'_>,
    end: u32,
    bytes: &'a [u8],
) -> Result<(u16, &'a [u8]), ClassFault>
    ensures { GivesFront result (index_at (leads_to pool.now target.entry) end bytes.now) }
{
    let (number, rest) = u2_in(end, bytes)?;
    if !leads_to(pool, target, number) {
        return Err(ClassFault::BadIndex(offset_of(end, bytes)));
    }
    Ok((number, rest))
}

/// Reads indices that lead to a target.
#[derive(Drop)]
pub(crate) struct IndexReader<'p, 't> {
    pub(crate) pool: &'p JudgedPool,
    pub(crate) target: Target<'t>,
}

impl ReadItem for IndexReader<'_, '_> {
    ghost use Rattle.class_text.specs.Readers.{index_at};
    ghost use Rattle.class_read.specs.Targets.{leads_to};

    type Item = u16;

    ghost one = { λ s. index_at (leads_to s.pool.now s.target) };

    fn read<'a>(&self, end: u32, bytes: &'a [u8]) -> Result<(u16, &'a [u8]), ClassFault> {
        index_in(self.pool, self.target, end, bytes)
    }
}
