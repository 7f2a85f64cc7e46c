//! Attributes (JVMS 4.7).

ghost use Rattle.std.specs.Prelude.{◌≡◌, ◌||◌, ◌==◌, ℕ, [], List, bytes_eq, codes, Ok, Err};
ghost use Rattle.class_model.specs.declared.attribute_forms.Attribute.{Attribute};
ghost use Rattle.class_text.specs.Reading.{Reading};
ghost use Rattle.class_text.specs.Readers.{many_after, whole};
ghost use Rattle.class_text.specs.Attributes.{handler_at, bootstrap_at, other_at, stack_map_at, constant_value_at, bootstraps_at, annotations_at, code_content_at, named_at, code_attribute_at, code_attributes_at, code_bytes_at, code_at, own_content_at, content_at, attribute_at, attributes_at};
ghost use Rattle.class_model.specs.Attributes.{in_code};
ghost use Rattle.const_pool.specs.Faults.{Gives, GivesFront};
ghost use Rattle.class_read.specs.Stands.{stand_of, Keeps};

use crate::annotations::annotations_in;
use crate::frames::frames_in;
use crate::item_lists::{ReadItem, counted_in};
use crate::numbers::{run_in, u2_in, u4_in};
use crate::stands::{SeenAttributes, Stand, is_known, own_name};
use crate::targets::{IndexReader, Target, index_in};
use class_model::{Attribute, Attributes, Bootstrap, Handler};
use class_text::{CODE_NAME, MOST_CODE, STACK_MAP_TABLE_NAME};
use const_pool::{ClassFault, JudgedPool, offset_of};
use sqlite_items::Items;
use std::alloc::Global;

#[tactic(auto, unfolding(class_text::specs::Attributes::handler_at))]
fn handler_in<'a>(
    pool: &JudgedPool,
    end: u32,
    bytes: &'a [u8],
) -> Result<(Handler, &'a [u8]), ClassFault>
    ensures { GivesFront result (handler_at pool.now end bytes.now) }
{
    let (start, rest) = u2_in(end, bytes)?;
    let (stop, rest) = u2_in(end, rest)?;
    let (handler, rest) = u2_in(end, rest)?;
    let (catch_type, rest) = index_in(pool, Target::Caught, end, rest)?;
    let found = Handler {
        start,
        end: stop,
        handler,
        catch_type,
    };
    Ok((found, rest))
}

/// Reads entries of an exception table.
#[derive(Drop)]
struct HandlerReader<'p> {
    pool: &'p JudgedPool,
}

impl ReadItem for HandlerReader<'_> {
    ghost use Rattle.class_text.specs.Attributes.{handler_at};

    type Item = Handler;

    ghost one = { λ s. handler_at s.pool.now };

    fn read<'a>(&self, end: u32, bytes: &'a [u8]) -> Result<(Handler, &'a [u8]), ClassFault> {
        handler_in(self.pool, end, bytes)
    }
}

#[tactic(auto, unfolding(class_text::specs::Attributes::bootstrap_at))]
fn bootstrap_in<'a>(
    alloc: Global,
    pool: &JudgedPool,
    end: u32,
    bytes: &'a [u8],
) -> Result<(Bootstrap, &'a [u8]), ClassFault>
    ensures { GivesFront result (bootstrap_at pool.now end bytes.now) }
{
    let (handle, rest) = index_in(pool, Target::Handle, end, bytes)?;
    let loadable = IndexReader {
        pool,
        target: Target::Loadable,
    };
    let (arguments, rest) = counted_in(alloc, &loadable, end, rest)?;
    Ok((Bootstrap { handle, arguments }, rest))
}

/// Reads bootstrap methods.
#[derive(Drop)]
struct BootstrapReader<'p> {
    alloc: Global,
    pool: &'p JudgedPool,
}

impl ReadItem for BootstrapReader<'_> {
    ghost use Rattle.class_text.specs.Attributes.{bootstrap_at};

    type Item = Bootstrap;

    ghost one = { λ s. bootstrap_at s.pool.now };

    fn read<'a>(&self, end: u32, bytes: &'a [u8]) -> Result<(Bootstrap, &'a [u8]), ClassFault> {
        bootstrap_in(self.alloc, self.pool, end, bytes)
    }
}

/// An attribute that is kept by its bytes, which are all of its content.
#[tactic(auto, unfolding(class_text::specs::Attributes::other_at))]
fn other_in(
    alloc: Global,
    name: u16,
    end: u32,
    bytes: &[u8],
) -> Result<(Attribute, &[u8]), ClassFault>
    ensures { GivesFront result (other_at name end bytes.now) }
{
    let (content, rest) = bytes.split_at(bytes.len());
    let content = Items::from_slice(alloc, content)?;
    let other = Attribute::Other {
        name,
        bytes: content,
    };
    Ok((other, rest))
}

#[tactic(auto, unfolding(class_text::specs::Attributes::stack_map_at))]
fn stack_map_in<'a>(
    alloc: Global,
    pool: &JudgedPool,
    name: u16,
    end: u32,
    bytes: &'a [u8],
) -> Result<(Attribute, &'a [u8]), ClassFault>
    ensures { GivesFront result (stack_map_at pool.now name end bytes.now) }
{
    let (frames, rest) = frames_in(alloc, pool, end, bytes)?;
    Ok((Attribute::StackMap { name, frames }, rest))
}

#[tactic(auto, unfolding(class_text::specs::Attributes::constant_value_at))]
fn constant_value_in<'a>(
    pool: &JudgedPool,
    descriptor: &[u8],
    name: u16,
    end: u32,
    bytes: &'a [u8],
) -> Result<(Attribute, &'a [u8]), ClassFault>
    ensures { GivesFront result (constant_value_at pool.now descriptor.now name end bytes.now) }
{
    let (value, rest) = index_in(pool, Target::ValueFor(descriptor), end, bytes)?;
    Ok((Attribute::ConstantValue { name, value }, rest))
}

#[tactic(auto, unfolding(class_text::specs::Attributes::bootstraps_at))]
fn bootstrap_methods_in<'a>(
    alloc: Global,
    pool: &JudgedPool,
    name: u16,
    end: u32,
    bytes: &'a [u8],
) -> Result<(Attribute, &'a [u8]), ClassFault>
    ensures { GivesFront result (bootstraps_at pool.now name end bytes.now) }
{
    let (entries, rest) = counted_in(alloc, &BootstrapReader { alloc, pool }, end, bytes)?;
    Ok((Attribute::Bootstrap { name, entries }, rest))
}

/// The annotations of the attribute at a place.
#[tactic(auto, unfolding(class_text::specs::Attributes::annotations_at))]
fn visible_annotations_in<'a>(
    alloc: Global,
    pool: &JudgedPool,
    name: u16,
    at: u32,
    end: u32,
    bytes: &'a [u8],
) -> Result<(Attribute, &'a [u8]), ClassFault>
    ensures { GivesFront result (annotations_at pool.now name at end bytes.now) }
{
    let (list, rest) = annotations_in(alloc, pool, at, end, bytes)?;
    Ok((Attribute::Annotations { name, list }, rest))
}

fn is_named(text: &[u8], name: &[u8]) -> bool
    ensures { result ≡ bytes_eq name.now text.now }
{
    name == text
}

/// The content of an attribute of code.
#[tactic(auto, unfolding(class_text::specs::Attributes::code_content_at))]
fn code_content_in<'a>(
    alloc: Global,
    pool: &JudgedPool,
    name: u16,
    at: u32,
    end: u32,
    bytes: &'a [u8],
) -> Result<(Attribute, &'a [u8]), ClassFault>
    ensures { GivesFront result (code_content_at pool.now name at end bytes.now) }
{
    if is_named(pool.as_pool().text_or_empty(name), STACK_MAP_TABLE_NAME) {
        return stack_map_in(alloc, pool, name, end, bytes);
    }
    other_in(alloc, name, end, bytes)
}

/// What was read of the content of the attribute at a place, where it is all of it.
#[tactic(auto, unfolding(class_text::specs::Readers::whole))]
fn whole<'a>(
    at: u32,
    rest: &'a [u8],
    read: Result<(Attribute, &[u8]), ClassFault>,
) -> Result<(Attribute, &'a [u8]), ClassFault>
    ensures { (reading : Reading Attribute) (stop : ℕ) → GivesFront read.entry reading
        → GivesFront result (whole at stop rest.now reading) }
{
    match read {
        Ok((attribute, left)) => {
            if left.is_empty() {
                Ok((attribute, rest))
            } else {
                Err(ClassFault::BadAttribute(at))
            }
        }
        Err(ClassFault::CutShort(_)) => Err(ClassFault::BadAttribute(at)),
        Err(fault) => Err(fault),
    }
}

/// The name of an attribute, which may stand there.
#[tactic(auto, unfolding(class_text::specs::Attributes::named_at))]
fn named_in<'a>(
    pool: &JudgedPool,
    stand: Stand<'_>,
    barred: bool,
    found: &SeenAttributes,
    end: u32,
    bytes: &'a [u8],
) -> Result<(u16, &'a [u8]), ClassFault>
    requires { Keeps pool.now (stand_of stand) found.now }
    ensures { GivesFront result
        (named_at pool.now (stand_of stand.entry) barred found.now.list end bytes.now) }
{
    let (name, rest) = index_in(pool, Target::Text, end, bytes)?;
    let text = pool.as_pool().text_or_empty(name);
    if !found.is_first(pool, stand, text) {
        return Err(ClassFault::SecondAttribute(offset_of(end, bytes)));
    }
    if barred && is_named(text, CODE_NAME) {
        return Err(ClassFault::BadAttribute(offset_of(end, bytes)));
    }
    Ok((name, rest))
}

#[tactic(auto, unfolding(class_text::specs::Attributes::code_attribute_at, class_text::specs::Attributes::attribute_by, class_text::specs::Readers::within))]
fn code_attribute_in<'a>(
    alloc: Global,
    pool: &JudgedPool,
    found: &SeenAttributes,
    end: u32,
    bytes: &'a [u8],
) -> Result<(Attribute, &'a [u8]), ClassFault>
    requires { Keeps pool.now in_code found.now }
    ensures { GivesFront result (code_attribute_at pool.now found.now.list end bytes.now) }
{
    let at = offset_of(end, bytes);
    let (name, rest) = named_in(pool, Stand::Code, false, found, end, bytes)?;
    let (len, rest) = u4_in(end, rest)?;
    let (content, rest) = run_in(end, len as usize, rest)?;
    let read = code_content_in(alloc, pool, name, at, offset_of(end, rest), content);
    whole(at, rest, read)
}

/// So many attributes of code.
fn some_code_attributes_in<'a>(
    alloc: Global,
    pool: &JudgedPool,
    count: u16,
    end: u32,
    bytes: &'a [u8],
) -> Result<(Attributes, &'a [u8]), ClassFault>
    ensures { GivesFront result (many_after (code_attribute_at pool.now) [] count end bytes.now) }
{
    let mut found = SeenAttributes::new(alloc, count, bytes)?;
    let mut rest = bytes;
    for i in 0..count {
        match code_attribute_in(alloc, pool, &found, end, rest) {
            Ok((item, more)) => {
                found.push(pool, Stand::Code, item)?;
                rest = more;
            }
            Err(fault) => return Err(fault),
        }
    }
    Ok((found.list, rest))
}

#[tactic(auto, unfolding(class_text::specs::Attributes::code_attributes_at, class_text::specs::Readers::counted_after))]
fn code_attributes_in<'a>(
    alloc: Global,
    pool: &JudgedPool,
    end: u32,
    bytes: &'a [u8],
) -> Result<(Attributes, &'a [u8]), ClassFault>
    ensures { GivesFront result (code_attributes_at pool.now end bytes.now) }
{
    let (count, rest) = u2_in(end, bytes)?;
    some_code_attributes_in(alloc, pool, count, end, rest)
}

/// The bytes of code behind their length, in the attribute at a place.
#[tactic(auto, unfolding(class_text::specs::Attributes::code_bytes_at))]
fn code_bytes_in(at: u32, end: u32, bytes: &[u8]) -> Result<(&[u8], &[u8]), ClassFault>
    ensures { Gives (λ r. (r.0.now, r.1.now)) result (code_bytes_at at end bytes.now) }
{
    let (len, rest) = u4_in(end, bytes)?;
    if len == 0 {
        return Err(ClassFault::BadAttribute(at));
    }
    if len > MOST_CODE {
        return Err(ClassFault::BadAttribute(at));
    }
    run_in(end, len as usize, rest)
}

/// The content of the code attribute at a place (JVMS 4.7.3).
#[tactic(auto, unfolding(class_text::specs::Attributes::code_at))]
fn code_in<'a>(
    alloc: Global,
    pool: &JudgedPool,
    name: u16,
    at: u32,
    end: u32,
    bytes: &'a [u8],
) -> Result<(Attribute, &'a [u8]), ClassFault>
    ensures { GivesFront result (code_at pool.now name at end bytes.now) }
{
    let (max_stack, rest) = u2_in(end, bytes)?;
    let (max_locals, rest) = u2_in(end, rest)?;
    let (code, rest) = code_bytes_in(at, end, rest)?;
    let (table, rest) = counted_in(alloc, &HandlerReader { pool }, end, rest)?;
    let (attributes, rest) = code_attributes_in(alloc, pool, end, rest)?;
    let code = Attribute::Code {
        name,
        max_stack,
        max_locals,
        code: Items::from_slice(alloc, code)?,
        table,
        attributes,
    };
    Ok((code, rest))
}

/// The content under the name that is known in a place alone.
fn own_content_in<'a>(
    alloc: Global,
    pool: &JudgedPool,
    stand: Stand<'_>,
    name: u16,
    at: u32,
    end: u32,
    bytes: &'a [u8],
) -> Result<(Attribute, &'a [u8]), ClassFault>
    ensures { GivesFront result
        (own_content_at pool.now (stand_of stand.entry) name at end bytes.now) }
{
    match stand {
        Stand::Class => bootstrap_methods_in(alloc, pool, name, end, bytes),
        Stand::Field(descriptor) => constant_value_in(pool, descriptor, name, end, bytes),
        Stand::Method => code_in(alloc, pool, name, at, end, bytes),
        Stand::Code => stack_map_in(alloc, pool, name, end, bytes),
    }
}

/// The content of an attribute of a class, a field or a method.
#[tactic(auto, unfolding(class_text::specs::Attributes::content_at))]
fn content_in<'a>(
    alloc: Global,
    pool: &JudgedPool,
    stand: Stand<'_>,
    name: u16,
    at: u32,
    end: u32,
    bytes: &'a [u8],
) -> Result<(Attribute, &'a [u8]), ClassFault>
    ensures { GivesFront result (content_at pool.now (stand_of stand.entry) name at end bytes.now) }
{
    let text = pool.as_pool().text_or_empty(name);
    if is_named(text, own_name(stand)) {
        return own_content_in(alloc, pool, stand, name, at, end, bytes);
    }
    if is_known(stand, text) {
        return visible_annotations_in(alloc, pool, name, at, end, bytes);
    }
    other_in(alloc, name, end, bytes)
}

#[tactic(auto, unfolding(class_text::specs::Attributes::attribute_at, class_text::specs::Attributes::attribute_by, class_text::specs::Readers::within))]
fn attribute_in<'a>(
    alloc: Global,
    pool: &JudgedPool,
    stand: Stand<'_>,
    barred: bool,
    found: &SeenAttributes,
    end: u32,
    bytes: &'a [u8],
) -> Result<(Attribute, &'a [u8]), ClassFault>
    requires { Keeps pool.now (stand_of stand) found.now }
    ensures { GivesFront result
        (attribute_at pool.now (stand_of stand.entry) barred found.now.list end bytes.now) }
{
    let at = offset_of(end, bytes);
    let (name, rest) = named_in(pool, stand, barred, found, end, bytes)?;
    let (len, rest) = u4_in(end, rest)?;
    let (content, rest) = run_in(end, len as usize, rest)?;
    let read = content_in(alloc, pool, stand, name, at, offset_of(end, rest), content);
    whole(at, rest, read)
}

/// So many attributes of a place. Where code is barred none of them may be code.
fn some_attributes_in<'a>(
    alloc: Global,
    pool: &JudgedPool,
    stand: Stand<'_>,
    barred: bool,
    count: u16,
    end: u32,
    bytes: &'a [u8],
) -> Result<(Attributes, &'a [u8]), ClassFault>
    ensures { GivesFront result
        (many_after (attribute_at pool.now (stand_of stand.entry) barred) [] count end bytes.now) }
{
    let mut found = SeenAttributes::new(alloc, count, bytes)?;
    let mut rest = bytes;
    for i in 0..count {
        match attribute_in(alloc, pool, stand, barred, &found, end, rest) {
            Ok((item, more)) => {
                found.push(pool, stand, item)?;
                rest = more;
            }
            Err(fault) => return Err(fault),
        }
    }
    Ok((found.list, rest))
}

/// The attributes of a place, behind their count.
#[tactic(auto, unfolding(class_text::specs::Attributes::attributes_at, class_text::specs::Readers::counted_after))]
pub(crate) fn attributes_in<'a>(
    alloc: Global,
    pool: &JudgedPool,
    stand: Stand<'_>,
    barred: bool,
    end: u32,
    bytes: &'a [u8],
) -> Result<(Attributes, &'a [u8]), ClassFault>
    ensures { GivesFront result
        (attributes_at pool.now (stand_of stand.entry) barred end bytes.now) }
{
    let (count, rest) = u2_in(end, bytes)?;
    some_attributes_in(alloc, pool, stand, barred, count, end, rest)
}
