//! Fields and methods (JVMS 4.5 and 4.6).

ghost use Rattle.std.specs.Prelude.{◌≡◌, ◌++◌, ◌∷◌, [], IfOk};
ghost use Rattle.const_pool.specs.SeenMembers.{HasSeen};
ghost use Rattle.class_text.specs.Readers.{index_at, many_after, counted_after};
ghost use Rattle.class_text.specs.Classes.{leads_to_field_type, leads_to_method_type, field_at, method_at};
ghost use Rattle.const_pool.specs.Faults.{GivesFront};
ghost use Rattle.class_read.specs.Entered.{IsEntered};

use crate::attributes::attributes_in;
use crate::numbers::u2_in;
use crate::stands::Stand;
use crate::targets::{Target, index_in};
use class_model::{Member, Members, has_code, is_bare, is_static};
use const_pool::{ClassFault, JudgedPool, MemberKeys, items_with_room, offset_of};
use std::alloc::{AllocError, Global};

/// The members before one, and their names and descriptors.
#[derive(Drop)]
struct Before<'p> {
    list: Members,
    keys: MemberKeys<'p>,
}

impl<'p> Before<'p> {
    ghost use Rattle.std.specs.Prelude.{◌≡◌, [], IfOk, OnOk};
    ghost use Rattle.class_model.specs.declared.constant_pool.Pool.{Pool};
    ghost use Rattle.const_pool.specs.SeenMembers.{HasSeen};
    ghost use Rattle.class_text.specs.Classes.{is_new};
    ghost use Rattle.class_read.specs.Entered.{IsEntered};

    /// No members, with room for so many that stand at the front of bytes.
    fn new(alloc: Global, count: u16, bytes: &[u8]) -> Result<Before<'p>, AllocError>
        ensures none { IfOk result (λ before. before.list ≡ []) }
        ensures seen { IfOk result (λ before. (pool : Pool) → HasSeen pool [] before.keys) }
    {
        let list = items_with_room(alloc, count, bytes.len(), 8)?;
        let keys = MemberKeys::new(alloc);
        Ok(Before { list, keys })
    }

    /// Enters a name and a descriptor, and tells whether no member before has both.
    fn enter(
        &mut self,
        pool: &'p JudgedPool,
        name: u16,
        descriptor: u16,
    ) -> Result<bool, AllocError>
        requires { HasSeen pool.now self.old.list self.old.keys }
        ensures first { IfOk result (λ first. first
            ≡ is_new pool.now self.old.list name descriptor) }
        ensures list { self.new.list ≡ self.old.list }
        ensures seen { OnOk result
            (IsEntered pool.now name descriptor self.old.list self.new.keys) }
    {
        let first = self.keys.insert(pool.as_pool(), name, descriptor)?;
        Ok(first)
    }
}

/// The descriptor of a field behind its name, which no field before has.
#[tactic(auto, unfolding(class_text::specs::Readers::index_at, class_text::specs::Classes::leads_to_field_type))]
fn field_type_in<'a, 'p>(
    pool: &'p JudgedPool,
    before: &mut Before<'p>,
    name: u16,
    end: u32,
    bytes: &'a [u8],
) -> Result<(u16, &'a [u8]), ClassFault>
    requires { HasSeen pool.now before.old.list before.old.keys }
    ensures read { GivesFront result
        (index_at (leads_to_field_type pool.now before.old.list name) end bytes.now) }
    ensures list { before.new.list ≡ before.old.list }
    ensures seen { IfOk result (λ r. IsEntered pool.now name r.0 before.old.list before.new.keys) }
{
    let (number, rest) = u2_in(end, bytes)?;
    if !pool.is_field_type(number) {
        return Err(ClassFault::BadIndex(offset_of(end, bytes)));
    }
    if !before.enter(pool, name, number)? {
        return Err(ClassFault::BadIndex(offset_of(end, bytes)));
    }
    Ok((number, rest))
}

/// The descriptor of a method behind its flags and its name, which no method before has.
#[tactic(auto, unfolding(class_text::specs::Readers::index_at, class_text::specs::Classes::leads_to_method_type))]
fn method_type_in<'a, 'p>(
    pool: &'p JudgedPool,
    before: &mut Before<'p>,
    flags: u16,
    name: u16,
    end: u32,
    bytes: &'a [u8],
) -> Result<(u16, &'a [u8]), ClassFault>
    requires { HasSeen pool.now before.old.list before.old.keys }
    ensures read { GivesFront result
        (index_at (leads_to_method_type pool.now before.old.list flags name) end bytes.now) }
    ensures list { before.new.list ≡ before.old.list }
    ensures seen { IfOk result (λ r. IsEntered pool.now name r.0 before.old.list before.new.keys) }
{
    let (number, rest) = u2_in(end, bytes)?;
    if !pool.is_method_type(is_static(flags), number) {
        return Err(ClassFault::BadIndex(offset_of(end, bytes)));
    }
    if !before.enter(pool, name, number)? {
        return Err(ClassFault::BadIndex(offset_of(end, bytes)));
    }
    Ok((number, rest))
}

/// Reads a field, and enters its name and descriptor.
#[tactic(auto, unfolding(class_text::specs::Classes::field_at))]
fn field_in<'a, 'p>(
    alloc: Global,
    pool: &'p JudgedPool,
    before: &mut Before<'p>,
    end: u32,
    bytes: &'a [u8],
) -> Result<(Member, &'a [u8]), ClassFault>
    requires { HasSeen pool.now before.old.list before.old.keys }
    ensures read { GivesFront result (field_at pool.now before.old.list end bytes.now) }
    ensures list { before.new.list ≡ before.old.list }
    ensures seen { IfOk result
        (λ r. HasSeen pool.now (before.old.list ++ r.0 ∷ []) before.new.keys) }
{
    let (flags, rest) = u2_in(end, bytes)?;
    let (name, rest) = index_in(pool, Target::FieldName, end, rest)?;
    let (descriptor, rest) = field_type_in(pool, before, name, end, rest)?;
    let stand = Stand::Field(pool.as_pool().text_or_empty(descriptor));
    let (attributes, rest) = attributes_in(alloc, pool, stand, false, end, rest)?;
    let field = Member {
        flags,
        name,
        descriptor,
        attributes,
    };
    Ok((field, rest))
}

/// Reads a method, and enters its name and descriptor.
#[tactic(auto, unfolding(class_text::specs::Classes::method_at))]
fn method_in<'a, 'p>(
    alloc: Global,
    pool: &'p JudgedPool,
    before: &mut Before<'p>,
    end: u32,
    bytes: &'a [u8],
) -> Result<(Member, &'a [u8]), ClassFault>
    requires { HasSeen pool.now before.old.list before.old.keys }
    ensures read { GivesFront result (method_at pool.now before.old.list end bytes.now) }
    ensures list { before.new.list ≡ before.old.list }
    ensures seen { IfOk result
        (λ r. HasSeen pool.now (before.old.list ++ r.0 ∷ []) before.new.keys) }
{
    let (flags, rest) = u2_in(end, bytes)?;
    let (name, rest) = index_in(pool, Target::MethodName, end, rest)?;
    let (descriptor, rest) = method_type_in(pool, before, flags, name, end, rest)?;
    let barred = is_bare(flags);
    let (attributes, rest) = attributes_in(alloc, pool, Stand::Method, barred, end, rest)?;
    if !barred && !has_code(attributes.as_slice()) {
        return Err(ClassFault::CodeMissing(offset_of(end, bytes)));
    }
    let method = Member {
        flags,
        name,
        descriptor,
        attributes,
    };
    Ok((method, rest))
}

/// So many fields.
fn some_fields_in<'a>(
    alloc: Global,
    pool: &JudgedPool,
    count: u16,
    end: u32,
    bytes: &'a [u8],
) -> Result<(Members, &'a [u8]), ClassFault>
    ensures { GivesFront result (many_after (field_at pool.now) [] count end bytes.now) }
{
    let mut before = Before::new(alloc, count, bytes)?;
    let mut rest = bytes;
    for i in 0..count {
        match field_in(alloc, pool, &mut before, end, rest) {
            Ok((item, more)) => {
                before.list.push(item)?;
                rest = more;
            }
            Err(fault) => return Err(fault),
        }
    }
    Ok((before.list, rest))
}

/// The fields of a class, behind their count.
#[tactic(auto, unfolding(class_text::specs::Readers::counted_after))]
pub(crate) fn fields_in<'a>(
    alloc: Global,
    pool: &JudgedPool,
    end: u32,
    bytes: &'a [u8],
) -> Result<(Members, &'a [u8]), ClassFault>
    ensures { GivesFront result (counted_after (field_at pool.now) end bytes.now) }
{
    let (count, rest) = u2_in(end, bytes)?;
    some_fields_in(alloc, pool, count, end, rest)
}

/// So many methods.
fn some_methods_in<'a>(
    alloc: Global,
    pool: &JudgedPool,
    count: u16,
    end: u32,
    bytes: &'a [u8],
) -> Result<(Members, &'a [u8]), ClassFault>
    ensures { GivesFront result (many_after (method_at pool.now) [] count end bytes.now) }
{
    let mut before = Before::new(alloc, count, bytes)?;
    let mut rest = bytes;
    for i in 0..count {
        match method_in(alloc, pool, &mut before, end, rest) {
            Ok((item, more)) => {
                before.list.push(item)?;
                rest = more;
            }
            Err(fault) => return Err(fault),
        }
    }
    Ok((before.list, rest))
}

/// The methods of a class, behind their count.
#[tactic(auto, unfolding(class_text::specs::Readers::counted_after))]
pub(crate) fn methods_in<'a>(
    alloc: Global,
    pool: &JudgedPool,
    end: u32,
    bytes: &'a [u8],
) -> Result<(Members, &'a [u8]), ClassFault>
    ensures { GivesFront result (counted_after (method_at pool.now) end bytes.now) }
{
    let (count, rest) = u2_in(end, bytes)?;
    some_methods_in(alloc, pool, count, end, rest)
}
