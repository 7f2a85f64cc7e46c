//! Reading a pool.

ghost use Rattle.std.specs.Prelude.{ℕ, List, ◌≡◌, ◌+◌, ◌++◌, ◌-◌, ◌<◌, ◌≤◌, ◌^◌, length, drop, IfOk, IfErr, option_map, false};
ghost use Rattle.std.specs.List.{flat_map};
ghost use Rattle.class_model.specs.declared.constant_pool.Pool.{Pool};
ghost use Rattle.class_model.specs.Constants.{takes_two, IsPool};
ghost use Rattle.class_model.specs.Spelling as spelling;
ghost use Rattle.class_text.specs.Pool.{constant_of_two, method_handle_at, fixed_at, is_tag, is_wide, utf8_at, constant_at_front, constants_at, wrong_at, judged, pool_at};
ghost use Rattle.class_text.specs.Meanings.{IsMeantInPool};
ghost use Rattle.const_pool.specs.TextForms.{IsTableOf};
ghost use Rattle.const_pool.specs.Faults.{GivesFront, IsOf, Fails, IsOkUnlessMemory, with_front};

use crate::class_fault::ClassFault;
use crate::judged_pool::JudgedPool;
use crate::numbers::{offset_of, u2_in, u4_in, u8_in};
use crate::room::items_with_room;
use crate::tags::{
    CLASS_TAG, DOUBLE_TAG, FLOAT_TAG, INTEGER_TAG, INVOKE_DYNAMIC_TAG, LONG_TAG, METHOD_HANDLE_TAG,
    METHOD_TYPE_TAG, NAME_AND_TYPE_TAG, STRING_TAG, UTF8_TAG,
};
use crate::targets::has_targets;
use crate::text_forms::TextTable;
use class_model::{Constant, Constants, Pool, is_modified_utf8};
use sqlite_items::Items;
use std::alloc::Global;

fn handle_in(bytes: &[u8]) -> Option<(Constant, &[u8])>
    ensures { option_map (λ r. (r.0, r.1.now)) result ≡ method_handle_at bytes.now }
{
    let (kind, rest) = bytes.split_first()?;
    let (reference, rest) = u2_in(rest)?;
    let handle = Constant::Handle {
        kind: *kind,
        reference,
    };
    Some((handle, rest))
}

fn name_type_in(bytes: &[u8]) -> Option<(Constant, &[u8])>
    ensures { option_map (λ r. (r.0, r.1.now)) result
        ≡ constant_of_two Constant.NameType bytes.now }
{
    let (name, rest) = u2_in(bytes)?;
    let (descriptor, rest) = u2_in(rest)?;
    Some((Constant::NameType { name, descriptor }, rest))
}

fn dynamic_in(bytes: &[u8]) -> Option<(Constant, &[u8])>
    ensures { option_map (λ r. (r.0, r.1.now)) result
        ≡ constant_of_two Constant.InvokeDynamic bytes.now }
{
    let (bootstrap, rest) = u2_in(bytes)?;
    let (name_type, rest) = u2_in(rest)?;
    let site = Constant::InvokeDynamic {
        bootstrap,
        name_type,
    };
    Some((site, rest))
}

fn ref_in(tag: u8, bytes: &[u8]) -> Option<(Constant, &[u8])>
    ensures { option_map (λ r. (r.0, r.1.now)) result
        ≡ constant_of_two (Constant.Ref tag) bytes.now }
{
    let (class, rest) = u2_in(bytes)?;
    let (name_type, rest) = u2_in(rest)?;
    let reference = Constant::Ref {
        tag,
        class,
        name_type,
    };
    Some((reference, rest))
}

/// What stands behind a tag, but for a text. `None` where it is cut.
#[tactic(auto, unfolding(class_text::specs::Pool::fixed_at))]
fn fixed_in(tag: u8, bytes: &[u8]) -> Option<(Constant, &[u8])>
    ensures { option_map (λ r. (r.0, r.1.now)) result ≡ fixed_at tag bytes.now }
{
    if tag == INTEGER_TAG {
        let (n, rest) = u4_in(bytes)?;
        return Some((Constant::Integer(n), rest));
    }
    if tag == FLOAT_TAG {
        let (n, rest) = u4_in(bytes)?;
        return Some((Constant::Float(n), rest));
    }
    if tag == LONG_TAG {
        let (n, rest) = u8_in(bytes)?;
        return Some((Constant::Long(n), rest));
    }
    if tag == DOUBLE_TAG {
        let (n, rest) = u8_in(bytes)?;
        return Some((Constant::Double(n), rest));
    }
    if tag == CLASS_TAG {
        let (name, rest) = u2_in(bytes)?;
        return Some((Constant::Class(name), rest));
    }
    if tag == STRING_TAG {
        let (text, rest) = u2_in(bytes)?;
        return Some((Constant::Text(text), rest));
    }
    if tag == NAME_AND_TYPE_TAG {
        return name_type_in(bytes);
    }
    if tag == METHOD_HANDLE_TAG {
        return handle_in(bytes);
    }
    if tag == METHOD_TYPE_TAG {
        let (descriptor, rest) = u2_in(bytes)?;
        return Some((Constant::MethodType(descriptor), rest));
    }
    if tag == INVOKE_DYNAMIC_TAG {
        return dynamic_in(bytes);
    }
    ref_in(tag, bytes)
}

/// A text behind its length, of the constant at a place.
#[tactic(auto, unfolding(class_text::specs::Pool::utf8_at))]
fn utf8_in(alloc: Global, at: u32, bytes: &[u8]) -> Result<(Constant, &[u8]), ClassFault>
    ensures { GivesFront result (utf8_at at bytes.now) }
{
    let Some((len, rest)) = u2_in(bytes) else {
        return Err(ClassFault::CutShort(at));
    };
    let len = usize::from(len);
    if rest.len() < len {
        return Err(ClassFault::CutShort(at));
    }
    let (text, rest) = rest.split_at(len);
    if !is_modified_utf8(text) {
        return Err(ClassFault::BadUtf8(at));
    }
    let text = Items::from_slice(alloc, text)?;
    Ok((Constant::Utf8(text), rest))
}

fn is_tag(tag: u8) -> bool
    ensures { result ≡ is_tag tag }
{
    matches!(
        tag,
        UTF8_TAG | INTEGER_TAG..=NAME_AND_TYPE_TAG
            | METHOD_HANDLE_TAG
            | METHOD_TYPE_TAG
            | INVOKE_DYNAMIC_TAG
    )
}

fn is_wide(tag: u8) -> bool
    ensures { result ≡ is_wide tag }
{
    tag == LONG_TAG || tag == DOUBLE_TAG
}

/// The constant at the front, where so many numbers are left.
#[tactic(auto, unfolding(class_text::specs::Pool::constant_at_front))]
fn constant_in(
    alloc: Global,
    end: u32,
    left: u16,
    bytes: &[u8],
) -> Result<(Constant, &[u8]), ClassFault>
    ensures { GivesFront result (constant_at_front end left bytes.now) }
{
    let at = offset_of(end, bytes);
    let Some((tag, rest)) = bytes.split_first() else {
        return Err(ClassFault::CutShort(at));
    };
    if !is_tag(*tag) {
        return Err(ClassFault::BadTag(at, *tag));
    }
    if is_wide(*tag) && left < 2 {
        return Err(ClassFault::BadTag(at, *tag));
    }
    if *tag == UTF8_TAG {
        return utf8_in(alloc, at, rest);
    }
    match fixed_in(*tag, rest) {
        Some(found) => Ok(found),
        None => Err(ClassFault::CutShort(at)),
    }
}

pub(crate) fn takes_two(constant: &Constant) -> bool
    ensures { result ≡ takes_two constant.now }
{
    match constant {
        Constant::Long(_) => true,
        Constant::Double(_) => true,
        _ => false,
    }
}

/// Reads what stands at the next number behind other constants, where so many numbers are left, and says whether a
/// Second is to come then.
fn step<'a>(
    alloc: Global,
    end: u32,
    left: u16,
    due: bool,
    constants: &mut Constants,
    bytes: &'a [u8],
) -> Result<(bool, &'a [u8]), ClassFault>
    requires { 0 < left }
    ensures step { IfOk result
        (λ r. with_front constants.new (constants_at end r.0 (left - 1) r.1.now)
        ≡ with_front constants.old (constants_at end due left bytes.now)) }
    ensures fault { IfErr result
        (λ e. Fails e (with_front constants.old (constants_at end due left bytes.now))) }
{
    if due {
        constants.push(Constant::Second)?;
        return Ok((false, bytes));
    }
    match constant_in(alloc, end, left, bytes) {
        Ok((constant, rest)) => {
            let wide = takes_two(&constant);
            constants.push(constant)?;
            Ok((wide, rest))
        }
        Err(fault) => Err(fault),
    }
}

/// The constants of so many numbers.
fn constants_in(
    alloc: Global,
    end: u32,
    numbers: u16,
    bytes: &[u8],
) -> Result<(Constants, &[u8]), ClassFault>
    ensures { GivesFront result (constants_at end false numbers bytes.now) }
{
    let mut constants = items_with_room(alloc, numbers, bytes.len(), 3)?;
    let mut rest = bytes;
    let mut due = false;
    for read in 0..numbers {
        match step(alloc, end, numbers - read, due, &mut constants, rest) {
            Ok((wide, more)) => {
                due = wide;
                rest = more;
            }
            Err(fault) => return Err(fault),
        }
    }
    Ok((constants, rest))
}

/// The bytes that a constant takes.
#[tactic(auto, unfolding(class_model::specs::Spelling::constant))]
fn length_of(constant: &Constant) -> usize
    requires { length (spelling.constant constant.now) < 2 ^ 32 }
    ensures { result ≡ length (spelling.constant constant.now) }
{
    match constant {
        Constant::Utf8(bytes) => 3 + bytes.len(),
        Constant::Integer(_) => 5,
        Constant::Float(_) => 5,
        Constant::Long(_) => 9,
        Constant::Double(_) => 9,
        Constant::Class(_) => 3,
        Constant::Text(_) => 3,
        Constant::Ref { .. } => 5,
        Constant::NameType { .. } => 5,
        Constant::Handle { .. } => 4,
        Constant::MethodType(_) => 3,
        Constant::InvokeDynamic { .. } => 5,
        Constant::Second => 0,
    }
}

/// The place of the first constant with a wrong target, where the first constant stands at a place.
fn wrong_in(pool: &Pool, texts: &TextTable, at: u32) -> Option<u32>
    requires room { at + length (flat_map spelling.constant pool.now.constants) < 2 ^ 32 }
    requires texts { IsTableOf pool.now texts.now }
    ensures { result ≡ wrong_at pool.now at pool.now.constants }
{
    let mut place = at as usize;
    for constant in pool.constants.as_slice() {
        if !has_targets(pool, texts, constant) {
            return Some(place as u32);
        }
        place += length_of(constant);
    }
    None
}

/// The pool, unless one of its targets is wrong.
fn judge(
    alloc: Global,
    at: u32,
    pool: Pool,
    after: &[u8],
) -> Result<(JudgedPool, &[u8]), ClassFault>
    requires { at + length (flat_map spelling.constant pool.constants) < 2 ^ 32 }
    ensures { GivesFront result (judged at (pool.constants, after.entry.now)) }
{
    let texts = TextTable::of(alloc, &pool)?;
    match wrong_in(&pool, &texts, at) {
        Some(place) => Err(ClassFault::BadIndex(place)),
        None => Ok((JudgedPool::of(pool, texts), after)),
    }
}

/// The pool at the front of bytes that go on to the end of the file.
#[tactic(auto, unfolding(class_text::specs::Pool::pool_at))]
fn pool_in(alloc: Global, end: u32, bytes: &[u8]) -> Result<(JudgedPool, &[u8]), ClassFault>
    requires { length bytes.now ≤ end }
    ensures { GivesFront result (pool_at end bytes.now) }
{
    let at = offset_of(end, bytes);
    let Some((count, rest)) = u2_in(bytes) else {
        return Err(ClassFault::CutShort(at));
    };
    if count == 0 {
        return Err(ClassFault::BadIndex(at));
    }
    match constants_in(alloc, end, count - 1, rest) {
        Ok((constants, after)) => judge(alloc, offset_of(end, rest), Pool { constants }, after),
        Err(fault) => Err(fault),
    }
}

/// Reads the pool that begins at an offset of a file, its count first, and gives the offset after it. The refusal is
/// the first bad place (JVMS 4.4): cuts, tags and texts in file order, and then the first constant with a wrong target.
pub fn read_pool(alloc: Global, bytes: &[u8], at: u32) -> Result<(JudgedPool, u32), ClassFault>
    requires small { length bytes.now < 2 ^ 32 }
    requires within { at ≤ length bytes.now }
    // What is read is a pool, and is spelled there.
    ensures found { IfOk result (λ r. IsPool r.0
        × (drop at bytes.now ≡ spelling.pool r.0 ++ drop r.1 bytes.now)
        × (r.1 ≤ length bytes.now)) }
    // What is spelled there is read.
    ensures only { (pool : Pool) (rest : List ℕ) → IsPool pool
        → drop at bytes.now ≡ spelling.pool pool ++ rest
        → IsOkUnlessMemory (λ r. (r.0 ≡ pool) × (drop r.1 bytes.now ≡ rest)) result }
    // A refusal is the first bad place.
    ensures fault { IfErr result (λ e. Fails e (pool_at (length bytes.now) (drop at bytes.now))) }
    // It says what stands there.
    ensures says { IfErr result (λ e. IsOf (IsMeantInPool bytes.now at (length bytes.now)) e) }
{
    let end = bytes.len() as u32;
    let (_, rest) = bytes.split_at(at as usize);
    match pool_in(alloc, end, rest) {
        Ok((pool, after)) => Ok((pool, offset_of(end, after))),
        Err(fault) => Err(fault),
    }
}
