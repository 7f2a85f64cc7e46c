//! Writing a pool.

ghost use Rattle.std.specs.Prelude.{◌≡◌, ◌+◌, ◌++◌, ◌∷◌, [], ◌<◌, ◌≤◌, ◌^◌, length, true, false, Some, None, IfOk, IfErr, OnOk, IsOkUnless, nat_le, ◌&&◌};
ghost use Rattle.std.specs.Int.{w16, w32, w64, to_be_bytes};
ghost use Rattle.std.specs.List.{flat_map, AllByRecursion};
ghost use Rattle.class_model.specs.Constants.{IsConstant, IsPool, is_second};
ghost use Rattle.class_model.specs.Spelling as spelling;
ghost use Rattle.const_pool.specs.TextForms.{IsTableOf};
ghost use Rattle.const_pool.specs.Writing.{is_short, is_formed, is_placed, misfit_of, misfit_from, misfit, Names};

use crate::pool_reader::takes_two;
use crate::tags::{
    CLASS_TAG, DOUBLE_TAG, FIELD_TAG, FLOAT_TAG, INTEGER_TAG, INTERFACE_METHOD_TAG,
    INVOKE_DYNAMIC_TAG, LONG_TAG, METHOD_HANDLE_TAG, METHOD_TYPE_TAG, NAME_AND_TYPE_TAG,
    STRING_TAG, UTF8_TAG,
};
use crate::targets::has_targets;
use crate::text_forms::TextTable;
use crate::write_fault::{Part, WriteFault};
use class_model::{Constant, Pool, is_modified_utf8};
use std::alloc::{AllocError, Global};
use tree_value::Bytes;

fn is_short(constant: &Constant) -> bool
    ensures { result ≡ is_short constant.now }
{
    match constant {
        Constant::Utf8(bytes) => bytes.len() < 65536,
        _ => true,
    }
}

fn is_reference_tag(tag: u8) -> bool
    ensures { result ≡ (nat_le FIELD_TAG tag && nat_le tag INTERFACE_METHOD_TAG) }
{
    FIELD_TAG <= tag && tag <= INTERFACE_METHOD_TAG
}

fn is_formed(constant: &Constant) -> bool
    ensures { result ≡ is_formed constant.now }
{
    match constant {
        Constant::Utf8(bytes) => is_modified_utf8(bytes.as_slice()),
        Constant::Ref { tag, .. } => is_reference_tag(*tag),
        _ => true,
    }
}

fn is_second(constant: &Constant) -> bool
    ensures { result ≡ is_second constant.now }
{
    match constant {
        Constant::Second => true,
        _ => false,
    }
}

fn is_placed(due: bool, last: bool, constant: &Constant) -> bool
    ensures { result ≡ is_placed due last constant.now }
{
    if due != is_second(constant) {
        return false;
    }
    if !last {
        return true;
    }
    !takes_two(constant)
}

/// Why the constant of a number has no text there.
#[tactic(auto, unfolding(crate::specs::Writing::misfit_of))]
fn misfit_in(
    pool: &Pool,
    texts: &TextTable,
    number: u32,
    due: bool,
    last: bool,
    constant: &Constant,
) -> Option<WriteFault>
    requires { IsTableOf pool.now texts.now }
    ensures { result ≡ misfit_of pool.now number due last constant.now }
{
    if !is_short(constant) {
        return Some(WriteFault::TooLarge(Part::Constant(number)));
    }
    if !is_formed(constant) {
        return Some(WriteFault::BadShape(Part::Constant(number)));
    }
    if !is_placed(due, last, constant) {
        return Some(WriteFault::BadShape(Part::Constant(number)));
    }
    if !has_targets(pool, texts, constant) {
        return Some(WriteFault::BadShape(Part::Constant(number)));
    }
    None
}

/// Writes a u2 at the end.
pub fn put_u2(out: &mut Vec<u8>, n: u16) -> Result<(), AllocError>
    ensures { OnOk result (out.new.items ≡ out.old.items ++ to_be_bytes w16 n) }
{
    out.extend_from_slice(n.to_be_bytes().as_slice())
}

/// Writes a u4 at the end.
pub fn put_u4(out: &mut Vec<u8>, n: u32) -> Result<(), AllocError>
    ensures { OnOk result (out.new.items ≡ out.old.items ++ to_be_bytes w32 n) }
{
    out.extend_from_slice(n.to_be_bytes().as_slice())
}

fn put_u8(out: &mut Vec<u8>, n: u64) -> Result<(), AllocError>
    ensures { OnOk result (out.new.items ≡ out.old.items ++ to_be_bytes w64 n) }
{
    out.extend_from_slice(n.to_be_bytes().as_slice())
}

fn put_index(out: &mut Vec<u8>, tag: u8, n: u16) -> Result<(), AllocError>
    ensures { OnOk result (out.new.items ≡ out.old.items ++ (tag ∷ to_be_bytes w16 n)) }
{
    out.push(tag)?;
    put_u2(out, n)
}

fn put_word(out: &mut Vec<u8>, tag: u8, n: u32) -> Result<(), AllocError>
    ensures { OnOk result (out.new.items ≡ out.old.items ++ (tag ∷ to_be_bytes w32 n)) }
{
    out.push(tag)?;
    put_u4(out, n)
}

fn put_long(out: &mut Vec<u8>, tag: u8, n: u64) -> Result<(), AllocError>
    ensures { OnOk result (out.new.items ≡ out.old.items ++ (tag ∷ to_be_bytes w64 n)) }
{
    out.push(tag)?;
    put_u8(out, n)
}

fn put_pair(out: &mut Vec<u8>, tag: u8, m: u16, n: u16) -> Result<(), AllocError>
    ensures { OnOk result (out.new.items ≡ out.old.items
        ++ (tag ∷ to_be_bytes w16 m ++ to_be_bytes w16 n)) }
{
    put_index(out, tag, m)?;
    put_u2(out, n)
}

fn put_handle(out: &mut Vec<u8>, kind: u8, reference: u16) -> Result<(), AllocError>
    ensures { OnOk result (out.new.items ≡ out.old.items
        ++ (METHOD_HANDLE_TAG ∷ kind ∷ to_be_bytes w16 reference)) }
{
    out.push(METHOD_HANDLE_TAG)?;
    put_index(out, kind, reference)
}

fn put_text(out: &mut Vec<u8>, text: &[u8]) -> Result<(), AllocError>
    requires { length text.now < 2 ^ 16 }
    ensures { OnOk result (out.new.items ≡ out.old.items
        ++ (UTF8_TAG ∷ to_be_bytes w16 (length text.now) ++ text.now)) }
{
    put_index(out, UTF8_TAG, text.len() as u16)?;
    out.extend_from_slice(text)
}

/// Writes a constant at the end.
#[tactic(auto, unfolding(class_model::specs::Spelling::constant))]
fn put_constant(out: &mut Vec<u8>, constant: &Constant) -> Result<(), AllocError>
    requires short { is_short constant.now ≡ true }
    requires formed { is_formed constant.now ≡ true }
    ensures fits { OnOk result (IsConstant constant.now) }
    ensures ok { OnOk result (out.new.items ≡ out.old.items ++ spelling.constant constant.now) }
{
    match constant {
        Constant::Utf8(text) => put_text(out, text.as_slice()),
        Constant::Integer(n) => put_word(out, INTEGER_TAG, *n),
        Constant::Float(n) => put_word(out, FLOAT_TAG, *n),
        Constant::Long(n) => put_long(out, LONG_TAG, *n),
        Constant::Double(n) => put_long(out, DOUBLE_TAG, *n),
        Constant::Class(name) => put_index(out, CLASS_TAG, *name),
        Constant::Text(text) => put_index(out, STRING_TAG, *text),
        Constant::Ref {
            tag,
            class,
            name_type,
        } => put_pair(out, *tag, *class, *name_type),
        Constant::NameType { name, descriptor } => put_pair(
            out,
            NAME_AND_TYPE_TAG,
            *name,
            *descriptor,
        ),
        Constant::Handle { kind, reference } => put_handle(out, *kind, *reference),
        Constant::MethodType(descriptor) => put_index(out, METHOD_TYPE_TAG, *descriptor),
        Constant::InvokeDynamic {
            bootstrap,
            name_type,
        } => put_pair(out, INVOKE_DYNAMIC_TAG, *bootstrap, *name_type),
        Constant::Second => Ok(()),
    }
}

/// Writes the constant of a number at the end, if it may stand there.
fn put_checked(
    out: &mut Vec<u8>,
    pool: &Pool,
    texts: &TextTable,
    number: u32,
    due: bool,
    last: bool,
    constant: &Constant,
) -> Result<(), WriteFault>
    requires { IsTableOf pool.now texts.now }
    ensures none { OnOk result (misfit_of pool.now number due last constant.now ≡ None) }
    ensures fits { OnOk result (IsConstant constant.now) }
    ensures ok { OnOk result (out.new.items ≡ out.old.items ++ spelling.constant constant.now) }
    ensures fault { IfErr result (λ e. Names e (misfit_of pool.now number due last constant.now)) }
{
    match misfit_in(pool, texts, number, due, last, constant) {
        Some(fault) => Err(fault),
        None => match put_constant(out, constant) {
            Ok(()) => Ok(()),
            Err(_) => Err(WriteFault::Memory),
        },
    }
}

/// Writes the constants at the end, up to the first misfit.
fn put_all(out: &mut Vec<u8>, pool: &Pool, texts: &TextTable) -> Result<(), WriteFault>
    requires few { length pool.now.constants + 1 < 2 ^ 16 }
    requires texts { IsTableOf pool.now texts.now }
    ensures none { OnOk result (misfit_from pool.now 1 false pool.now.constants ≡ None) }
    ensures fits { OnOk result (AllByRecursion IsConstant pool.now.constants) }
    ensures ok { OnOk result (out.new.items ≡ out.old.items
        ++ flat_map spelling.constant pool.now.constants) }
    ensures fault { IfErr result (λ e. Names e (misfit_from pool.now 1 false pool.now.constants)) }
{
    let constants = pool.constants.as_slice();
    let mut due = false;
    for i in 0..constants.len() {
        let constant = &constants[i];
        let number = i as u32 + 1;
        let last = i + 1 == constants.len();
        match put_checked(out, pool, texts, number, due, last, constant) {
            Ok(()) => due = takes_two(constant),
            Err(fault) => return Err(fault),
        }
    }
    Ok(())
}

/// The text of a pool, its count first. A refusal names the first part in file order that has none: `TooLarge` where a
/// count or a length doesn't fit its field, else `BadShape`.
pub fn write_pool(alloc: Global, pool: &Pool) -> Result<Bytes, WriteFault>
    ensures written { IfOk result (λ bytes. IsPool pool.now × (bytes ≡ spelling.pool pool.now)) }
    ensures only { IsPool pool.now → IsOkUnless result WriteFault.Memory }
    ensures fault { IfErr result (λ e. Names e (misfit pool.now)) }
{
    let numbers = pool.constants.as_slice().len();
    if numbers >= 65535 {
        return Err(WriteFault::TooLarge(Part::Pool));
    }
    let mut out = Vec::new(alloc);
    match put_u2(&mut out, numbers as u16 + 1) {
        Ok(()) => match TextTable::of(alloc, pool) {
            Ok(texts) => put_rest(out, pool, &texts),
            Err(_) => Err(WriteFault::Memory),
        },
        Err(_) => Err(WriteFault::Memory),
    }
}

/// The constants behind their count.
fn put_rest(mut out: Vec<u8>, pool: &Pool, texts: &TextTable) -> Result<Bytes, WriteFault>
    requires texts { IsTableOf pool.now texts.now }
    requires few { length pool.now.constants + 1 < 2 ^ 16 }
    requires count { out.items ≡ to_be_bytes w16 (length pool.now.constants + 1) }
    ensures written { IfOk result (λ bytes. IsPool pool.now × (bytes ≡ spelling.pool pool.now)) }
    ensures only { IsPool pool.now → IsOkUnless result WriteFault.Memory }
    ensures fault { IfErr result (λ e. Names e (misfit pool.now)) }
{
    match put_all(&mut out, pool, texts) {
        Ok(()) => Ok(Bytes::from_vec(out)),
        Err(fault) => Err(fault),
    }
}
