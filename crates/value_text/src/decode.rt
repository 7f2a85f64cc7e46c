//! The value of a JSON value. What no value has as JSON, as a second member of an object, may be passed
//! over here: whoever asks for the one text of a value prints what was found and compares.

ghost use Rattle.std.specs.Prelude.{◌≡◌, ◌-◌, ◌<◌, Some, option_map, IsSome, IfOk, string_bytes};
ghost use Rattle.std.specs.Option.{option_map_or};
ghost use Rattle.serde_json.specs.Data.{array};
ghost use Rattle.serde_json.specs.Find.{as_number, as_object};
ghost use Rattle.serde_json.specs.View.{view, items_view};
ghost use Rattle.value_text.specs.Short.{long as Long, reference as Reference};
ghost use Rattle.value_text.specs.Decoded.{Finds, FindsAll, value_of, values_of, member_of, reference_of, integer_of, text_at, digest_of};

use crate::utf8::to_text;
use serde_json::Value as Json;
use std::alloc::{AllocError, Global};
use tree_value::{Digest, Path, PathFault, PathRef, Sequence, Value};

/// The digest of 64 hexadecimal digits. Digits of either case are read: whoever asks for the one spelling
/// prints what was found and compares.
pub fn digest_of(hex: &str) -> Option<Digest>
    ensures { result ≡ digest_of hex.now }
{
    let mut bytes = [0; 32];
    match hex::decode_to_slice(hex, &mut bytes) {
        Ok(()) => Some(Digest::of(bytes)),
        Err(_) => None,
    }
}

fn int_of(json: &Json) -> Option<Value>
    requires { IsSome (as_number (view json.now)) }
    ensures { Finds 1 (value_of (view json.now)) result }
{
    let number = json.as_i64()?;
    match i32::try_from(number) {
        Ok(number) => Some(Value::Int(number)),
        Err(_) => None,
    }
}

fn text_at(json: &Json, at: usize) -> Option<&str>
    ensures { option_map (λ text. text.now) result ≡ text_at at (view json.now) }
{
    json.get(at)?.as_str()
}

fn long_of(json: &Json) -> Option<Value>
    ensures { Finds 1 (option_map Long (integer_of (view json.now))) result }
{
    let number = json.as_i64()?;
    Some(Value::Long(number))
}

fn reference_at(
    alloc: Global,
    owner: &str,
    path: &str,
    digest: Digest,
) -> Result<Option<Value>, AllocError>
    ensures { IfOk result (λ found. Finds 1 (Some (Reference owner.now path.now digest)) found) }
{
    let path = match Path::of(alloc, path.as_bytes()) {
        Ok(path) => path,
        Err(PathFault::BadPath) => return Ok(None),
        Err(PathFault::Memory) => return Err(AllocError),
    };
    let owner = to_text(alloc, owner)?;
    Ok(Some(Value::Ref(PathRef {
        owner,
        path,
        digest,
    })))
}

fn reference_of(alloc: Global, json: &Json) -> Result<Option<Value>, AllocError>
    ensures { IfOk result (λ found. Finds 1 (reference_of (view json.now)) found) }
{
    let (Some(owner), Some(path), Some(hex)) = (
        text_at(json, 0),
        text_at(json, 1),
        text_at(json, 2),
    ) else {
        return Ok(None);
    };
    match digest_of(hex) {
        Some(digest) => reference_at(alloc, owner, path, digest),
        None => Ok(None),
    }
}

fn member_of(alloc: Global, json: &Json) -> Result<Option<Value>, AllocError>
    requires { IsSome (as_object (view json.now)) }
    ensures { IfOk result (λ found. Finds 1 (value_of (view json.now)) found) }
{
    if let Some(long) = json.get("l") {
        return Ok(long_of(long));
    }
    match json.get("r") {
        Some(reference) => reference_of(alloc, reference),
        None => Ok(None),
    }
}

#[cycle(decode)]
pub fn decode(alloc: Global, json: &Json, levels: u32) -> Result<Option<Value>, AllocError>
    ensures { IfOk result (λ found. Finds levels (value_of (view json.now)) found) }
{
    if levels == 0 {
        return Ok(None);
    }
    match json {
        Json::Null => Ok(Some(Value::Null)),
        Json::Bool(truth) => Ok(Some(Value::Bool(*truth))),
        Json::Number(_) => Ok(int_of(json)),
        Json::String(text) => Ok(Some(Value::Text(to_text(alloc, text.as_str())?))),
        Json::Array(items) => list_of(alloc, items, levels),
        Json::Object(_) => member_of(alloc, json),
    }
}

#[cycle(decode)]
fn list_of(alloc: Global, items: &Vec<Json>, levels: u32) -> Result<Option<Value>, AllocError>
    requires { 0 < levels }
    ensures { IfOk result (λ found. Finds levels (value_of (array (items_view items.now.items))) found) }
{
    match decode_all(alloc, items, levels - 1)? {
        Some(values) => Ok(Some(Value::List(Sequence::from_vec(values)))),
        None => Ok(None),
    }
}

#[cycle(decode)]
fn decode_all(
    alloc: Global,
    items: &Vec<Json>,
    levels: u32,
) -> Result<Option<Vec<Value>>, AllocError>
    ensures { IfOk result (λ found. FindsAll levels (values_of (items_view items.now.items)) (option_map (λ v. v.items) found)) }
{
    let mut values = Vec::with_capacity(alloc, items.len())?;
    for item in items {
        match decode(alloc, item, levels)? {
            Some(value) => values.push(value)?,
            None => return Ok(None),
        }
    }
    Ok(Some(values))
}
