//! The JSON of a value.

ghost use Rattle.std.specs.Prelude.{◌≡◌, map, IfOk, OnOk, string_bytes, IsUtf8};
ghost use Rattle.serde_json.specs.View.{view, items_view};
ghost use Rattle.tree_value.specs.Paths.{IsPath};
ghost use Rattle.tree_value.specs.Digests.{IsDigest};
ghost use Rattle.value_text.specs.Short.{as_short, shorts_of, IsShort, AreShort};
ghost use Rattle.value_text.specs.Texts.{json_of, items_of, long_json, reference_json, reference_text, printed_path, dest_path, slashed};

use crate::form::Form;
use crate::utf8::{path_str, text_str};
use serde_json::{Value as Json, json};
use std::alloc::{AllocError, Global};
use tree_value::{PathRef, Value};

fn slashed_bytes(alloc: Global, task: &str) -> Result<Vec<u8>, AllocError>
    ensures { IfOk result (λ path. path.items ≡ slashed task.now) }
{
    task.as_bytes()
        .iter()
        .map(|byte| if *byte == b'.' { b'/' } else { *byte })
        .collect(alloc)
}

fn slashed(alloc: Global, task: &str) -> Result<String, AllocError>
    ensures { IfOk result (λ path. string_bytes path ≡ slashed task.now) }
{
    match String::from_utf8(slashed_bytes(alloc, task)?) {
        Ok(path) => Ok(path),
        Err(_) => unreachable!(),
    }
}

fn dest_path(alloc: Global, task: &str, path: &str) -> Result<String, AllocError>
    ensures { IfOk result (λ text. string_bytes text ≡ dest_path task.now path.now) }
{
    let folder = slashed(alloc, task)?;
    if path.is_empty() {
        return Ok(format!(in alloc; "out/{folder}.dest")?);
    }
    Ok(format!(in alloc; "out/{folder}.dest/{path}")?)
}

fn printed_path(alloc: Global, owner: &str, path: &str) -> Result<String, AllocError>
    ensures { IfOk result (λ text. string_bytes text ≡ printed_path owner.now path.now) }
{
    if owner.is_empty() {
        String::from_str(alloc, path)
    } else {
        dest_path(alloc, owner, path)
    }
}

fn reference_text(alloc: Global, owner: &str, path: &str, hex: &str) -> Result<String, AllocError>
    ensures { IfOk result (λ text. string_bytes text ≡ reference_text owner.now path.now hex.now) }
{
    let place = printed_path(alloc, owner, path)?;
    Ok(format!(in alloc; "ref:v0:{hex}:{place}")?)
}

fn long_json(alloc: Global, form: Form, number: i64) -> Result<Json, AllocError>
    ensures { IfOk result (λ json. view json ≡ long_json form number) }
{
    match form {
        Form::Stored => json!(in alloc; {"l": number}),
        Form::Printed => Ok(Json::from(number)),
    }
}

fn reference_json(alloc: Global, form: Form, reference: &PathRef) -> Result<Json, AllocError>
    ensures json { IfOk result (λ json. view json
        ≡ reference_json form reference.now.owner reference.now.path reference.now.digest) }
    ensures owner { IsUtf8 reference.now.owner }
    ensures path { IsPath reference.now.path }
    ensures digest { IsDigest reference.now.digest }
{
    let owner = text_str(&reference.owner);
    let path = path_str(&reference.path);
    let hex = hex::encode(alloc, reference.digest.as_slice())?;
    match form {
        Form::Stored => json!(in alloc; {"r": [owner, path, hex]}),
        Form::Printed => Ok(Json::from(reference_text(alloc, owner, path, hex.as_str())?)),
    }
}

#[cycle(encode)]
pub fn encode(alloc: Global, form: Form, value: &Value) -> Result<Json, AllocError>
    ensures json { IfOk result (λ json. view json ≡ json_of form (as_short value.now)) }
    ensures value { OnOk result (IsShort (as_short value.now)) }
{
    match value {
        Value::Null => Ok(Json::Null),
        Value::Bool(truth) => Ok(Json::Bool(*truth)),
        Value::Int(number) => Ok(Json::from(*number)),
        Value::Long(number) => long_json(alloc, form, *number),
        Value::Text(text) => Json::try_from_str(alloc, text_str(text)),
        Value::List(values) => Ok(Json::Array(encode_all(alloc, form, values.as_slice())?)),
        Value::Ref(reference) => reference_json(alloc, form, reference),
    }
}

#[cycle(encode)]
fn encode_all(alloc: Global, form: Form, values: &[Value]) -> Result<Vec<Json>, AllocError>
    ensures items { IfOk result (λ items. items_view items.items
        ≡ items_of form (shorts_of (map as_short values.now))) }
    ensures values { OnOk result (AreShort (shorts_of (map as_short values.now))) }
{
    let mut items = Vec::with_capacity(alloc, values.len())?;
    for value in values {
        items.push(encode(alloc, form, value)?)?;
    }
    Ok(items)
}
