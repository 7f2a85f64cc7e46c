//! Values as parts of larger JSON texts.

ghost use Rattle.std.specs.Prelude.{◌≡◌, ◌≤◌, Some, None, option_map, IfOk, IfSome, IfNone, OnOk, IsUtf8};
ghost use Rattle.serde_json.specs.Read.{read};
ghost use Rattle.serde_json.specs.View.{view};
ghost use Rattle.value_text.specs.Short.{Short, as_short, depth, IsShort};
ghost use Rattle.value_text.specs.Texts.{stored_json};

use crate::decode::decode;
use crate::encode::encode;
use crate::form::Form;
use serde_json::Value as Json;
use std::alloc::{AllocError, Global};
use tree_value::Value;

/// The most levels of a value that is read: 1 without a list, one more for each list around it.
pub const MAX_LEVELS: u32 = 64;

/// The JSON that a value is stored as.
pub fn to_json(alloc: Global, value: &Value) -> Result<Json, AllocError>
    ensures json { IfOk result (λ json. view json ≡ stored_json (as_short value.now)) }
    ensures value { OnOk result (IsShort (as_short value.now)) }
{
    encode(alloc, Form::Stored, value)
}

/// The value of at most 64 levels that is stored as this JSON, if there is one. Where there is none, it
/// may give a value all the same: whoever asks for exact JSON turns that one into JSON and compares.
pub fn from_json(alloc: Global, json: &Json) -> Result<Option<Value>, AllocError>
    ensures found { IfOk result (λ found. (v : Short) → IsShort v → depth v ≤ 64
        → view json.now ≡ stored_json v → option_map as_short found ≡ Some v) }
    ensures shallow { IfOk result (λ found. IfSome found (λ value. depth (as_short value) ≤ 64)) }
{
    Ok(decode(alloc, json, MAX_LEVELS)?)
}

/// The JSON value of a text (RFC 8259), if it has one.
pub fn read_json(alloc: Global, text: &[u8]) -> Result<Option<Json>, AllocError>
    ensures found { IfOk result (λ found. IfSome found (λ json. read text.now ≡ Some (view json))) }
    ensures none { IfOk result (λ found. IfNone found (IsUtf8 text.now → read text.now ≡ None)) }
{
    match Json::from_slice(alloc, text) {
        Ok(json) => Ok(Some(json)),
        Err(error) => {
            if error.is_memory() {
                Err(AllocError)
            } else {
                Ok(None)
            }
        }
    }
}
