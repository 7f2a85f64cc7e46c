//! The texts of values, their digests, and the value of a text.

ghost use Rattle.std.specs.Prelude.{◌≡◌, ◌↔◌, Some, None, IfOk, IfSome, IfNone, IsErrOf, OnOk, IsOkUnless, IsTrue, IsUtf8, string_bytes};
ghost use Rattle.sha2.specs.Sha256.{sha256};
ghost use Rattle.value_text.specs.Short.{Short, as_short, IsShort, has_type};
ghost use Rattle.value_text.specs.Stores.{Stores};
ghost use Rattle.value_text.specs.Texts.{json_of, stored_text, printed_text};
ghost use Rattle.serde_json.specs.Written.{compact_text};
ghost use Rattle.value_text.specs.declared.fault.ValueFault.TheVariants.{BadValue, Memory};

use crate::encode::encode;
use crate::fault::ValueFault;
use crate::form::Form;
use crate::parts::{from_json, read_json};
use crate::utf8::to_text;
use sha2::{Digest as Hasher, Sha256};
use std::alloc::{AllocError, Global};
use tree_value::{Digest, Text, Value, ValueType};

fn text_of(alloc: Global, form: Form, value: &Value) -> Result<String, AllocError>
    ensures text { IfOk result (λ text. string_bytes text ≡ compact_text (json_of form (as_short value.now))) }
    ensures value { OnOk result (IsShort (as_short value.now)) }
{
    Ok(encode(alloc, form, value)?.to_string(alloc)?)
}

/// The text of a value as it is shown.
pub fn print(alloc: Global, value: &Value) -> Result<Text, ValueFault>
    ensures text { IfOk result (λ text. text ≡ printed_text (as_short value.now)) }
    ensures only_memory { IsOkUnless result Memory }
{
    let text = text_of(alloc, Form::Printed, value)?;
    Ok(to_text(alloc, text.as_str())?)
}

/// The text of a value as it is stored.
pub fn store_text(alloc: Global, value: &Value) -> Result<Text, ValueFault>
    ensures text { IfOk result (λ text. text ≡ stored_text (as_short value.now)) }
    ensures value { OnOk result (IsShort (as_short value.now)) }

    // No other value has this text.
    ensures injective { OnOk result ((v : Short) → IsShort v
        → stored_text v ≡ stored_text (as_short value.now) → v ≡ as_short value.now) }
    ensures only_memory { IsOkUnless result Memory }
{
    let text = text_of(alloc, Form::Stored, value)?;
    Ok(to_text(alloc, text.as_str())?)
}

/// The SHA-256 of a value's stored text.
pub fn digest_value(alloc: Global, value: &Value) -> Result<Digest, ValueFault>
    ensures digest { IfOk result (λ digest. digest ≡ sha256 (stored_text (as_short value.now))) }
    ensures value { OnOk result (IsShort (as_short value.now)) }
    ensures only_memory { IsOkUnless result Memory }
{
    let text = text_of(alloc, Form::Stored, value)?;
    Ok(Digest::of(Sha256::digest(text.as_bytes())))
}

fn has_type(value: &Value, wanted: ValueType) -> bool
    ensures { IsTrue result ↔ IsTrue (has_type wanted (as_short value.now)) }
{
    match value {
        Value::Null => matches!(wanted, ValueType::Text | ValueType::List | ValueType::Ref),
        Value::Bool(_) => wanted == ValueType::Bool,
        Value::Int(_) => wanted == ValueType::Int,
        Value::Long(_) => wanted == ValueType::Long,
        Value::Text(_) => wanted == ValueType::Text,
        Value::List(_) => wanted == ValueType::List,
        Value::Ref(_) => wanted == ValueType::Ref,
    }
}

fn is_stored(alloc: Global, value: &Value, text: &[u8]) -> Result<bool, ValueFault>
    ensures same { IfOk result (λ same. IsTrue same ↔ (stored_text (as_short value.now) ≡ text.now)) }
    ensures value { OnOk result (IsShort (as_short value.now)) }
    ensures only_memory { IsOkUnless result Memory }
{
    let stored = text_of(alloc, Form::Stored, value)?;
    Ok(stored.as_bytes() == text)
}

/// The value that has this stored text, of the type that is wanted.
///
/// # Errors
///
/// `BadValue` where no value of that type and of at most 64 levels has this stored text.
pub fn parse(alloc: Global, text: &[u8], wanted: ValueType) -> Result<Value, ValueFault>
    ensures value { IfOk result (λ value. Stores wanted text.now (as_short value)) }
    ensures only { IfOk result (λ value. (v : Short) → Stores wanted text.now v → v ≡ as_short value) }
    ensures bad_value { IsErrOf result BadValue → (v : Short) → ¬ (Stores wanted text.now v) }
{
    let Some(json) = read_json(alloc, text)? else {
        return Err(ValueFault::BadValue);
    };
    let Some(value) = from_json(alloc, &json)? else {
        return Err(ValueFault::BadValue);
    };
    if !has_type(&value, wanted) {
        return Err(ValueFault::BadValue);
    }
    if !is_stored(alloc, &value, text)? {
        return Err(ValueFault::BadValue);
    }
    Ok(value)
}
