//! Values, as they are stored, printed and digested.

use crate::listed::printed;
use questions::{Unanswered, bytes_of};
use std::alloc::{AllocError, Global};
use tree_value::{Value, ValueType};
use value_text::{ValueFault, digest_value, parse, print, store_text};

fn type_of(word: &str) -> Result<ValueType, Unanswered> {
    match word {
        "bool" => Ok(ValueType::Bool),
        "int" => Ok(ValueType::Int),
        "long" => Ok(ValueType::Long),
        "text" => Ok(ValueType::Text),
        "list" => Ok(ValueType::List),
        "reference" => Ok(ValueType::Ref),
        _ => Err(Unanswered::BadQuestion),
    }
}

fn kind_of(value: &Value) -> &'static str {
    match value {
        Value::Null => "null",
        Value::Bool(_) => "bool",
        Value::Int(_) => "int",
        Value::Long(_) => "long",
        Value::Text(_) => "text",
        Value::List(_) => "list",
        Value::Ref(_) => "reference",
    }
}

fn printed_value(alloc: Global, value: &Value) -> Result<String, Unanswered> {
    let text = print(alloc, value).map_err(|_| Unanswered::Memory)?;
    Ok(printed(alloc, text.as_slice())?)
}

pub fn stored_value(alloc: Global, value: &Value) -> Result<String, Unanswered> {
    let text = store_text(alloc, value).map_err(|_| Unanswered::Memory)?;
    Ok(printed(alloc, text.as_slice())?)
}

fn copied(value: &Value) -> Result<Value, Unanswered> {
    value.copy().map_err(|_| Unanswered::Memory)
}

/// What a value is, what is printed of it, and what is stored of a copy.
fn value_text(alloc: Global, value: &Value) -> Result<String, Unanswered> {
    let kind = kind_of(value);
    let shown = printed_value(alloc, value)?;
    let copy = copied(value)?;
    let stored = stored_value(alloc, &copy)?;
    Ok(format!(in alloc; "{kind} {shown} {stored}")?)
}

fn value_answer(alloc: Global, wanted: ValueType, text: &[u8]) -> Result<String, Unanswered> {
    match parse(alloc, text, wanted) {
        Ok(value) => value_text(alloc, &value),
        Err(ValueFault::BadValue) => Ok("no value".to_string(alloc)?),
        Err(ValueFault::Memory) => Err(Unanswered::Memory),
    }
}

fn hex_text(alloc: Global, bytes: &[u8]) -> Result<String, AllocError> {
    hex::encode(alloc, bytes)
}

fn digest_answer(alloc: Global, wanted: ValueType, text: &[u8]) -> Result<String, Unanswered> {
    let value = parse(alloc, text, wanted).map_err(|_| Unanswered::BadQuestion)?;
    let digest = digest_value(alloc, &value).map_err(|_| Unanswered::Memory)?;
    Ok(hex_text(alloc, digest.as_slice())?)
}

pub fn answer_to(alloc: Global, words: &[&str]) -> Result<String, Unanswered> {
    match words {
        ["digest", wanted, word] => {
            digest_answer(alloc, type_of(wanted)?, bytes_of(alloc, word)?.as_slice())
        }
        [wanted, word] => value_answer(alloc, type_of(wanted)?, bytes_of(alloc, word)?.as_slice()),
        _ => Err(Unanswered::BadQuestion),
    }
}
