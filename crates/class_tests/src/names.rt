//! Names and descriptors (JVMS 4.2, 4.3 and 4.4.7).

use class_model::{
    Name, NameFault, is_class_name, is_field_descriptor, is_method_descriptor, is_method_name,
    is_return_descriptor, is_unqualified, unit_in,
};
use questions::{Unanswered, bytes_of};
use std::alloc::{AllocError, Global};
use std::cmp::Ordering;

/// Whether the bytes follow the grammar that the question names.
fn follows(grammar: &str, bytes: &[u8]) -> Result<bool, Unanswered> {
    match grammar {
        "class" => Ok(is_class_name(bytes)),
        "unqualified" => Ok(is_unqualified(bytes)),
        "method" => Ok(is_method_name(bytes)),
        "field-descriptor" => Ok(is_field_descriptor(bytes)),
        "return-descriptor" => Ok(is_return_descriptor(bytes)),
        _ => Err(Unanswered::BadQuestion),
    }
}

fn grammar_answer(alloc: Global, grammar: &str, bytes: &[u8]) -> Result<String, Unanswered> {
    let answer = if follows(grammar, bytes)? {
        "yes"
    } else {
        "no"
    };
    Ok(answer.to_string(alloc)?)
}

fn descriptor_answer(alloc: Global, most: &str, bytes: &[u8]) -> Result<String, Unanswered> {
    let most = most.parse::<u8>().map_err(|_| Unanswered::BadQuestion)?;
    let answer = if is_method_descriptor(most, bytes) {
        "yes"
    } else {
        "no"
    };
    Ok(answer.to_string(alloc)?)
}

/// Whether the bytes are a name, which then holds these bytes.
fn name_answer(alloc: Global, bytes: &[u8]) -> Result<String, AllocError> {
    let answer = match Name::of(alloc, bytes) {
        Ok(name) => if name.as_slice() == bytes {
            "yes"
        } else {
            "other bytes"
        },
        Err(NameFault::BadName) => "no",
        Err(NameFault::Memory) => return Err(AllocError),
    };
    answer.to_string(alloc)
}

fn name_of(alloc: Global, word: &str) -> Result<Name, Unanswered> {
    let bytes = bytes_of(alloc, word)?;
    Name::of(alloc, bytes.as_slice()).map_err(|_| Unanswered::BadQuestion)
}

fn copy_of(name: &Name) -> Result<Name, Unanswered> {
    name.copy().map_err(|_| Unanswered::Memory)
}

/// How a copy of the first name is ordered against the second.
fn order_answer(alloc: Global, first: &str, second: &str) -> Result<String, Unanswered> {
    let copy = copy_of(&name_of(alloc, first)?)?;
    let answer = match copy.cmp(&name_of(alloc, second)?) {
        Ordering::Less => "less",
        Ordering::Equal => "equal",
        Ordering::Greater => "greater",
    };
    Ok(answer.to_string(alloc)?)
}

/// The UTF-16 units of modified UTF-8, as far as there are some.
fn units_answer(alloc: Global, bytes: &[u8]) -> Result<String, AllocError> {
    let mut answer = String::new(alloc);
    let mut rest = bytes;
    for _ in 0..bytes.len() {
        let Some((unit, behind)) = unit_in(rest) else {
            break;
        };
        let text = format!(in alloc; "{unit:04x} ")?;
        answer.push_str(text.as_str())?;
        rest = behind;
    }
    let text = format!(in alloc; "and {} bytes", rest.len())?;
    answer.push_str(text.as_str())?;
    Ok(answer)
}

pub fn answer_to(alloc: Global, words: &[&str]) -> Result<String, Unanswered> {
    match words {
        ["name", word] => Ok(name_answer(alloc, bytes_of(alloc, word)?.as_slice())?),
        ["units", word] => Ok(units_answer(alloc, bytes_of(alloc, word)?.as_slice())?),
        ["order", first, second] => order_answer(alloc, first, second),
        ["method-descriptor", most, word] => {
            descriptor_answer(alloc, most, bytes_of(alloc, word)?.as_slice())
        }
        [grammar, word] => grammar_answer(alloc, grammar, bytes_of(alloc, word)?.as_slice()),
        _ => Err(Unanswered::BadQuestion),
    }
}
