//! The kinds of descriptors (JVMS 4.3).

use class_code::{has_float, kind_of, read_kinds};
use jvm_tables::ValueKind;
use questions::Unanswered;
use std::alloc::{AllocError, Global};

fn letter(kind: ValueKind) -> &'static str {
    match kind {
        ValueKind::Int => "I",
        ValueKind::Long => "L",
        ValueKind::Reference => "R",
    }
}

/// The kinds of the parameters behind a long that stands there, and that of the result.
fn kinds_answer(alloc: Global, descriptor: &[u8]) -> Result<String, AllocError> {
    let mut kinds = Vec::from_slice(alloc, &[ValueKind::Long])?;
    let Some(returned) = read_kinds(descriptor, &mut kinds)? else {
        return "none".to_string(alloc);
    };
    let mut text = String::new(alloc);
    for kind in &kinds {
        text.push_str(letter(*kind))?;
    }
    text.push_str(" to ")?;
    text.push_str(match returned.kind() {
        Some(kind) => letter(kind),
        None => "nothing",
    })?;
    Ok(text)
}

fn kind_answer(descriptor: &[u8]) -> &'static str {
    match kind_of(descriptor) {
        Some(kind) => letter(kind),
        None => "none",
    }
}

pub fn answer_to(alloc: Global, words: &[&str]) -> Result<String, Unanswered> {
    match words {
        ["kinds", descriptor] => Ok(kinds_answer(alloc, descriptor.as_bytes())?),
        ["kind", descriptor] => Ok(kind_answer(descriptor.as_bytes()).to_string(alloc)?),
        ["float", descriptor] => {
            let answer = if has_float(descriptor.as_bytes()) {
                "yes"
            } else {
                "no"
            };
            Ok(answer.to_string(alloc)?)
        }
        _ => Err(Unanswered::BadQuestion),
    }
}
