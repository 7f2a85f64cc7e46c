//! Classes by name, resolution, selection and subtyping in a program (JVMS 5.4.3, 5.4.6 and 4.10).

use class_index::Index;
use class_model::{MemberId, Name, Program};
use class_verify::ProgramOk;
use questions::Unanswered;
use std::alloc::{AllocError, Global};

fn member_text(alloc: Global, found: Option<MemberId>) -> Result<String, AllocError> {
    format!(in alloc; "{found:?}")
}

/// What is selected for a receiver of a class, of the method that a reference by owner, name and descriptor leads to.
fn selected_answer(
    alloc: Global,
    index: &Index,
    reference: (&str, &str, &str),
    receiver: &str,
) -> Result<String, Unanswered> {
    let (owner, name, descriptor) = reference;
    let found = index.resolve_method(owner.as_bytes(), name.as_bytes(), descriptor.as_bytes());
    let Some(resolved) = found else {
        return Err(Unanswered::BadQuestion);
    };
    let Some(receiver) = index.class(receiver.as_bytes()) else {
        return Err(Unanswered::BadQuestion);
    };
    let selected = index.select(resolved, receiver);
    Ok(format!(in alloc; "{selected:?}")?)
}

/// The name of the class that the program has by a name.
fn class_answer(alloc: Global, program: &Program, name: &Name) -> Result<String, AllocError> {
    match program.class(name) {
        Some(class) => str::from_utf8(class.name()).unwrap_or("?").to_string(alloc),
        None => "none".to_string(alloc),
    }
}

fn name_of(alloc: Global, word: &str) -> Result<Name, Unanswered> {
    Name::of(alloc, word.as_bytes()).map_err(|_| Unanswered::BadQuestion)
}

fn subtype_answer(
    alloc: Global,
    index: &Index,
    low: &str,
    high: &str,
) -> Result<String, Unanswered> {
    let Some(low) = index.class(low.as_bytes()) else {
        return Err(Unanswered::BadQuestion);
    };
    let Some(high) = index.class(high.as_bytes()) else {
        return Err(Unanswered::BadQuestion);
    };
    let answer = if index.is_subtype(low, high) {
        "yes"
    } else {
        "no"
    };
    Ok(answer.to_string(alloc)?)
}

fn index_answer(alloc: Global, index: &Index, words: &[&str]) -> Result<String, Unanswered> {
    match words {
        ["method", owner, name, descriptor] => {
            let found = index.resolve_method(
                owner.as_bytes(),
                name.as_bytes(),
                descriptor.as_bytes(),
            );
            Ok(member_text(alloc, found)?)
        }
        ["field", owner, name, descriptor] => {
            let found = index.resolve_field(
                owner.as_bytes(),
                name.as_bytes(),
                descriptor.as_bytes(),
            );
            Ok(member_text(alloc, found)?)
        }
        ["selected", owner, name, descriptor, receiver] => {
            selected_answer(alloc, index, (owner, name, descriptor), receiver)
        }
        ["subtype", low, high] => subtype_answer(alloc, index, low, high),
        _ => Err(Unanswered::BadQuestion),
    }
}

pub fn answer_to(alloc: Global, program: &ProgramOk, words: &[&str]) -> Result<String, Unanswered> {
    match words {
        ["class", name] => Ok(class_answer(alloc, program.program(), &name_of(alloc, name)?)?),
        _ => index_answer(alloc, program.index(), words),
    }
}
