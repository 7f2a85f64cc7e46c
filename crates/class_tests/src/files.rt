//! Class files that are read and written again (JVMS 4).

use class_model::{Attribute, Class, Member};
use class_read::{ClassFault, read_class};
use class_write::write_class;
use questions::{Unanswered, bytes_of};
use std::alloc::{AllocError, Global};

/// The class of bytes; without memory the fault is that of memory.
pub fn read(alloc: Global, bytes: &[u8]) -> Result<Class, ClassFault> {
    if bytes.len() > 1_000_000 {
        return Err(ClassFault::Memory);
    }
    read_class(alloc, bytes)
}

fn fault_text(alloc: Global, fault: ClassFault) -> Result<String, AllocError> {
    format!(in alloc; "{fault:?}")
}

/// What stands at the head of a class, or why nothing is read.
fn head_answer(alloc: Global, bytes: &[u8]) -> Result<String, AllocError> {
    match read(alloc, bytes) {
        Ok(class) => {
            let (major, flags) = (class.major, class.flags);
            let name = str::from_utf8(class.name()).unwrap_or("?");
            let (fields, methods) = (class.fields.len(), class.methods.len());
            format!(in alloc; "{name} {major} {flags:04x} {fields} fields {methods} methods")
        }
        Err(fault) => fault_text(alloc, fault),
    }
}

fn class_answer(alloc: Global, bytes: &[u8]) -> Result<String, AllocError> {
    match read(alloc, bytes) {
        Ok(class) => format!(in alloc; "{class:?}"),
        Err(fault) => fault_text(alloc, fault),
    }
}

fn attributes_text(alloc: Global, attributes: &[Attribute]) -> Result<String, AllocError> {
    format!(in alloc; "{attributes:?}")
}

fn attributes_of_first(members: &[Member]) -> &[Attribute] {
    match members.first() {
        Some(member) => member.attributes.as_slice(),
        None => &[],
    }
}

/// The attributes within code, which comes first.
fn attributes_of_code(attributes: &[Attribute]) -> &[Attribute] {
    match attributes.first() {
        Some(Attribute::Code { attributes, .. }) => attributes.as_slice(),
        _ => &[],
    }
}

/// The attributes of the class, of its first field or method, or of the code of that.
fn attributes_in<'a>(class: &'a Class, holder: &str) -> &'a [Attribute] {
    match holder {
        "class" => class.attributes.as_slice(),
        "field" => attributes_of_first(class.fields.as_slice()),
        "method" => attributes_of_first(class.methods.as_slice()),
        _ => attributes_of_code(attributes_of_first(class.methods.as_slice())),
    }
}

fn attributes_answer(alloc: Global, holder: &str, bytes: &[u8]) -> Result<String, AllocError> {
    match read(alloc, bytes) {
        Ok(class) => attributes_text(alloc, attributes_in(&class, holder)),
        Err(fault) => fault_text(alloc, fault),
    }
}

/// Whether a class is written with the bytes of which it is read.
fn written_answer(alloc: Global, bytes: &[u8]) -> Result<String, AllocError> {
    let Ok(class) = read(alloc, bytes) else {
        return "no class".to_string(alloc);
    };
    let answer = match write_class(alloc, &class) {
        Ok(written) => if written.as_slice() == bytes {
            "the same bytes"
        } else {
            "other bytes"
        },
        Err(_) => "no bytes",
    };
    answer.to_string(alloc)
}

pub fn answer_to(alloc: Global, words: &[&str]) -> Result<String, Unanswered> {
    match words {
        ["head", word] => Ok(head_answer(alloc, bytes_of(alloc, word)?.as_slice())?),
        ["class", word] => Ok(class_answer(alloc, bytes_of(alloc, word)?.as_slice())?),
        ["written", word] => Ok(written_answer(alloc, bytes_of(alloc, word)?.as_slice())?),
        ["attributes", holder, word] => {
            Ok(attributes_answer(alloc, holder, bytes_of(alloc, word)?.as_slice())?)
        }
        _ => Err(Unanswered::BadQuestion),
    }
}
