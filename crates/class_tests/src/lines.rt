//! Texts as they are printed within one line.

use class_model::Name;
use line_text::{push_name, push_path, push_units};
use questions::{Unanswered, bytes_of, hex_number};
use std::alloc::{AllocError, Global};
use tree_value::Path;

fn push_unit(units: &mut Vec<u16>, word: &str) -> Result<(), Unanswered> {
    let unit = u16::try_from(hex_number(word)?).map_err(|_| Unanswered::BadQuestion)?;
    units.push(unit)?;
    Ok(())
}

fn units_of(alloc: Global, words: &[&str]) -> Result<Vec<u16>, Unanswered> {
    let mut units = Vec::new(alloc);
    for word in words {
        push_unit(&mut units, word)?;
    }
    Ok(units)
}

fn text_of(alloc: Global, bytes: &[u8]) -> Result<String, AllocError> {
    str::from_utf8(bytes).unwrap_or("no text").to_string(alloc)
}

fn units_answer(alloc: Global, units: &[u16]) -> Result<String, AllocError> {
    let mut text = Vec::from_slice(alloc, b">")?;
    push_units(&mut text, units)?;
    text_of(alloc, text.as_slice())
}

fn name_answer(alloc: Global, name: &Name) -> Result<String, AllocError> {
    let mut text = Vec::from_slice(alloc, b">")?;
    push_name(&mut text, name)?;
    text_of(alloc, text.as_slice())
}

fn path_answer(alloc: Global, path: &Path) -> Result<String, AllocError> {
    let mut text = Vec::from_slice(alloc, b">")?;
    push_path(&mut text, path)?;
    text_of(alloc, text.as_slice())
}

pub fn answer_to(alloc: Global, words: &[&str]) -> Result<String, Unanswered> {
    match words {
        ["units", units @ ..] => {
            let units = units_of(alloc, units)?;
            Ok(units_answer(alloc, units.as_slice())?)
        }
        ["name", word] => match Name::of(alloc, bytes_of(alloc, word)?.as_slice()) {
            Ok(name) => Ok(name_answer(alloc, &name)?),
            Err(_) => Err(Unanswered::BadQuestion),
        },
        ["path", word] => match Path::of(alloc, bytes_of(alloc, word)?.as_slice()) {
            Ok(path) => Ok(path_answer(alloc, &path)?),
            Err(_) => Err(Unanswered::BadQuestion),
        },
        _ => Err(Unanswered::BadQuestion),
    }
}
