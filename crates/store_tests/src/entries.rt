//! Entries of tasks.

ghost use Rattle.out_entry.specs.Entries.{IsEntry};

use crate::listed::printed;
use crate::values::stored_value;
use out_entry::{Entry, entry_bytes, read_entry};
use questions::{Unanswered, bytes_of};
use std::alloc::Global;

/// Task, number, input hash, count of files and value of an entry, and whether it has the bytes again.
fn entry_text(alloc: Global, entry: &Entry, bytes: &[u8]) -> Result<String, Unanswered>
    requires { IsEntry entry.now }
{
    let task = printed(alloc, entry.task.as_slice())?;
    let number = entry.generation;
    let input = hex::encode(alloc, entry.input.as_slice())?;
    let files = entry.files.len();
    let value = stored_value(alloc, &entry.value)?;
    let again = is_again(alloc, entry, bytes)?;
    Ok(format!(in alloc; "{task} {number} {input} {files} {value} {again}")?)
}

fn is_again(alloc: Global, entry: &Entry, bytes: &[u8]) -> Result<bool, Unanswered>
    requires { IsEntry entry.now }
{
    let text = entry_bytes(alloc, entry).map_err(|_| Unanswered::Memory)?;
    Ok(text.as_slice() == bytes)
}

fn entry_answer(alloc: Global, bytes: &[u8]) -> Result<String, Unanswered> {
    match read_entry(alloc, bytes) {
        Ok(Some(entry)) => entry_text(alloc, &entry, bytes),
        Ok(None) => Ok("none".to_string(alloc)?),
        Err(_) => Err(Unanswered::Memory),
    }
}

pub fn answer_to(alloc: Global, words: &[&str]) -> Result<String, Unanswered> {
    match words {
        ["entry", word] => entry_answer(alloc, bytes_of(alloc, word)?.as_slice()),
        _ => Err(Unanswered::BadQuestion),
    }
}
