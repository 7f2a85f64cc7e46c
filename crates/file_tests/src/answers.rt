//! How answers of devices are printed.

use crate::stopped::Stopped;
use io_traits::IoFault;
use questions::bytes_of;
use std::alloc::Global;
use tree_value::{Bytes, Path};

pub fn path_of(alloc: Global, word: &str) -> Result<Path, Stopped> {
    let name = bytes_of(alloc, word)?;
    Path::of(alloc, name.as_slice()).map_err(|_| Stopped::BadQuestion)
}

/// The name and the bytes of a word: what stands before and behind `=`, or the name's own bytes.
pub fn file_of(alloc: Global, word: &str) -> Result<(Path, Bytes), Stopped> {
    let (name, bytes) = word.split_once('=').unwrap_or((word, word));
    Ok((
        path_of(alloc, name)?,
        Bytes::from_vec(bytes_of(alloc, bytes)?),
    ))
}

/// `+` where a call is done, and `!` where it failed.
pub fn mark(done: Result<(), IoFault>) -> Result<&'static str, Stopped> {
    match done {
        Ok(()) => Ok("+"),
        Err(IoFault::Failed) => Ok("!"),
        Err(IoFault::Memory) => Err(Stopped::Memory),
    }
}

/// `=` where these bytes were given, `?` for others, `-` for none, and `!` where the call failed.
pub fn found(
    answer: Result<Option<Bytes>, IoFault>,
    bytes: &Bytes,
) -> Result<&'static str, Stopped> {
    match answer {
        Ok(Some(given)) if given.as_slice() == bytes.as_slice() => Ok("="),
        Ok(Some(_)) => Ok("?"),
        Ok(None) => Ok("-"),
        Err(IoFault::Failed) => Ok("!"),
        Err(IoFault::Memory) => Err(Stopped::Memory),
    }
}

/// The names with commas between them in square brackets, or `!` where the call failed.
pub fn listed(alloc: Global, answer: Result<Vec<Path>, IoFault>) -> Result<String, Stopped> {
    match answer {
        Ok(names) => names_text(alloc, names.as_slice()),
        Err(IoFault::Failed) => Ok("!".to_string(alloc)?),
        Err(IoFault::Memory) => Err(Stopped::Memory),
    }
}

fn names_text(alloc: Global, names: &[Path]) -> Result<String, Stopped> {
    let mut text = String::from_str(alloc, "[")?;
    for (at, name) in names.iter().enumerate() {
        if at > 0 {
            text.push_str(",")?;
        }
        text.push_str(str::from_utf8(name.as_slice()).unwrap_or("no text"))?;
    }
    text.push_str("]")?;
    Ok(text)
}

/// Adds an answer behind a blank.
pub fn push_answer(text: &mut String, answer: &str) -> Result<(), Stopped> {
    text.push_str(" ")?;
    text.push_str(answer)?;
    Ok(())
}
