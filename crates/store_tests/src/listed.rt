//! Names, files and texts of questions, and how files are printed.

use io_traits::Contents;
use questions::{Unanswered, bytes_of};
use std::alloc::{AllocError, Global};
use tree_value::{Bytes, Path, Text};

pub fn path_of(alloc: Global, word: &str) -> Result<Path, Unanswered> {
    let bytes = bytes_of(alloc, word)?;
    Path::of(alloc, bytes.as_slice()).map_err(|_| Unanswered::BadQuestion)
}

pub fn text_of(alloc: Global, word: &str) -> Result<Text, Unanswered> {
    let bytes = bytes_of(alloc, word)?;
    Text::of(alloc, bytes.as_slice()).map_err(|_| Unanswered::BadQuestion)
}

/// A word of a name, `=` and bytes; without `=` the bytes are the name's own.
pub fn parts_of(word: &str) -> (&str, &str) {
    word.split_once('=').unwrap_or((word, word))
}

pub fn file_of(alloc: Global, word: &str) -> Result<(Path, Bytes), Unanswered> {
    let (name, bytes) = parts_of(word);
    Ok((
        path_of(alloc, name)?,
        Bytes::from_vec(bytes_of(alloc, bytes)?),
    ))
}

pub fn files_of(alloc: Global, words: &[&str]) -> Result<Vec<(Path, Bytes)>, Unanswered> {
    let mut files = Vec::new(alloc);
    for word in words {
        files.push(file_of(alloc, word)?)?;
    }
    Ok(files)
}

pub fn contents_of(alloc: Global, words: &[&str]) -> Result<Contents, Unanswered> {
    Contents::of(files_of(alloc, words)?).ok_or(Unanswered::BadQuestion)
}

/// The text of bytes within one line.
pub fn printed(alloc: Global, bytes: &[u8]) -> Result<String, AllocError> {
    str::from_utf8(bytes)
        .unwrap_or("no text")
        .replace(alloc, "\n", "\\n")
}

/// Each file as a space, its name, `=` and its bytes.
pub fn files_text(alloc: Global, files: &[(Path, Bytes)]) -> Result<String, AllocError> {
    let mut text = String::new(alloc);
    for (name, bytes) in files {
        text.push_str(" ")?;
        text.push_str(printed(alloc, name.as_slice())?.as_str())?;
        text.push_str("=")?;
        text.push_str(printed(alloc, bytes.as_slice())?.as_str())?;
    }
    Ok(text)
}

/// The names, with commas between them, in square brackets.
pub fn names_text(alloc: Global, names: &[Path]) -> Result<String, AllocError> {
    let mut text = String::from_str(alloc, "[")?;
    for (at, name) in names.iter().enumerate() {
        if at > 0 {
            text.push_str(",")?;
        }
        text.push_str(printed(alloc, name.as_slice())?.as_str())?;
    }
    text.push_str("]")?;
    Ok(text)
}
