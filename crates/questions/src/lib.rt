//! Questions in plain lines, for the programs that ask crates what tables of data/ say: their words, and the bytes and
//! numbers that a word stands for. It stands on `hex` alone; the crates of tests stand on it.
#![tactic(auto)]

use std::alloc::{AllocError, AllocFailed, Global};

/// Why a question has no answer.
#[derive(Clone, Copy, Drop)]
pub enum Unanswered {
    Memory,
    BadQuestion,
}

impl From<AllocError> for Unanswered {
    fn from(_: AllocError) -> Unanswered {
        Unanswered::Memory
    }
}

impl<T: Drop> From<AllocFailed<T>> for Unanswered {
    fn from(_: AllocFailed<T>) -> Unanswered {
        Unanswered::Memory
    }
}

/// The words between single spaces.
pub fn words_of(alloc: Global, question: &str) -> Result<Vec<&str>, AllocError> {
    question.split(' ').collect(alloc)
}

/// A number in hexadecimal digits.
pub fn hex_number(word: &str) -> Result<u32, Unanswered> {
    u32::from_str_radix(word, 16).map_err(|_| Unanswered::BadQuestion)
}

pub fn number(word: &str) -> Result<u32, Unanswered> {
    word.parse::<u32>().map_err(|_| Unanswered::BadQuestion)
}

fn push_hex(bytes: &mut Vec<u8>, digits: &str) -> Result<(), Unanswered> {
    let alloc = *bytes.allocator();
    let decoded = hex::decode(alloc, digits).map_err(|_| Unanswered::BadQuestion)?;
    bytes.extend_from_slice(decoded.as_slice())?;
    Ok(())
}

fn push_once(bytes: &mut Vec<u8>, part: &str) -> Result<(), Unanswered> {
    if let Some(digits) = part.strip_prefix("0x") {
        return push_hex(bytes, digits);
    }
    bytes.extend_from_slice(part.as_bytes())?;
    Ok(())
}

fn push_part(bytes: &mut Vec<u8>, part: &str) -> Result<(), Unanswered> {
    let Some((once, count)) = part.split_once('*') else {
        return push_once(bytes, part);
    };
    for _ in 0..number(count)? {
        push_once(bytes, once)?;
    }
    Ok(())
}

/// The bytes of a word: its parts between `+`, each of which is a text as it stands, or `0x` and hexadecimal digits, with
/// `*` and a number behind it where it is repeated.
pub fn bytes_of(alloc: Global, word: &str) -> Result<Vec<u8>, Unanswered> {
    let mut bytes = Vec::new(alloc);
    for part in word.split('+') {
        push_part(&mut bytes, part)?;
    }
    Ok(bytes)
}
