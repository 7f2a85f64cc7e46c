//! The names of a task's files among the results, and what a name is of.

ghost use Rattle.std.specs.Prelude.{◌≡◌, ◌↔◌, ◌^◌, ◌<◌, ◌≤◌, ◌++◌, ◌∷◌, [], ℕ, List, map, if◌then◌else◌, ◌==◌, length, codes, IfOk, IfSome, MatchOption, IsTrue, Some, None};
ghost use Rattle.std.specs.Fmt.{decimal};
ghost use Rattle.out_store.specs.Names.{is_word_byte, IsTaskPart, IsTaskName, IsNumber, IsOf, IsCut, Lacks, entry_name, log_name, generation_name, in_generation};
ghost use Rattle.value_text.specs.Texts.{slashed};
ghost use Rattle.tree_value.specs.Paths.{IsPath};

use std::alloc::{AllocError, Global};
use tree_value::{Path, PathFault, Text, TextFault};

/// The most bytes of a task's name.
pub const MAX_TASK_LEN: usize = 255;

/// The most bytes of one part of a task's name.
pub const MAX_PART_LEN: usize = 64;

fn is_word_byte(byte: u8) -> bool
    ensures { result ≡ is_word_byte byte }
{
    byte.is_ascii_alphabetic() || byte.is_ascii_digit() || byte == b'-' || byte == b'_'
}

fn is_task_part(bytes: &[u8]) -> bool
    ensures { IsTrue result ↔ IsTaskPart bytes.now }
{
    !bytes.is_empty()
        && bytes.len() <= MAX_PART_LEN
        && bytes[0].is_ascii_alphabetic()
        && bytes.iter().all(|byte| is_word_byte(*byte))
}

fn is_task_name(bytes: &[u8]) -> bool
    ensures { IsTrue result ↔ IsTaskName bytes.now }
{
    bytes.len() <= MAX_TASK_LEN && bytes.split(|byte| *byte == b'.').all(is_task_part)
}

/// Whether the text is the name of a task: parts joined by dots, each a letter and more letters, digits, `-` and
/// `_`.
pub fn is_task(task: &Text) -> bool
    ensures { IsTrue result ↔ IsTaskName task.now }
{
    is_task_name(task.as_slice())
}

// The bytes with one byte in the place of another.
fn exchange(alloc: Global, bytes: &[u8], from: u8, to: u8) -> Result<Vec<u8>, AllocError>
    ensures { IfOk result (λ copy. copy.items ≡ map (λ b. if b == from then to else b) bytes.now) }
{
    bytes
        .iter()
        .map(|byte| if *byte == from { to } else { *byte })
        .collect(alloc)
}

// The path of the task's folder with this ending.
fn file_name(alloc: Global, task: &Text, ending: &[u8]) -> Result<Path, AllocError>
    requires { IsPath (slashed task.now ++ ending.now) }
    ensures { IfOk result (λ name. name ≡ slashed task.now ++ ending.now) }
{
    let mut name = exchange(alloc, task.as_slice(), b'.', b'/')?;
    name.extend_from_slice(ending)?;
    match Path::of(alloc, name.as_slice()) {
        Ok(path) => Ok(path),
        Err(PathFault::BadPath) => unreachable!(),
        Err(PathFault::Memory) => Err(AllocError),
    }
}

/// The name of the task's entry.
pub(crate) fn entry_name(alloc: Global, task: &Text) -> Result<Path, AllocError>
    requires { IsTaskName task.now }
    ensures { IfOk result (λ name. name ≡ entry_name task.now) }
{
    file_name(alloc, task, b".json")
}

/// The name of the task's log.
pub(crate) fn log_name(alloc: Global, task: &Text) -> Result<Path, AllocError>
    requires { IsTaskName task.now }
    ensures { IfOk result (λ name. name ≡ log_name task.now) }
{
    file_name(alloc, task, b".log")
}

// What stands behind the task's folder in the name of a file of a generation.
fn generation_ending(alloc: Global, number: u32, path: &[u8]) -> Result<Vec<u8>, AllocError>
    ensures { IfOk result (λ ending. ending.items ≡ codes ".dest/g" ++ decimal number ++ 47 ∷ path.now) }
{
    let mut ending = Vec::from_slice(alloc, b".dest/g")?;
    ending.extend_from_slice(number.to_string(alloc)?.as_bytes())?;
    ending.push(b'/')?;
    ending.extend_from_slice(path)?;
    Ok(ending)
}

/// What the names of all files of a generation of the task begin with.
pub(crate) fn generation_folder(
    alloc: Global,
    task: &Text,
    number: u32,
) -> Result<Vec<u8>, AllocError>
    ensures { IfOk result (λ folder. folder.items ≡ generation_name task.now number []) }
{
    let mut folder = exchange(alloc, task.as_slice(), b'.', b'/')?;
    folder.extend_from_slice(&generation_ending(alloc, number, b"")?)?;
    Ok(folder)
}

// A path is such where it is written.
fn prove_path(path: &Path)
    ensures { IsPath path.now }
{
    let _bytes = path.as_slice();
}

/// The name of a file of a generation of the task.
pub(crate) fn generation_name(
    alloc: Global,
    task: &Text,
    number: u32,
    path: &Path,
) -> Result<Path, AllocError>
    requires task { IsTaskName task.now }
    requires number { IsNumber number }
    requires some { 0 < length path.now }
    requires short { length path.now ≤ 700 }
    ensures { IfOk result (λ name. name ≡ generation_name task.now number path.now) }
{
    prove_path(path);
    let ending = generation_ending(alloc, number, path.as_slice())?;
    file_name(alloc, task, ending.as_slice())
}

// What stands before the first such byte, and behind it.
fn cut(bytes: &[u8], mark: u8) -> Option<(&[u8], &[u8])>
    ensures { MatchOption result (Lacks mark bytes.now) (λ parts. IsCut mark bytes.now parts.0.now parts.1.now) }
{
    let at = bytes.iter().position(|byte| *byte == mark)?;
    Some((&bytes[..at], &bytes[at + 1..]))
}

fn parse_number(digits: &[u8]) -> Option<u32>
    ensures { (n : ℕ) → n < 2 ^ 32 → digits.now ≡ decimal n → result ≡ Some n }
{
    match str::from_utf8(digits) {
        Ok(text) => text.parse::<u32>().ok(),
        Err(_) => None,
    }
}

fn is_written(alloc: Global, number: u32, digits: &[u8]) -> Result<bool, AllocError>
    ensures { IfOk result (λ same. IsTrue same ↔ (digits.now ≡ decimal number)) }
{
    let written = number.to_string(alloc)?;
    Ok(written.as_bytes() == digits)
}

// The number, from 1, that the digits write without a leading zero.
fn number_of(alloc: Global, digits: &[u8]) -> Result<Option<u32>, AllocError>
    ensures number { IfOk result (λ found. IfSome found (λ n. IsNumber n × (digits.now ≡ decimal n))) }
    ensures every { IfOk result (λ found. (n : ℕ) → IsNumber n → digits.now ≡ decimal n → found ≡ Some n) }
{
    let Some(number) = parse_number(digits) else {
        return Ok(None);
    };
    if number == 0 {
        return Ok(None);
    }
    if !is_written(alloc, number, digits)? {
        return Ok(None);
    }
    Ok(Some(number))
}

// The task whose folder this is.
fn task_of(alloc: Global, folder: &[u8]) -> Result<Option<Text>, AllocError>
    ensures task { IfOk result (λ found. IfSome found (λ task. IsTaskName task × (Lacks 46 folder.now → folder.now ≡ slashed task))) }
    ensures every { IfOk result (λ found. (task : List ℕ) → IsTaskName task → folder.now ≡ slashed task → found ≡ Some task) }
{
    let task = exchange(alloc, folder, b'/', b'.')?;
    if !is_task_name(&task) {
        return Ok(None);
    }
    match Text::of(alloc, &task) {
        Ok(task) => Ok(Some(task)),
        Err(TextFault::BadText) => unreachable!(),
        Err(TextFault::Memory) => Err(AllocError),
    }
}

/// The task whose entry has this name.
pub(crate) fn task_of_entry(alloc: Global, name: &Path) -> Result<Option<Text>, AllocError>
    ensures task { IfOk result (λ found. IfSome found (λ task. IsTaskName task × (name.now ≡ entry_name task))) }
    ensures every { IfOk result (λ found. (task : List ℕ) → IsTaskName task → name.now ≡ entry_name task → found ≡ Some task) }
{
    let Some((folder, ending)) = cut(name.as_slice(), b'.') else {
        return Ok(None);
    };
    if ending != b"json".as_slice() {
        return Ok(None);
    }
    match task_of(alloc, folder)? {
        Some(task) => Ok(Some(task)),
        None => Ok(None),
    }
}

// The folder and the digits of the name of a file of a generation.
fn generation_parts(name: &[u8]) -> Option<(&[u8], &[u8])>
    ensures { MatchOption result
        ((folder digits path : List ℕ) → Lacks 46 folder → Lacks 47 digits → name.now ≡ in_generation folder digits path → ⊥)
        (λ parts. Lacks 46 parts.0.now × Lacks 47 parts.1.now × ((path : List ℕ) × (name.now ≡ in_generation parts.0.now parts.1.now path))) }
{
    let Some((folder, rest)) = cut(name, b'.') else {
        return None;
    };
    let Some(rest) = rest.strip_prefix(b"dest/g".as_slice()) else {
        return None;
    };
    let Some((digits, _path)) = cut(rest, b'/') else {
        return None;
    };
    Some((folder, digits))
}

/// The task and the number of the generation of which the name is a file.
pub(crate) fn generation_of(alloc: Global, name: &Path) -> Result<Option<(Text, u32)>, AllocError>
    ensures of { IfOk result (λ found. IfSome found (λ place. IsOf place.0 place.1 name.now)) }
    ensures every { IfOk result (λ found. (task : List ℕ) (number : ℕ) → IsOf task number name.now → found ≡ Some (task, number)) }
{
    let Some((folder, digits)) = generation_parts(name.as_slice()) else {
        return Ok(None);
    };
    let Some(task) = task_of(alloc, folder)? else {
        return Ok(None);
    };
    match number_of(alloc, digits)? {
        Some(number) => Ok(Some((task, number))),
        None => Ok(None),
    }
}
