//! Builds of class files that are loaded and verified (JVMS 4, 4.10.1 and 5.3.5).

ghost use Rattle.std.specs.Prelude.{◌<◌, ◌^◌, All, IsTrue, length};

use class_index::IndexFault;
use class_model::{Class, MethodId, Name};
use class_read::{LoadFault, load_set};
use class_verify::{CheckFault, ProgramOk, VerifyFault};
use questions::{Unanswered, bytes_of, number};
use std::alloc::{AllocError, Global};
use tree_value::{Bytes, Path, Tree};

fn are_short(files: &[(Path, Bytes)]) -> bool
    ensures { IsTrue result → All (λ file. length file.1 < 2 ^ 32) files.now }
{
    files.iter().all(|file| file.1.len() < 1_000_000)
}

fn load(alloc: Global, files: &Tree) -> Result<ProgramOk, LoadFault> {
    if !are_short(files.as_slice()) {
        return Err(LoadFault::Memory);
    }
    load_set(alloc, files)
}

fn printable(bytes: &[u8]) -> &str {
    str::from_utf8(bytes).unwrap_or("?")
}

fn named(alloc: Global, name: &Name, what: &str) -> Result<String, AllocError> {
    let name = printable(name.as_slice());
    format!(in alloc; "{name} {what}")
}

fn method_of(fault: &VerifyFault) -> Option<&MethodId> {
    match fault {
        VerifyFault::FloatUsed(id)
        | VerifyFault::BadCode(id, _)
        | VerifyFault::BadJump(id, _)
        | VerifyFault::UnknownBootstrap(id, _)
        | VerifyFault::BadFrame(id, _) => Some(id),
        VerifyFault::Memory => None,
    }
}

fn verify_text(alloc: Global, fault: &VerifyFault) -> Result<String, AllocError> {
    let class = match method_of(fault) {
        Some(id) => printable(id.class.as_slice()),
        None => "no class",
    };
    format!(in alloc; "{fault} in {class}")
}

fn check_text(alloc: Global, fault: &CheckFault) -> Result<String, AllocError> {
    match fault {
        CheckFault::Index(IndexFault::MissingSuper(name)) => named(alloc, name, "is missing"),
        CheckFault::Index(IndexFault::CyclicSuper(name)) => named(alloc, name, "is above itself"),
        CheckFault::Index(IndexFault::Memory) => "out of memory".to_string(alloc),
        CheckFault::Verify(fault) => verify_text(alloc, fault),
    }
}

fn fault_text(alloc: Global, fault: &LoadFault) -> Result<String, AllocError> {
    match fault {
        LoadFault::BadClass(path, fault) => {
            let path = printable(path.as_slice());
            format!(in alloc; "{path} {fault:?}")
        }
        LoadFault::DuplicateClass(name) => named(alloc, name, "comes twice"),
        LoadFault::TooMany(limit) => format!(in alloc; "too many {limit}"),
        LoadFault::Check(fault) => check_text(alloc, fault),
        LoadFault::Memory => "out of memory".to_string(alloc),
    }
}

/// The names of classes, but of a hundred at most.
fn names_text(alloc: Global, classes: &[Class]) -> Result<String, AllocError> {
    let count = classes.len();
    let mut text = format!(in alloc; "{count} classes")?;
    if count <= 100 {
        for class in classes {
            text.push_str(" ")?;
            text.push_str(printable(class.name()))?;
        }
    }
    Ok(text)
}

fn load_answer(alloc: Global, files: &Tree) -> Result<String, AllocError> {
    match load(alloc, files) {
        Ok(program) => names_text(alloc, program.program().classes()),
        Err(fault) => fault_text(alloc, &fault),
    }
}

fn path_of(alloc: Global, name: &str) -> Result<Path, Unanswered> {
    Path::of(alloc, name.as_bytes()).map_err(|_| Unanswered::BadQuestion)
}

fn tree_of(alloc: Global, files: Vec<(Path, Bytes)>) -> Result<Tree, Unanswered> {
    Tree::of(alloc, files).map_err(|_| Unanswered::BadQuestion)
}

fn push_file(files: &mut Vec<(Path, Bytes)>, alloc: Global, word: &str) -> Result<(), Unanswered> {
    let Some((name, content)) = word.split_once('=') else {
        return Err(Unanswered::BadQuestion);
    };
    let path = path_of(alloc, name)?;
    let bytes = Bytes::from_vec(bytes_of(alloc, content)?);
    files.push((path, bytes))?;
    Ok(())
}

/// What the load of files gives, each written as its path, `=` and its bytes.
fn files_answer(alloc: Global, words: &[&str]) -> Result<String, Unanswered> {
    let mut files = Vec::new(alloc);
    for word in words {
        push_file(&mut files, alloc, word)?;
    }
    let tree = tree_of(alloc, files)?;
    Ok(load_answer(alloc, &tree)?)
}

/// The program of files, one a line.
pub fn program_of(alloc: Global, lines: &str) -> Result<ProgramOk, Unanswered> {
    let mut files = Vec::new(alloc);
    for line in lines.lines() {
        push_file(&mut files, alloc, line)?;
    }
    let tree = tree_of(alloc, files)?;
    load(alloc, &tree).map_err(|_| Unanswered::BadQuestion)
}

fn numbered_file(
    alloc: Global,
    front: &[u8],
    at: u32,
    back: &[u8],
) -> Result<(Path, Bytes), Unanswered> {
    let name = format!(in alloc; "{at:04}")?;
    let path = format!(in alloc; "classes/{at:04}.class")?;
    let mut bytes = Vec::from_slice(alloc, front)?;
    bytes.extend_from_slice(name.as_bytes())?;
    bytes.extend_from_slice(back)?;
    Ok((path_of(alloc, path.as_str())?, Bytes::from_vec(bytes)))
}

/// What the load of so many files gives, in each of which a name of four digits stands between two pieces.
fn many_answer(alloc: Global, count: u32, front: &[u8], back: &[u8]) -> Result<String, Unanswered> {
    let mut files = Vec::new(alloc);
    for at in 0..count {
        files.push(numbered_file(alloc, front, at, back)?)?;
    }
    let tree = tree_of(alloc, files)?;
    Ok(load_answer(alloc, &tree)?)
}

pub fn answer_to(alloc: Global, words: &[&str]) -> Result<String, Unanswered> {
    match words {
        ["many", count, front, back] => {
            let front = bytes_of(alloc, front)?;
            let back = bytes_of(alloc, back)?;
            many_answer(alloc, number(count)?, front.as_slice(), back.as_slice())
        }
        ["load", files @ ..] => files_answer(alloc, files),
        _ => Err(Unanswered::BadQuestion),
    }
}
