//! Paths, texts and trees.

use crate::listed::{files_of, files_text, path_of, printed, text_of};
use questions::{Unanswered, bytes_of};
use std::alloc::{AllocError, Global};
use tree_value::{
    Digest, Path, PathFault, PathRef, Text, TextFault, Tree, TreeFault, Value, Values,
};

fn path_answer(alloc: Global, bytes: &[u8]) -> Result<&'static str, Unanswered> {
    match Path::of(alloc, bytes) {
        Ok(_) => Ok("yes"),
        Err(PathFault::BadPath) => Ok("no"),
        Err(PathFault::Memory) => Err(Unanswered::Memory),
    }
}

fn text_answer(alloc: Global, bytes: &[u8]) -> Result<&'static str, Unanswered> {
    match Text::of(alloc, bytes) {
        Ok(_) => Ok("yes"),
        Err(TextFault::BadText) => Ok("no"),
        Err(TextFault::Memory) => Err(Unanswered::Memory),
    }
}

fn fault_text(alloc: Global, fault: TreeFault) -> Result<String, Unanswered> {
    match fault {
        TreeFault::OutOfOrder(number) => Ok(format!(in alloc; "out of order at {number}")?),
        TreeFault::Memory => Err(Unanswered::Memory),
    }
}

/// A tree of files that each hold their own name.
fn tree_answer(alloc: Global, names: &[&str]) -> Result<String, Unanswered> {
    match Tree::of(alloc, files_of(alloc, names)?) {
        Ok(tree) => Ok(files_text(alloc, tree.as_slice())?),
        Err(fault) => fault_text(alloc, fault),
    }
}

fn tree_of(alloc: Global, names: &[&str]) -> Result<Tree, Unanswered> {
    Tree::of(alloc, files_of(alloc, names)?).map_err(|_| Unanswered::BadQuestion)
}

fn file_text(alloc: Global, file: Option<&[u8]>) -> Result<String, AllocError> {
    match file {
        Some(bytes) => printed(alloc, bytes),
        None => "none".to_string(alloc),
    }
}

fn file_answer(alloc: Global, path: &Path, names: &[&str]) -> Result<String, Unanswered> {
    let tree = tree_of(alloc, names)?;
    Ok(file_text(alloc, tree.file(path))?)
}

/// What lies below a path in a copy of a tree.
fn below_answer(alloc: Global, path: &Path, names: &[&str]) -> Result<String, Unanswered> {
    let tree = tree_of(alloc, names)?;
    let copy = tree.copy().map_err(|_| Unanswered::Memory)?;
    match copy.sub(path) {
        Ok(below) => Ok(files_text(alloc, below.as_slice())?),
        Err(fault) => fault_text(alloc, fault),
    }
}

fn reference_of(alloc: Global, owner: &str, path: &str) -> Result<PathRef, Unanswered> {
    Ok(PathRef {
        owner: text_of(alloc, owner)?,
        path: path_of(alloc, path)?,
        digest: Digest::of([7; 32]),
    })
}

/// What stands in a copy of a list of a reference and an empty list.
fn copied_answer(alloc: Global) -> Result<&'static str, Unanswered> {
    let mut items = Vec::new(alloc);
    items.push(Value::Ref(reference_of(alloc, "a", "f")?))?;
    items.push(Value::List(Values::new(alloc)))?;
    let copy = Values::from_vec(items)
        .copy()
        .map_err(|_| Unanswered::Memory)?;
    Ok(match copy.as_slice() {
        [Value::Ref(_), Value::List(_)] => "a reference and a list",
        _ => "others",
    })
}

pub fn answer_to(alloc: Global, words: &[&str]) -> Result<String, Unanswered> {
    match words {
        ["path", word] => {
            Ok(path_answer(alloc, bytes_of(alloc, word)?.as_slice())?.to_string(alloc)?)
        }
        ["text", word] => {
            Ok(text_answer(alloc, bytes_of(alloc, word)?.as_slice())?.to_string(alloc)?)
        }
        ["copied"] => Ok(copied_answer(alloc)?.to_string(alloc)?),
        ["tree", names @ ..] => tree_answer(alloc, names),
        ["file", path, names @ ..] => file_answer(alloc, &path_of(alloc, path)?, names),
        ["below", path, names @ ..] => below_answer(alloc, &path_of(alloc, path)?, names),
        _ => Err(Unanswered::BadQuestion),
    }
}
