//! Stores and workspaces in memory, by scripts of calls.

use crate::listed::{
    contents_of, file_of, files_of, files_text, names_text, parts_of, path_of, printed,
};
use io_traits::{
    Contents, Gate, IoFault, Leaves, MemStore, MemWorkspace, NoGate, Phase, Store, Workspace,
};
use questions::{Unanswered, number};
use std::alloc::Global;
use tree_value::{Bytes, Path};

/// A call that is to fail, as its number and what it leaves.
fn failing_of(word: &str) -> Result<(u64, Leaves), Unanswered> {
    let (at, leaves) = word.split_once('-').ok_or(Unanswered::BadQuestion)?;
    let leaves = match leaves {
        "old" => Leaves::Old,
        "new" => Leaves::New,
        "nothing" => Leaves::Nothing,
        _ => return Err(Unanswered::BadQuestion),
    };
    Ok((u64::from(number(at)?), leaves))
}

/// A store with these contents, whose calls fail as a word of plans with commas between them says.
pub fn store_of(alloc: Global, contents: Contents, plans: &str) -> Result<MemStore, Unanswered> {
    let mut failing = Vec::new(alloc);
    for plan in plans.split(',').filter(|plan| !plan.is_empty()) {
        failing.push(failing_of(plan)?)?;
    }
    MemStore::new(alloc, contents, failing).map_err(|_| Unanswered::Memory)
}

/// `!` where a call failed, and `+` where it is done.
fn mark(done: Result<(), IoFault>) -> Result<&'static str, Unanswered> {
    match done {
        Ok(()) => Ok("+"),
        Err(IoFault::Failed) => Ok("!"),
        Err(IoFault::Memory) => Err(Unanswered::Memory),
    }
}

/// `!` where a call failed, `-` where it gave no bytes, and else the bytes.
fn given(alloc: Global, answer: Result<Option<Bytes>, IoFault>) -> Result<String, Unanswered> {
    match answer {
        Ok(Some(bytes)) => Ok(printed(alloc, bytes.as_slice())?),
        Ok(None) => Ok("-".to_string(alloc)?),
        Err(IoFault::Failed) => Ok("!".to_string(alloc)?),
        Err(IoFault::Memory) => Err(Unanswered::Memory),
    }
}

fn list_text(alloc: Global, names: Result<Vec<Path>, IoFault>) -> Result<String, Unanswered> {
    match names {
        Ok(names) => Ok(names_text(alloc, names.as_slice())?),
        Err(IoFault::Failed) => Ok("!".to_string(alloc)?),
        Err(IoFault::Memory) => Err(Unanswered::Memory),
    }
}

fn put_answer<S: Store>(
    alloc: Global,
    store: &mut S,
    word: &str,
) -> Result<&'static str, Unanswered> {
    let (name, bytes) = file_of(alloc, word)?;
    mark(store.put(&name, &bytes))
}

/// What a store answers to a call.
fn store_answer<S: Store>(alloc: Global, store: &mut S, call: &str) -> Result<String, Unanswered> {
    let (call, word) = call.split_once(':').unwrap_or((call, ""));
    match call {
        "put" => Ok(put_answer(alloc, store, word)?.to_string(alloc)?),
        "get" => given(alloc, store.get(&path_of(alloc, word)?)),
        "remove" => Ok(mark(store.remove(&path_of(alloc, word)?))?.to_string(alloc)?),
        "list" => list_text(alloc, store.list()),
        "begin" => Ok(mark(store.begin())?.to_string(alloc)?),
        "faults" => Ok(store.faults().to_string(alloc)?),
        _ => Err(Unanswered::BadQuestion),
    }
}

fn store_step(alloc: Global, store: &mut MemStore, call: &str) -> Result<String, Unanswered> {
    match call.split_once(':') {
        Some(("lose", name)) => {
            store.lose(&path_of(alloc, name)?);
            Ok("lost".to_string(alloc)?)
        }
        _ => store_answer(alloc, store, call),
    }
}

fn push_word(text: &mut String, word: &str) -> Result<(), Unanswered> {
    text.push_str(word)?;
    text.push_str(" ")?;
    Ok(())
}

/// What an empty store answers to each call, and what it then holds.
fn store_script(alloc: Global, plans: &str, calls: &[&str]) -> Result<String, Unanswered> {
    let mut store = store_of(alloc, Contents::new(alloc), plans)?;
    let mut text = String::new(alloc);
    for call in calls {
        push_word(&mut text, store_step(alloc, &mut store, call)?.as_str())?;
    }
    text.push_str("holds")?;
    text.push_str(files_text(alloc, store.contents().as_slice())?.as_str())?;
    Ok(text)
}

fn numbers_of(alloc: Global, plans: &str) -> Result<Vec<u64>, Unanswered> {
    let mut numbers = Vec::new(alloc);
    for plan in plans.split(',').filter(|plan| !plan.is_empty()) {
        numbers.push(u64::from(number(plan)?))?;
    }
    Ok(numbers)
}

fn set_answer(
    alloc: Global,
    workspace: &mut MemWorkspace,
    word: &str,
) -> Result<&'static str, Unanswered> {
    let (name, bytes) = file_of(alloc, word)?;
    mark(workspace.set(&name, Some(bytes)))
}

fn workspace_step(
    alloc: Global,
    workspace: &mut MemWorkspace,
    call: &str,
) -> Result<String, Unanswered> {
    let (call, word) = call.split_once(':').unwrap_or((call, ""));
    match call {
        "set" => Ok(set_answer(alloc, workspace, word)?.to_string(alloc)?),
        "unset" => { Ok(mark(workspace.set(&path_of(alloc, word)?, None))?.to_string(alloc)?) }
        "read" => given(alloc, workspace.read(&path_of(alloc, word)?)),
        "list" => list_text(alloc, workspace.list()),
        "begin" => Ok(mark(workspace.begin())?.to_string(alloc)?),
        "faults" => Ok(workspace.faults().to_string(alloc)?),
        _ => Err(Unanswered::BadQuestion),
    }
}

/// What a workspace with one file answers to each call.
fn workspace_script(
    alloc: Global,
    plans: &str,
    file: &str,
    calls: &[&str],
) -> Result<String, Unanswered> {
    let contents = contents_of(alloc, &[file])?;
    let numbers = numbers_of(alloc, plans)?;
    let mut workspace = MemWorkspace::new(alloc, contents, numbers).map_err(
        |_| Unanswered::Memory,
    )?;
    let mut text = String::new(alloc);
    for call in calls {
        push_word(
            &mut text,
            workspace_step(alloc, &mut workspace, call)?.as_str(),
        )?;
    }
    Ok(text)
}

/// Whether files are contents, which are in order and can be copied.
fn contents_answer(alloc: Global, files: &[&str]) -> Result<String, Unanswered> {
    match Contents::of(files_of(alloc, files)?) {
        None => Ok("out of order".to_string(alloc)?),
        Some(contents) => {
            let copy = contents.copy().map_err(|_| Unanswered::Memory)?;
            Ok(files_text(alloc, copy.as_slice())?)
        }
    }
}

fn gate_answer(alloc: Global) -> Result<String, Unanswered> {
    NoGate.arrive(1, Phase::Check);
    NoGate.leave(1, Phase::Body);
    Ok("passed".to_string(alloc)?)
}

pub fn answer_to(alloc: Global, words: &[&str]) -> Result<String, Unanswered> {
    match words {
        ["store", plans, calls @ ..] => store_script(alloc, plans, calls),
        ["workspace", plans, file, calls @ ..] => workspace_script(alloc, plans, file, calls),
        ["contents", files @ ..] => contents_answer(alloc, files),
        ["gate"] => gate_answer(alloc),
        _ => Err(Unanswered::BadQuestion),
    }
}
