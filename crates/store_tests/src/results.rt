//! The store of results over a store in memory.

use crate::devices::store_of;
use crate::listed::{contents_of, files_of, files_text, names_text, printed, text_of};
use io_traits::{Contents, MemStore};
use out_entry::{Entry, Kept};
use out_store::{Finished, Out, OutFault, is_dest, is_task};
use questions::Unanswered;
use std::alloc::{AllocError, Global};
use tree_value::{Digest, Sequence, Text, Tree, Value};

/// A run of a task whose dest has the files `x` with `1` and `y` with `2`, and whose log is `hello`.
fn run_of(alloc: Global, task: &str) -> Result<Finished, Unanswered> {
    let dest = Tree::of(alloc, files_of(alloc, &["x=1", "y=2"])?);
    let mut log = Vec::new(alloc);
    log.push(text_of(alloc, "hello")?)?;
    Ok(Finished {
        task: text_of(alloc, task)?,
        input: Digest::of([42; 32]),
        value: Value::Int(5),
        dest: dest.map_err(|_| Unanswered::BadQuestion)?,
        log: Sequence::from_vec(log),
    })
}

fn fault_text(alloc: Global, fault: OutFault) -> Result<String, Unanswered> {
    match fault {
        OutFault::Memory => Err(Unanswered::Memory),
        OutFault::Fault => Ok("!".to_string(alloc)?),
    }
}

/// The number under which a run of a task is published.
fn publish_answer(
    alloc: Global,
    out: &mut Out<MemStore>,
    task: &str,
) -> Result<String, Unanswered> {
    let run = run_of(alloc, task)?;
    if !is_task(&run.task) || !is_dest(&run.dest) {
        return Err(Unanswered::BadQuestion);
    }
    match out.publish(&run) {
        Ok(number) => Ok(number.to_string(alloc)?),
        Err(fault) => fault_text(alloc, fault),
    }
}

fn number_text(alloc: Global, entry: Option<Entry>) -> Result<String, AllocError> {
    match entry {
        Some(entry) => entry.generation.to_string(alloc),
        None => "-".to_string(alloc),
    }
}

/// The number of a task's entry.
fn entry_answer(alloc: Global, out: &mut Out<MemStore>, task: &Text) -> Result<String, Unanswered> {
    if !is_task(task) {
        return Err(Unanswered::BadQuestion);
    }
    match out.entry(task) {
        Ok(entry) => Ok(number_text(alloc, entry)?),
        Err(fault) => fault_text(alloc, fault),
    }
}

fn clean_answer(alloc: Global, out: &mut Out<MemStore>, task: &Text) -> Result<String, Unanswered> {
    if !is_task(task) {
        return Err(Unanswered::BadQuestion);
    }
    match out.clean(task) {
        Ok(()) => Ok("+".to_string(alloc)?),
        Err(fault) => fault_text(alloc, fault),
    }
}

/// Task, number, input hash, count of files and names of an entry that a start keeps.
fn kept_text(alloc: Global, kept: &Kept) -> Result<String, AllocError> {
    let task = printed(alloc, kept.task.as_slice())?;
    let number = kept.generation;
    let input = hex::encode(alloc, kept.input.as_slice())?;
    let files = kept.files.len();
    let names = names_text(alloc, kept.names.as_slice())?;
    format!(in alloc; "({task} {number} {input} {files} {names})")
}

fn opening_text(alloc: Global, opening: &[Kept]) -> Result<String, AllocError> {
    let mut text = String::new(alloc);
    for kept in opening {
        text.push_str(kept_text(alloc, kept)?.as_str())?;
    }
    Ok(text)
}

fn step(alloc: Global, out: &mut Out<MemStore>, call: &str) -> Result<String, Unanswered> {
    let (call, task) = call.split_once(':').unwrap_or((call, ""));
    match call {
        "publish" => publish_answer(alloc, out, task),
        "entry" => entry_answer(alloc, out, &text_of(alloc, task)?),
        "clean" => clean_answer(alloc, out, &text_of(alloc, task)?),
        "opening" => Ok(opening_text(alloc, out.opening())?),
        _ => Err(Unanswered::BadQuestion),
    }
}

/// The store that is left once it was opened again, without a call that fails.
fn opened_again(alloc: Global, store: MemStore) -> Result<Contents, Unanswered> {
    let left = store_of(alloc, store.contents(), "")?;
    match Out::start(alloc, left) {
        Ok(out) => Ok(out.end().contents()),
        Err(_) => Err(Unanswered::BadQuestion),
    }
}

fn push_held(
    text: &mut String,
    alloc: Global,
    store: MemStore,
    is_opened_again: bool,
) -> Result<(), Unanswered> {
    let held = if is_opened_again {
        opened_again(alloc, store)?
    } else {
        store.contents()
    };
    text.push_str("holds")?;
    text.push_str(files_text(alloc, held.as_slice())?.as_str())?;
    Ok(())
}

/// What each call answers, and what the store holds: at the end where the last word is `end`, else once it is opened
/// again.
fn steps_text(alloc: Global, out: Out<MemStore>, calls: &[&str]) -> Result<String, Unanswered> {
    let mut out = out;
    let mut text = String::new(alloc);
    let mut is_opened_again = true;
    for call in calls {
        if *call == "end" {
            is_opened_again = false;
            break;
        }
        text.push_str(step(alloc, &mut out, call)?.as_str())?;
        text.push_str(" ")?;
    }
    push_held(&mut text, alloc, out.end(), is_opened_again)?;
    Ok(text)
}

/// The answers of a store that holds the files before `/`, to the calls behind it.
fn script_answer(
    alloc: Global,
    plan: &str,
    files: &[&str],
    calls: &[&str],
) -> Result<String, Unanswered> {
    let store = store_of(alloc, contents_of(alloc, files)?, plan)?;
    match Out::start(alloc, store) {
        Ok(out) => steps_text(alloc, out, calls),
        Err((store, fault)) => {
            let mut text = fault_text(alloc, fault)?;
            text.push_str(" ")?;
            push_held(&mut text, alloc, store, true)?;
            Ok(text)
        }
    }
}

pub fn answer_to(alloc: Global, words: &[&str]) -> Result<String, Unanswered> {
    let Some(at) = words.iter().position(|word| *word == "/") else {
        return Err(Unanswered::BadQuestion);
    };
    let (front, calls) = words.split_at(at);
    match (front, calls) {
        ([plan, files @ ..], [_, calls @ ..]) => script_answer(alloc, plan, files, calls),
        _ => Err(Unanswered::BadQuestion),
    }
}
