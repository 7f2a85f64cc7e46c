//! Scripts of calls of a store over a folder.

use crate::answers::{file_of, found, listed, mark, path_of, push_answer};
use crate::outside;
use crate::stopped::Stopped;
use io_real::RealStore;
use io_traits::Store;
use std::alloc::Global;

// The number of the process, in the names under which the store writes first.
const PROCESS: u32 = 7;

fn put_answer<S: Store>(alloc: Global, store: &mut S, word: &str) -> Result<&'static str, Stopped> {
    let (name, bytes) = file_of(alloc, word)?;
    mark(store.put(&name, &bytes))
}

fn get_answer<S: Store>(alloc: Global, store: &mut S, word: &str) -> Result<&'static str, Stopped> {
    let (name, bytes) = file_of(alloc, word)?;
    found(store.get(&name), &bytes)
}

fn answer<S: Store>(rt: &HostRuntime, store: &mut S, call: &str) -> Result<String, Stopped> {
    let alloc = rt.alloc();
    let (call, word) = call.split_once(':').unwrap_or((call, ""));
    let answer = match call {
        "put" => put_answer(alloc, store, word)?,
        "get" => get_answer(alloc, store, word)?,
        "remove" => mark(store.remove(&path_of(alloc, word)?))?,
        "begin" => mark(store.begin())?,
        "list" => return listed(alloc, store.list()),
        "faults" => return Ok(store.faults().to_string(alloc)?),
        _ => outside::answer(rt, call, word)?,
    };
    Ok(answer.to_string(alloc)?)
}

pub fn answers_to(rt: &HostRuntime, calls: &[&str]) -> Result<String, Stopped> {
    outside::begin(rt)?;
    let mut store = RealStore::over(*rt, outside::ROOT, PROCESS).map_err(|_| Stopped::Memory)?;
    let mut text = String::new(rt.alloc());
    for call in calls {
        push_answer(&mut text, answer(rt, &mut store, call)?.as_str())?;
    }
    outside::end(rt)?;
    Ok(text)
}
