//! Scripts of calls of a workspace over a folder.

use crate::answers::{found, listed, mark, path_of, push_answer};
use crate::outside;
use crate::stopped::Stopped;
use io_real::RealWorkspace;
use io_traits::Workspace;
use questions::bytes_of;
use std::alloc::Global;
use tree_value::Bytes;

// A word is a name, or a name, `=` and the name of the file whose bytes are wanted.
fn read_answer<W: Workspace>(
    alloc: Global,
    workspace: &mut W,
    word: &str,
) -> Result<&'static str, Stopped> {
    let (name, wanted) = word.split_once('=').unwrap_or((word, word));
    let bytes = Bytes::from_vec(bytes_of(alloc, wanted)?);
    found(workspace.read(&path_of(alloc, name)?), &bytes)
}

fn answer<W: Workspace>(
    rt: &HostRuntime,
    workspace: &mut W,
    call: &str,
) -> Result<String, Stopped> {
    let alloc = rt.alloc();
    let (call, word) = call.split_once(':').unwrap_or((call, ""));
    let answer = match call {
        "read" => read_answer(alloc, workspace, word)?,
        "begin" => mark(workspace.begin())?,
        "list" => return listed(alloc, workspace.list()),
        "faults" => return Ok(workspace.faults().to_string(alloc)?),
        _ => outside::answer(rt, call, word)?,
    };
    Ok(answer.to_string(alloc)?)
}

pub fn answers_to(rt: &HostRuntime, calls: &[&str]) -> Result<String, Stopped> {
    outside::begin(rt)?;
    let mut workspace = RealWorkspace::over(*rt, outside::ROOT).map_err(|_| Stopped::Memory)?;
    let mut text = String::new(rt.alloc());
    for call in calls {
        push_answer(&mut text, answer(rt, &mut workspace, call)?.as_str())?;
    }
    outside::end(rt)?;
    Ok(text)
}
