//! What is printed for a reply.

ghost use Rattle.std.specs.Prelude.{◌≡◌, ◌++◌, IfOk, OnOk};
ghost use Rattle.mill_top.specs.Replies.{explained, in_name_order, explanation, before_line, printed};

use crate::reply::Reply;
use crate::takes::{FoundEntry, Takes};
use std::alloc::{AllocError, Global};
use std::collections::BTreeMap;
use tree_value::{CopyFault, Text};

fn push_all(text: &mut Vec<u8>, first: &[u8], second: &[u8]) -> Result<(), AllocError>
    ensures { OnOk result (text.new.items ≡ text.old.items ++ (first.now ++ second.now)) }
{
    text.extend_from_slice(first)?;
    text.extend_from_slice(second)?;
    Ok(())
}

// The line of a task that ran.
fn push_explained(text: &mut Vec<u8>, task: &Text, found: &FoundEntry) -> Result<(), AllocError>
    ensures { OnOk result (text.new.items ≡ text.old.items ++ explained task.now found.now) }
{
    match found {
        FoundEntry::Missing => push_all(text, task.as_slice(), b" ran: missing\n"),
        FoundEntry::Other(_) => push_all(text, task.as_slice(), b" ran: changed\n"),
        FoundEntry::Same(_) => Ok(()),
    }
}

fn in_name_order(alloc: Global, takes: &Takes) -> Result<BTreeMap<Text, FoundEntry>, CopyFault>
    ensures { IfOk result (λ ordered. ordered.entries ≡ in_name_order takes.now) }
{
    let mut ordered = BTreeMap::new(alloc);
    for taken in takes.as_slice() {
        let _ = ordered.insert(taken.0.copy()?, taken.1)?;
    }
    Ok(ordered)
}

#[tactic(auto, unfolding(crate::specs::Replies::explanation))]
fn explanation(alloc: Global, takes: &Takes) -> Result<Vec<u8>, CopyFault>
    ensures { IfOk result (λ text. text.items ≡ explanation takes.now) }
{
    let ordered = in_name_order(alloc, takes)?;
    let mut text = Vec::new(alloc);
    for (task, found) in &ordered {
        push_explained(&mut text, task, found)?;
    }
    Ok(text)
}

fn before_line(
    alloc: Global,
    explains: bool,
    takes: &Takes,
    reply: &Reply,
) -> Result<Vec<u8>, CopyFault>
    ensures { IfOk result (λ text. text.items ≡ before_line explains takes.now reply.now) }
{
    if explains && matches!(reply, Reply::Value(_)) {
        explanation(alloc, takes)
    } else {
        Ok(Vec::new(alloc))
    }
}

/// All that is printed for a reply, after these takes.
#[tactic(auto, unfolding(crate::specs::Replies::printed))]
pub fn printed(
    alloc: Global,
    explains: bool,
    takes: &Takes,
    reply: &Reply,
) -> Result<Vec<u8>, CopyFault>
    ensures { IfOk result (λ text. text.items ≡ printed explains takes.now reply.now) }
{
    let mut text = before_line(alloc, explains, takes, reply)?;
    let line = reply.line(alloc)?;
    text.extend_from_slice(line.as_slice())?;
    text.extend_from_slice(b"\n")?;
    Ok(text)
}
