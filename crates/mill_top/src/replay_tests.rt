//! Scripts over devices in memory, row by row.

use crate::linked_file::{INPUT_AT, LINKED_TEMPLATE};
use crate::replay::replay;
use crate::replay_steps::{Answered, ReplayStep, Replayed};
use crate::small_file::{CLASS_AT, OPCODE_AT, SMALL_TEMPLATE, TASK_AT};
use io_traits::{Contents, MemStore, MemWorkspace};
use std::alloc::{AllocGlobal, Global};
use std::process::Abort;
use std::test::Fail;
use tree_value::{Bytes, Path, Sequence, Text};

// A row of a script.
#[derive(Clone, Copy)]
enum Row {
    // `A` is the small class file whose task `a` is the opcode less 3.
    ConstantA(u8),
    // `B` is the linked class file whose task `b` is `a + 5`.
    LinkedB,
    NoA,
    Lose(&'static str),
    // A command, its status and what it prints.
    Run(&'static [&'static str], u8, &'static str),
}

const SHOW_A: &[&str] = &["-j", "1", "show", "a"];

const SHOW_B: &[&str] = &["-j", "1", "show", "b"];

const EXPLAIN_B: &[&str] = &["-j", "1", "--explain", "show", "b"];

const EDITS_AND_LOSSES: &[Row] = &[
    Row::ConstantA(8),
    Row::LinkedB,
    Row::Run(SHOW_B, 0, "10\n"),
    Row::Run(EXPLAIN_B, 0, "10\n"),
    Row::ConstantA(7),
    Row::Run(EXPLAIN_B, 0, "a ran: changed\nb ran: changed\n9\n"),
    Row::Lose("a.json"),
    Row::Run(EXPLAIN_B, 0, "a ran: missing\n9\n"),
    Row::NoA,
    Row::Run(SHOW_B, 3, "build: unknown input a of b\n"),
];

// No two neighbouring commands have one answer.
const ANSWERS_THAT_DIFFER: &[Row] = &[
    Row::Run(SHOW_A, 2, "no task: a\n"),
    Row::ConstantA(8),
    Row::Run(SHOW_A, 0, "5\n"),
    Row::ConstantA(2),
    Row::Run(SHOW_A, 0, "-1\n"),
    Row::Run(SHOW_B, 2, "no task: b\n"),
];

fn set(bytes: &mut Vec<u8>, at: usize, byte: u8) {
    if let Some(place) = bytes.get_mut(at) {
        *place = byte;
    }
}

fn constant_a(alloc: Global, opcode: u8) -> Result<Bytes, Fail> {
    let mut bytes = Vec::from_slice(alloc, &SMALL_TEMPLATE)?;
    set(&mut bytes, OPCODE_AT, opcode);
    Ok(Bytes::from_vec(bytes))
}

fn linked_b(alloc: Global) -> Result<Bytes, Fail> {
    let mut bytes = Vec::from_slice(alloc, &LINKED_TEMPLATE)?;
    set(&mut bytes, CLASS_AT, b'B');
    set(&mut bytes, TASK_AT, b'b');
    set(&mut bytes, INPUT_AT, b'a');
    Ok(Bytes::from_vec(bytes))
}

fn words(alloc: Global, all: &[&str]) -> Result<Vec<Text>, Fail> {
    let mut words = Vec::new(alloc);
    for word in all {
        words.push(Text::of(alloc, word.as_bytes())?)?;
    }
    Ok(words)
}

fn edit(alloc: Global, path: &str, bytes: Option<Bytes>) -> Result<ReplayStep, Fail> {
    Ok(ReplayStep::Edit(Path::of(alloc, path.as_bytes())?, bytes))
}

fn step(alloc: Global, row: &Row) -> Result<ReplayStep, Fail> {
    match *row {
        Row::ConstantA(opcode) => edit(alloc, "classes/A.class", Some(constant_a(alloc, opcode)?)),
        Row::LinkedB => edit(alloc, "classes/B.class", Some(linked_b(alloc)?)),
        Row::NoA => edit(alloc, "classes/A.class", None),
        Row::Lose(name) => Ok(ReplayStep::Lose(Path::of(alloc, name.as_bytes())?)),
        Row::Run(all, _, _) => Ok(ReplayStep::Run {
            words: Sequence::from_vec(words(alloc, all)?),
            environment: Sequence::new(alloc),
            moment: 0,
        }),
    }
}

// The script of these rows, from an empty folder of results and an empty workspace.
fn run(alloc: Global, rows: &[Row]) -> Result<Replayed, Fail> {
    let mut script = Vec::new(alloc);
    for row in rows {
        script.push(step(alloc, row)?)?;
    }
    let store = MemStore::new(alloc, Contents::new(alloc), Vec::new(alloc))?;
    let workspace = MemWorkspace::new(alloc, Contents::new(alloc), Vec::new(alloc))?;
    Ok(replay(alloc, script.as_slice(), store, workspace))
}

fn judge_command<R: Abort>(rt: &R, status: u8, want: &str, answered: &Answered) {
    assert_eq!(*rt; answered.status, status, "status of {want}");
    assert_eq!(*rt; answered.lines(), want.as_bytes(), "print of {want}");
}

fn judge<R: Abort + AllocGlobal>(rt: &R, rows: &[Row]) -> Result<(), Fail> {
    let replayed = run(rt.alloc(), rows)?;
    let replies = replayed.end?;
    let mut at: usize = 0;
    for row in rows {
        if let Row::Run(_, status, want) = *row {
            let Some(answered) = replies.as_slice().get(at) else {
                return Err("an answer is missing")?;
            };
            judge_command(rt, status, want, answered);
            at = at.saturating_add(1);
        }
    }
    assert_eq!(*rt; replies.len(), at, "number of replies");
    assert_eq!(*rt; replayed.takes.len(), at, "number of takes");
    Ok(())
}

#[test]
fn answers_each_command_over_what_was_edited_and_lost_before(rt: HostRuntime) -> Result<(), Fail> {
    for rows in [EDITS_AND_LOSSES, ANSWERS_THAT_DIFFER] {
        judge(&rt, rows)?;
    }
    Ok(())
}
