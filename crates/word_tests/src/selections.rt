//! Selectors over two lists of tasks. `few` asks the tasks `a`, `a.c`, `b.c`, `d.c`, the Command `k` and `x.y.x`, among which
//! stands an anonymous task `h`; `many` asks 4,096 tasks of 22 segments, of which each second ends in `x`, for a selector
//! of so many `__` and an `x`.

use crate::requests::texts;
use class_model::{ClassId, MemberId};
use questions::{Unanswered, number};
use std::alloc::Global;
use task_model::{Kind, TaskRow, TaskRows};
use task_resolve::{Request, SelectFault, WordPlace, read_words, select_tasks};
use tree_value::{Sequence, Text, ValueType};

const FEW: [(&str, Kind); 7] = [
    ("a", Kind::Cached),
    ("a.c", Kind::Source),
    ("b.c", Kind::Input),
    ("d.c", Kind::Cached),
    ("h", Kind::Anonymous),
    ("k", Kind::Command),
    ("x.y.x", Kind::Cached),
];

const MANY: u32 = 4096;

fn row(alloc: Global, name: &str, kind: Kind) -> Result<TaskRow, Unanswered> {
    Ok(TaskRow {
        name: Text::of(alloc, name.as_bytes()).map_err(|_| Unanswered::Memory)?,
        kind,
        method: MemberId {
            class: ClassId::Own(0),
            at: 0,
        },
        inputs: Sequence::new(alloc),
        path: None,
        budget: 1,
        result: ValueType::Int,
    })
}

fn few(alloc: Global) -> Result<TaskRows, Unanswered> {
    let mut rows = Vec::new(alloc);
    for (name, kind) in FEW {
        rows.push(row(alloc, name, kind)?)?;
    }
    Ok(Sequence::from_vec(rows))
}

fn many_name(alloc: Global, place: u32) -> Result<String, Unanswered> {
    let mut name = format!(in alloc; "t{place}")?;
    for _ in 0..20 {
        name.push_str(".s")?;
    }
    name.push_str(if place % 2 == 0 { ".x" } else { ".y" })?;
    Ok(name)
}

fn many(alloc: Global) -> Result<TaskRows, Unanswered> {
    let mut rows = Vec::new(alloc);
    for place in 0..MANY {
        let name = many_name(alloc, place)?;
        rows.push(row(alloc, name.as_str(), Kind::Cached)?)?;
    }
    Ok(Sequence::from_vec(rows))
}

fn request(alloc: Global, words: &[&str]) -> Result<Request, Unanswered> {
    let words = texts(alloc, words)?;
    read_words(alloc, &words, WordPlace::Shell).map_err(|_| Unanswered::BadQuestion)
}

fn names(alloc: Global, rows: &TaskRows, words: &[&str]) -> Result<String, Unanswered> {
    let request = request(alloc, words)?;
    let mut line = String::new(alloc);
    for selector in request.selectors.as_slice() {
        if rows.len() >= 1 << 32 {
            return Err(Unanswered::BadQuestion);
        }
        match select_tasks(alloc, rows, selector) {
            Ok(found) => {
                for task in found.as_slice() {
                    let place = task.at;
                    line.push_str(format!(in alloc; " {place}")?.as_str())?;
                }
            }
            Err(SelectFault::NoTask) => line.push_str(" no task")?,
            Err(SelectFault::NoCommand) => line.push_str(" no command")?,
            Err(SelectFault::Memory) => return Err(Unanswered::Memory),
        }
        line.push_str(";")?;
    }
    Ok(line)
}

fn many_count(alloc: Global, segments: u32) -> Result<String, Unanswered> {
    let mut word = String::new(alloc);
    for _ in 0..segments {
        word.push_str("__.")?;
    }
    word.push_str("x")?;
    let request = request(alloc, &[word.as_str()])?;
    let rows = many(alloc)?;
    if rows.len() >= 1 << 32 {
        return Err(Unanswered::BadQuestion);
    }
    let mut count = 0;
    for selector in request.selectors.as_slice() {
        match select_tasks(alloc, &rows, selector) {
            Ok(found) => count = found.len(),
            Err(_) => return Err(Unanswered::BadQuestion),
        }
    }
    Ok(format!(in alloc; "{count} tasks")?)
}

pub fn answer_to(alloc: Global, words: &[&str]) -> Result<String, Unanswered> {
    match words {
        ["few", words @ ..] => names(alloc, &few(alloc)?, words),
        ["many", segments] => many_count(alloc, number(segments)?),
        _ => Err(Unanswered::BadQuestion),
    }
}
