//! Sources and sinks in memory, by scripts of calls.

use crate::listed::printed;
use io_traits::{IoFault, MemSink, MemSource, Sink, Source};
use questions::{Unanswered, bytes_of, number};
use std::alloc::Global;
use tree_value::Bytes;

fn numbers_of(alloc: Global, plan: &str) -> Result<Vec<u64>, Unanswered> {
    let mut numbers = Vec::new(alloc);
    if !plan.is_empty() {
        numbers.push(u64::from(number(plan)?))?;
    }
    Ok(numbers)
}

/// How many bytes a call passed on, or `!` where it failed.
fn passed(alloc: Global, answer: Result<usize, IoFault>) -> Result<String, Unanswered> {
    match answer {
        Ok(count) => Ok(count.to_string(alloc)?),
        Err(IoFault::Failed) => Ok("!".to_string(alloc)?),
        Err(IoFault::Memory) => Err(Unanswered::Memory),
    }
}

/// Reads of two bytes: how many each gave, and what then stands in the two bytes.
fn source_answer(alloc: Global, bytes: &str, plan: &str, reads: u32) -> Result<String, Unanswered> {
    let bytes = Bytes::from_vec(bytes_of(alloc, bytes)?);
    let mut source = MemSource::new(alloc, bytes, numbers_of(alloc, plan)?).map_err(
        |_| Unanswered::Memory,
    )?;
    let mut into = [b'-'; 2];
    let mut text = String::new(alloc);
    for _ in 0..reads {
        text.push_str(passed(alloc, source.read(&mut into))?.as_str())?;
        text.push_str(printed(alloc, &into)?.as_str())?;
        text.push_str(" ")?;
    }
    Ok(text)
}

fn sink_step(alloc: Global, sink: &mut MemSink, word: &str) -> Result<String, Unanswered> {
    if word != "begin" {
        return passed(alloc, sink.write(bytes_of(alloc, word)?.as_slice()));
    }
    match sink.begin() {
        Ok(()) => Ok("+".to_string(alloc)?),
        Err(_) => Ok("!".to_string(alloc)?),
    }
}

/// Writes of words, and what the sink then holds, and its count of faults.
fn sink_answer(
    alloc: Global,
    bytes: &str,
    plan: &str,
    words: &[&str],
) -> Result<String, Unanswered> {
    let bytes = Bytes::from_vec(bytes_of(alloc, bytes)?);
    let mut sink = MemSink::new(alloc, bytes, numbers_of(alloc, plan)?).map_err(
        |_| Unanswered::Memory,
    )?;
    let mut text = String::new(alloc);
    for word in words {
        text.push_str(sink_step(alloc, &mut sink, word)?.as_str())?;
        text.push_str(" ")?;
    }
    let (held, faults) = (printed(alloc, sink.as_slice())?, sink.faults());
    text.push_str(format!(in alloc; "holds {held}, {faults} faults")?.as_str())?;
    Ok(text)
}

pub fn answer_to(alloc: Global, words: &[&str]) -> Result<String, Unanswered> {
    match words {
        ["source", bytes, plan, reads] => source_answer(alloc, bytes, plan, number(reads)?),
        ["sink", bytes, plan, words @ ..] => sink_answer(alloc, bytes, plan, words),
        _ => Err(Unanswered::BadQuestion),
    }
}
