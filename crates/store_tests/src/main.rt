//! Asks the crates of values, devices and results the questions of the tables in data/, and prints each with its answer:
//! what must be printed was written by hand from docs/FORMATS.md and the contracts of the devices, and stands in
//! `stdout`. A line of a table is a question, or a label, a colon and a question; `questions` says how a question writes
//! bytes. It stands on the crates that it asks, so that these need no tests of their own; nothing stands on it.
#![tactic(auto)]

mod devices;
mod entries;
mod listed;
mod results;
mod streams;
mod trees;
mod values;

use questions::{Unanswered, words_of};
use std::alloc::Global;
use std::{fs, io};

/// A table of questions.
#[derive(Clone, Copy)]
enum Topic {
    Trees,
    Values,
    Entries,
    Devices,
    Streams,
    Results,
}

const TOPICS: [(Topic, &str); 6] = [
    (Topic::Trees, "trees"),
    (Topic::Values, "values"),
    (Topic::Entries, "entries"),
    (Topic::Devices, "devices"),
    (Topic::Streams, "streams"),
    (Topic::Results, "results"),
];

fn answer_to(alloc: Global, topic: Topic, words: &[&str]) -> Result<String, Unanswered> {
    match topic {
        Topic::Trees => trees::answer_to(alloc, words),
        Topic::Values => values::answer_to(alloc, words),
        Topic::Entries => entries::answer_to(alloc, words),
        Topic::Devices => devices::answer_to(alloc, words),
        Topic::Streams => streams::answer_to(alloc, words),
        Topic::Results => results::answer_to(alloc, words),
    }
}

fn answer_line(alloc: Global, topic: Topic, question: &str) -> Result<String, Unanswered> {
    let words = words_of(alloc, question)?;
    answer_to(alloc, topic, words.as_slice())
}

fn print_answer(rt: &HostRuntime, topic: Topic, line: &str) -> io::Result<()> {
    let (label, question) = line.split_once(": ").unwrap_or((line, line));
    match answer_line(rt.alloc(), topic, question) {
        Ok(answer) => println!(rt; "{label} = {answer}"),
        Err(Unanswered::Memory) => println!(rt; "{label} = out of memory"),
        Err(Unanswered::BadQuestion) => println!(rt; "{label} is no question"),
    }
}

fn print_answers(rt: &HostRuntime, topic: Topic, name: &str) -> io::Result<()> {
    let path = format!(in rt.alloc(); "{name}.txt")?;
    let table = fs::read_to_string(rt, path.as_str())?;
    println!(rt; "{name}")?;
    for line in table.as_str().lines() {
        print_answer(rt, topic, line)?;
    }
    Ok(())
}

fn main(rt: HostRuntime) -> io::Result<()> {
    for (topic, name) in TOPICS {
        print_answers(&rt, topic, name)?;
    }
    Ok(())
}
