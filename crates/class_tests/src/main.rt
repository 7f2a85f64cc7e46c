//! Asks the crates of class files the questions of the tables in data/, and prints each with its answer: what must be
//! printed was written by hand from JVMS and docs/FORMATS.md, and stands in `stdout`. A line of a table is a question,
//! or a label, a colon and a question; `questions` says how a question writes bytes. It stands on all crates of class
//! files and of the texts that are printed of them, so that these need no tests of their own; nothing stands on it.
#![tactic(auto)]

mod builds;
mod code;
mod descriptors;
mod files;
mod hierarchy;
mod instructions;
mod lines;
mod names;
mod pools;
mod refusals;
mod tables;

use class_verify::ProgramOk;
use questions::{Unanswered, words_of};
use std::alloc::Global;
use std::{fs, io};

/// A table of questions.
#[derive(Clone, Copy)]
enum Topic {
    Names,
    Instructions,
    Code,
    Tables,
    Pools,
    Files,
    Refusals,
    Builds,
    Lines,
    Descriptors,
}

const TOPICS: [(Topic, &str); 11] = [
    (Topic::Names, "names"),
    (Topic::Instructions, "instructions"),
    (Topic::Code, "code"),
    (Topic::Tables, "tables"),
    (Topic::Pools, "pools"),
    (Topic::Files, "files"),
    (Topic::Refusals, "refusals"),
    (Topic::Builds, "builds"),
    (Topic::Lines, "lines"),
    (Topic::Descriptors, "descriptors"),
    (Topic::Builds, "methods"),
];

fn answer_to(alloc: Global, topic: Topic, words: &[&str]) -> Result<String, Unanswered> {
    match topic {
        Topic::Names => names::answer_to(alloc, words),
        Topic::Instructions => instructions::answer_to(alloc, words),
        Topic::Code => code::answer_to(alloc, words),
        Topic::Tables => tables::answer_to(alloc, words),
        Topic::Pools => pools::answer_to(alloc, words),
        Topic::Files => files::answer_to(alloc, words),
        Topic::Refusals => refusals::answer_to(alloc, words),
        Topic::Builds => builds::answer_to(alloc, words),
        Topic::Lines => lines::answer_to(alloc, words),
        Topic::Descriptors => descriptors::answer_to(alloc, words),
    }
}

fn answer_line(alloc: Global, topic: Topic, question: &str) -> Result<String, Unanswered> {
    let words = words_of(alloc, question)?;
    answer_to(alloc, topic, words.as_slice())
}

fn print_answer(rt: &HostRuntime, topic: Topic, line: &str) -> io::Result<()> {
    let (label, question) = line.split_once(": ").unwrap_or((line, line));
    match answer_line(rt.alloc(), topic, question) {
        Ok(answer) => println!(rt; "{label} = {answer}"),
        Err(Unanswered::Memory) => println!(rt; "{label} = out of memory"),
        Err(Unanswered::BadQuestion) => println!(rt; "{label} is no question"),
    }
}

fn print_answers(rt: &HostRuntime, topic: Topic, name: &str) -> io::Result<()> {
    let path = format!(in rt.alloc(); "{name}.txt")?;
    let table = fs::read_to_string(rt, path.as_str())?;
    println!(rt; "{name}")?;
    for line in table.as_str().lines() {
        print_answer(rt, topic, line)?;
    }
    Ok(())
}

fn answer_in(alloc: Global, program: &ProgramOk, question: &str) -> Result<String, Unanswered> {
    let words = words_of(alloc, question)?;
    hierarchy::answer_to(alloc, program, words.as_slice())
}

fn print_answer_in(rt: &HostRuntime, program: &ProgramOk, line: &str) -> io::Result<()> {
    match answer_in(rt.alloc(), program, line) {
        Ok(answer) => println!(rt; "{line} = {answer}"),
        Err(_) => println!(rt; "{line} is no question"),
    }
}

/// The questions of the hierarchy are asked of one program, whose files stand in a table of their own.
fn print_hierarchy(rt: &HostRuntime) -> io::Result<()> {
    let files = fs::read_to_string(rt, "hierarchy_files.txt")?;
    let table = fs::read_to_string(rt, "hierarchy.txt")?;
    println!(rt; "hierarchy")?;
    let Ok(program) = builds::program_of(rt.alloc(), files.as_str()) else {
        return println!(rt; "no program");
    };
    for line in table.as_str().lines() {
        print_answer_in(rt, &program, line)?;
    }
    Ok(())
}

fn main(rt: HostRuntime) -> io::Result<()> {
    for (topic, name) in TOPICS {
        print_answers(&rt, topic, name)?;
    }
    print_hierarchy(&rt)
}
