//! Asks the words of commands, and the tasks that selectors select, what the tables in data/ say, and prints each question
//! with its answer: what must be printed was written by hand from the grammar of words in docs, and stands in `stdout`. It
//! stands on the crates that it asks, so that these need no tests of their own; nothing stands on it.
#![tactic(auto)]

mod requests;
mod selections;

use questions::{Unanswered, words_of};
use std::alloc::Global;
use std::{fs, io};

/// A table of questions.
#[derive(Clone, Copy)]
enum Topic {
    Requests,
    Selections,
}

const TOPICS: [(Topic, &str); 2] = [
    (Topic::Requests, "requests"),
    (Topic::Selections, "selections"),
];

fn answer_line(alloc: Global, topic: Topic, question: &str) -> Result<String, Unanswered> {
    let words = words_of(alloc, question)?;
    match topic {
        Topic::Requests => requests::answer_to(alloc, words.as_slice()),
        Topic::Selections => selections::answer_to(alloc, words.as_slice()),
    }
}

fn print_answer(rt: &HostRuntime, topic: Topic, line: &str) -> io::Result<()> {
    match answer_line(rt.alloc(), topic, line) {
        Ok(answer) => println!(rt; "{line} = {answer}"),
        Err(Unanswered::Memory) => println!(rt; "{line} = out of memory"),
        Err(Unanswered::BadQuestion) => println!(rt; "{line} is no question"),
    }
}

fn print_answers(rt: &HostRuntime, topic: Topic, name: &str) -> io::Result<()> {
    let path = format!(in rt.alloc(); "{name}.txt")?;
    let table = fs::read_to_string(rt, path.as_str())?;
    println!(rt; "{name}")?;
    for line in table.as_str().lines() {
        print_answer(rt, topic, line)?;
    }
    Ok(())
}

fn main(rt: HostRuntime) -> io::Result<()> {
    for (topic, name) in TOPICS {
        print_answers(&rt, topic, name)?;
    }
    Ok(())
}
