//! Runs the adapters over real files, readers and writers through the scripts of the tables in data/, and prints what
//! each call is answered: what must be printed was written by hand from what the adapters promise, and stands in
//! `stdout`. A line of a table is a label, a colon and calls. Each line works in a folder of its own in the folder where
//! the program runs, and the folder is gone afterwards. It stands on the crates that it asks; nothing stands on it.
#![tactic(auto)]

mod answers;
mod outside;
mod sources;
mod stopped;
mod stores;
mod streams;

use std::{fs, io};
use stopped::Stopped;

/// A table of scripts.
#[derive(Clone, Copy)]
enum Topic {
    Stores,
    Workspaces,
    Streams,
}

const TOPICS: [(Topic, &str); 3] = [
    (Topic::Stores, "stores"),
    (Topic::Workspaces, "workspaces"),
    (Topic::Streams, "streams"),
];

fn answers_to(rt: &HostRuntime, topic: Topic, calls: &[&str]) -> Result<String, Stopped> {
    match topic {
        Topic::Stores => stores::answers_to(rt, calls),
        Topic::Workspaces => sources::answers_to(rt, calls),
        Topic::Streams => streams::answers_to(rt.alloc(), calls),
    }
}

fn answer_line(rt: &HostRuntime, topic: Topic, script: &str) -> Result<String, Stopped> {
    let calls: Vec<&str> = script.split(' ').collect(rt.alloc())?;
    answers_to(rt, topic, calls.as_slice())
}

fn print_line(rt: &HostRuntime, topic: Topic, line: &str) -> io::Result<()> {
    let (label, script) = line.split_once(": ").unwrap_or((line, line));
    match answer_line(rt, topic, script) {
        Ok(answers) => println!(rt; "{label} ={answers}"),
        Err(stopped) => println!(rt; "{label} stopped: {stopped:?}"),
    }
}

fn print_topic(rt: &HostRuntime, topic: Topic, name: &str) -> io::Result<()> {
    let path = format!(in rt.alloc(); "{name}.txt")?;
    let table = fs::read_to_string(rt, path.as_str())?;
    println!(rt; "{name}")?;
    for line in table.as_str().lines() {
        print_line(rt, topic, line)?;
    }
    Ok(())
}

fn main(rt: HostRuntime) -> io::Result<()> {
    for (topic, name) in TOPICS {
        print_topic(&rt, topic, name)?;
    }
    Ok(())
}
