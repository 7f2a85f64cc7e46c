//! Reads and writes of sources and sinks, over bytes and over an outside that breaks.

use crate::answers::{mark, push_answer};
use crate::stopped::Stopped;
use io_real::{RealSink, RealSource};
use io_traits::{IoFault, Sink, Source};
use questions::bytes_of;
use std::alloc::Global;
use std::io;
use std::io::{ErrorKind, Read, Write};

// Wants memory, after a call that is interrupted and one that would block; a writer then takes nothing.
#[derive(Drop)]
struct Broken {
    calls: u64,
}

impl Read for Broken {
    fn read(&mut self, _buf: &mut [u8]) -> io::Result<usize> {
        Err(self.error())
    }
}

impl Write for Broken {
    fn write(&mut self, _buf: &[u8]) -> io::Result<usize> {
        if self.calls > 2 {
            return Ok(0);
        }
        Err(self.error())
    }

    fn flush(&mut self) -> io::Result<()> {
        Ok(())
    }
}

impl Broken {
    fn error(&mut self) -> io::Error {
        self.calls = self.calls.saturating_add(1);
        io::Error::from(match self.calls {
            1 => ErrorKind::Interrupted,
            2 => ErrorKind::WouldBlock,
            _ => ErrorKind::OutOfMemory,
        })
    }
}

// How many bytes were passed, `!` where the call failed, and `memory` where memory was wanted.
fn passed(alloc: Global, answer: Result<usize, IoFault>) -> Result<String, Stopped> {
    match answer {
        Ok(count) => Ok(count.to_string(alloc)?),
        Err(IoFault::Failed) => Ok("!".to_string(alloc)?),
        Err(IoFault::Memory) => Ok("memory".to_string(alloc)?),
    }
}

// Reads of two bytes: how many each gave, and what then stands in the two bytes.
fn reads<S: Source + Drop>(
    alloc: Global,
    mut source: S,
    calls: &[&str],
) -> Result<String, Stopped> {
    let mut into = [b'-'; 2];
    let mut text = String::new(alloc);
    for _ in calls {
        push_answer(&mut text, passed(alloc, source.read(&mut into))?.as_str())?;
        push_answer(&mut text, str::from_utf8(&into).unwrap_or("no text"))?;
    }
    Ok(text)
}

fn sink_answer<K: Sink>(alloc: Global, sink: &mut K, call: &str) -> Result<String, Stopped> {
    match call.split_once(':') {
        Some(("write", word)) => passed(alloc, sink.write(bytes_of(alloc, word)?.as_slice())),
        _ => match call {
            "begin" => Ok(mark(sink.begin())?.to_string(alloc)?),
            "faults" => Ok(sink.faults().to_string(alloc)?),
            _ => Err(Stopped::BadQuestion),
        },
    }
}

fn writes<K: Sink + Drop>(alloc: Global, mut sink: K, calls: &[&str]) -> Result<String, Stopped> {
    let mut text = String::new(alloc);
    for call in calls {
        push_answer(&mut text, sink_answer(alloc, &mut sink, call)?.as_str())?;
    }
    Ok(text)
}

pub fn answers_to(alloc: Global, words: &[&str]) -> Result<String, Stopped> {
    match words {
        ["source", bytes, calls @ ..] => { reads(alloc, RealSource::over(bytes.as_bytes()), calls) }
        ["sink", calls @ ..] => writes(alloc, RealSink::over(Vec::<u8>::new(alloc)), calls),
        ["broken-source", calls @ ..] => {
            reads(alloc, RealSource::over(Broken { calls: 0 }), calls)
        }
        ["broken-sink", calls @ ..] => writes(alloc, RealSink::over(Broken { calls: 0 }), calls),
        _ => Err(Stopped::BadQuestion),
    }
}
