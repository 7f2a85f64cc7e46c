//! What the program is handed by the system.

use crate::reply::Reply;
use crate::top::{mill_one, refuse};
use io_real::{RealSink, RealStore, RealWorkspace};
use io_traits::IoFault;
use std::alloc::{AllocGlobal, Global};
use std::env::{Env, VarError};
use std::fs::{File, Files};
use std::io::{ErrorKind, Print};
use std::time::{Clock, SystemTime, UNIX_EPOCH};
use std::{env, io};
use tree_value::{Text, TextFault};

// The folder of results.
const OUT: &str = "out";

// What a command is run with.
#[derive(Drop)]
struct Handed {
    words: Vec<Text>,
    environment: Vec<(Text, Text)>,
}

fn text(alloc: Global, bytes: &[u8]) -> Result<Text, Reply> {
    match Text::of(alloc, bytes) {
        Ok(text) => Ok(text),
        Err(TextFault::BadText) => Err(Reply::WordsNotBuilt),
        Err(TextFault::Memory) => Err(Reply::Memory),
    }
}

// The words behind the program's name.
fn words<R: Env + AllocGlobal>(rt: &R) -> Result<Vec<Text>, Reply> {
    let alloc = rt.alloc();
    let args = match env::args(rt) {
        Ok(args) => args,
        Err(error) => return Err(refusal(error.kind() == ErrorKind::OutOfMemory)),
    };
    let mut words = Vec::new(alloc);
    for word in args.skip(1) {
        if words.push(text(alloc, word.as_bytes())?).is_err() {
            return Err(Reply::Memory);
        }
    }
    Ok(words)
}

fn environment<R: Env + AllocGlobal>(rt: &R) -> Result<Vec<(Text, Text)>, Reply> {
    let alloc = rt.alloc();
    let vars = match env::vars(rt) {
        Ok(vars) => vars,
        Err(error) => return Err(refusal(error == VarError::OutOfMemory)),
    };
    let mut environment = Vec::new(alloc);
    for (name, value) in vars {
        let pair = (
            text(alloc, name.as_bytes())?,
            text(alloc, value.as_bytes())?,
        );
        if environment.push(pair).is_err() {
            return Err(Reply::Memory);
        }
    }
    Ok(environment)
}

// Words or variables that can't be had are no UTF-8, but where memory is wanted.
fn refusal(is_memory: bool) -> Reply {
    if is_memory {
        Reply::Memory
    } else {
        Reply::WordsNotBuilt
    }
}

fn hand_over<R: Env + AllocGlobal>(rt: &R) -> Result<Handed, Reply> {
    Ok(Handed {
        words: words(rt)?,
        environment: environment(rt)?,
    })
}

// The milliseconds since 1970, or 0 where the clock can't be read.
fn moment<R: Clock>(rt: &R) -> u64 {
    match SystemTime::now(rt) {
        Ok(now) => match now.duration_since(UNIX_EPOCH) {
            Ok(since) => u64::try_from(since.as_millis()).unwrap_or(u64::MAX),
            Err(_) => 0,
        },
        Err(_) => 0,
    }
}

fn devices<R: Files<File = File> + AllocGlobal + Clone + Drop>(
    rt: &R,
    process: u32,
) -> Result<(RealStore<R>, RealWorkspace<R>), IoFault> {
    Ok((
        RealStore::over(rt.clone()?, OUT, process)?,
        RealWorkspace::over(rt.clone()?, ".")?,
    ))
}

/// Runs the command of the process of this number over the current folder, and gives the status to end with.
pub fn run<R>(rt: &R, process: u32) -> u8
where
    R: Files<File = File> + Env + Clock + Print + AllocGlobal + Clone + Drop,
{
    let alloc = rt.alloc();
    let sink = RealSink::over(io::writer(rt));
    match hand_over(rt) {
        Err(reply) => refuse(alloc, sink, reply).status,
        Ok(handed) => match devices(rt, process) {
            Err(_) => refuse(alloc, sink, Reply::Memory).status,
            Ok((store, workspace)) => {
                mill_one(
                    alloc,
                    handed.words.as_slice(),
                    handed.environment.as_slice(),
                    moment(rt),
                    store,
                    workspace,
                    sink,
                )
                .status
            }
        },
    }
}
