//! Constant pools (JVMS 4.4).

ghost use Rattle.std.specs.Prelude.{◌<◌, ◌≤◌, ◌^◌, length};

use class_model::Pool;
use const_pool::{WriteFault, read_pool, write_pool};
use questions::{Unanswered, bytes_of, number};
use std::alloc::{AllocError, Global};

/// Where what is read ends, or why nothing is read.
fn pool_answer(alloc: Global, bytes: &[u8], at: u32) -> Result<String, AllocError>
    requires small { length bytes.now < 2 ^ 32 }
    requires within { at ≤ length bytes.now }
{
    match read_pool(alloc, bytes, at) {
        Ok((judged, next)) => {
            let count = judged.as_pool().constants.len();
            format!(in alloc; "{count} constants to {next}")
        }
        Err(fault) => format!(in alloc; "{fault:?}"),
    }
}

fn pool_at(alloc: Global, bytes: &[u8], at: u32) -> Result<String, Unanswered> {
    if bytes.len() < 4_000_000 && (at as usize) <= bytes.len() {
        return Ok(pool_answer(alloc, bytes, at)?);
    }
    Err(Unanswered::BadQuestion)
}

fn pool_of(alloc: Global, bytes: &[u8]) -> Result<Pool, Unanswered> {
    if bytes.len() >= 4_000_000 {
        return Err(Unanswered::BadQuestion);
    }
    match read_pool(alloc, bytes, 0) {
        Ok((judged, _)) => Ok(judged.into_pool()),
        Err(_) => Err(Unanswered::BadQuestion),
    }
}

/// Whether a pool is written with the bytes of which it is read.
fn again_answer(alloc: Global, bytes: &[u8]) -> Result<String, Unanswered> {
    let pool = pool_of(alloc, bytes)?;
    let answer = match write_pool(alloc, &pool) {
        Ok(written) => if written.as_slice() == bytes {
            "the same bytes"
        } else {
            "other bytes"
        },
        Err(_) => "no bytes",
    };
    Ok(answer.to_string(alloc)?)
}

fn refusal(alloc: Global, pool: &Pool) -> Result<String, AllocError> {
    match write_pool(alloc, pool) {
        Ok(_) => "bytes".to_string(alloc),
        Err(fault) => fault_text(alloc, fault),
    }
}

pub fn fault_text(alloc: Global, fault: WriteFault) -> Result<String, AllocError> {
    format!(in alloc; "{fault:?}")
}

/// What is written of a pool without its last constant.
fn shorter_answer(alloc: Global, bytes: &[u8]) -> Result<String, Unanswered> {
    let mut pool = pool_of(alloc, bytes)?;
    let _last = pool.constants.pop();
    Ok(refusal(alloc, &pool)?)
}

pub fn answer_to(alloc: Global, words: &[&str]) -> Result<String, Unanswered> {
    match words {
        ["pool", word, at] => pool_at(alloc, bytes_of(alloc, word)?.as_slice(), number(at)?),
        ["written", word] => again_answer(alloc, bytes_of(alloc, word)?.as_slice()),
        ["without-last", word] => shorter_answer(alloc, bytes_of(alloc, word)?.as_slice()),
        _ => Err(Unanswered::BadQuestion),
    }
}
