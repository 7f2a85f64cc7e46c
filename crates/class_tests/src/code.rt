//! The decoding of code (JVMS 6.5), and the targets of switches.

ghost use Rattle.jvm_tables.specs.Switching.{IsSwitchAt};

use jvm_tables::{CodeFault, Instr, decode, is_switch, switch_case, switch_len, switch_target};
use questions::{Unanswered, bytes_of, number};
use std::alloc::{AllocError, Global};

fn decoded(code: &[u8], pc: u32) -> Result<Result<Instr, CodeFault>, Unanswered> {
    if (pc as usize) < code.len() && code.len() <= 65535 {
        return Ok(decode(code, pc));
    }
    Err(Unanswered::BadQuestion)
}

fn instruction_answer(alloc: Global, code: &[u8]) -> Result<String, Unanswered> {
    let decoded = decoded(code, 0)?;
    Ok(format!(in alloc; "{decoded:?}")?)
}

fn push_case(text: &mut String, code: &[u8], instr: &Instr, at: usize) -> Result<(), AllocError>
    requires { IsSwitchAt code.now instr.now }
{
    if at < switch_len(code, instr) {
        let (key, target) = switch_case(code, instr, at);
        let case = format!(in *text.allocator(); " {key} to {target}")?;
        text.push_str(case.as_str())?;
    }
    Ok(())
}

/// The switch at a pc: its length, its default offset and its cases, each key with the pc to which it leads.
fn cases_answer(alloc: Global, code: &[u8], pc: u32) -> Result<String, Unanswered> {
    if (pc as usize) >= code.len() || code.len() > 65535 {
        return Err(Unanswered::BadQuestion);
    }
    let Ok(instr) = decode(code, pc) else {
        return Err(Unanswered::BadQuestion);
    };
    let mut text = format!(in alloc; "length {} default {} cases", instr.length, instr.first)?;
    if is_switch(&instr) {
        for at in 0..switch_len(code, &instr) {
            push_case(&mut text, code, &instr, at)?;
        }
    }
    Ok(text)
}

/// The pc to which a key leads.
fn target_answer(alloc: Global, code: &[u8], pc: u32, key: i32) -> Result<String, Unanswered> {
    if (pc as usize) >= code.len() || code.len() > 65535 {
        return Err(Unanswered::BadQuestion);
    }
    match decode(code, pc) {
        Ok(instr) => if is_switch(&instr) {
            Ok(switch_target(code, &instr, key).to_string(alloc)?)
        } else {
            Err(Unanswered::BadQuestion)
        },
        Err(_) => Err(Unanswered::BadQuestion),
    }
}

fn key_of(word: &str) -> Result<i32, Unanswered> {
    word.parse::<i32>().map_err(|_| Unanswered::BadQuestion)
}

pub fn answer_to(alloc: Global, words: &[&str]) -> Result<String, Unanswered> {
    match words {
        ["instruction", word] => instruction_answer(alloc, bytes_of(alloc, word)?.as_slice()),
        ["cases", word, pc] => {
            cases_answer(alloc, bytes_of(alloc, word)?.as_slice(), number(pc)?)
        }
        ["target", word, pc, key] => {
            let code = bytes_of(alloc, word)?;
            target_answer(alloc, code.as_slice(), number(pc)?, key_of(key)?)
        }
        _ => Err(Unanswered::BadQuestion),
    }
}
