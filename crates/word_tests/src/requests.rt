//! Words of commands. The first word of a question is the place, and the others are the words; `count` has so many words
//! of a command line, and `length` a word of so many bytes.

use questions::{Unanswered, number};
use std::alloc::Global;
use task_resolve::{Request, Segment, Selector, Verb, WordFault, WordPlace, read_words};
use tree_value::Text;

fn text(alloc: Global, word: &str) -> Result<Text, Unanswered> {
    Text::of(alloc, word.as_bytes()).map_err(|_| Unanswered::Memory)
}

pub fn texts(alloc: Global, words: &[&str]) -> Result<Vec<Text>, Unanswered> {
    let mut texts = Vec::new(alloc);
    for word in words {
        texts.push(text(alloc, word)?)?;
    }
    Ok(texts)
}

fn push_text(line: &mut String, text: &Text) -> Result<(), Unanswered> {
    match str::from_utf8(text.as_slice()) {
        Ok(text) => Ok(line.push_str(text)?),
        Err(_) => Err(Unanswered::BadQuestion),
    }
}

fn push_texts(
    line: &mut String,
    open: &str,
    texts: &[Text],
    close: &str,
) -> Result<(), Unanswered> {
    line.push_str(open)?;
    for place in 0..texts.len() {
        if place > 0 {
            line.push_str(" ")?;
        }
        push_text(line, &texts[place])?;
    }
    line.push_str(close)?;
    Ok(())
}

fn push_segment(line: &mut String, segment: &Segment) -> Result<(), Unanswered> {
    match segment {
        Segment::Literal(text) => push_text(line, text),
        Segment::One => Ok(line.push_str("ONE")?),
        Segment::Any => Ok(line.push_str("ANY")?),
        Segment::Choice(texts) => push_texts(line, "(", texts.as_slice(), ")"),
    }
}

fn push_selector(line: &mut String, selector: &Selector) -> Result<(), Unanswered> {
    for segment in selector.segments.as_slice() {
        line.push_str(" ")?;
        push_segment(line, segment)?;
    }
    if !selector.args.is_empty() {
        push_texts(line, " [", selector.args.as_slice(), "]")?;
    }
    Ok(line.push_str(";")?)
}

fn verb_name(verb: Verb) -> &'static str {
    match verb {
        Verb::Show => "show",
        Verb::Run => "run",
        Verb::Resolve => "resolve",
        Verb::Plan => "plan",
        Verb::Clean => "clean",
        Verb::Prepare => "prepare",
        Verb::SelectiveResolve => "resolve changed",
        Verb::SelectiveRun => "run changed",
        Verb::Gen => "generate",
        Verb::Daemon => "daemon",
    }
}

fn request_line(alloc: Global, request: &Request) -> Result<String, Unanswered> {
    let name = verb_name(request.verb);
    let workers = request.workers;
    let explained = if request.explain { " explained" } else { "" };
    let seed = request.seed;
    let mut line = format!(in alloc; "{name} by {workers}{explained} seed {seed}:")?;
    for selector in request.selectors.as_slice() {
        push_selector(&mut line, selector)?;
    }
    Ok(line)
}

fn answer(alloc: Global, words: &[Text], place: WordPlace) -> Result<String, Unanswered> {
    match read_words(alloc, words, place) {
        Ok(request) => request_line(alloc, &request),
        Err(WordFault::Words(number, why)) => {
            let cause = why.text();
            Ok(format!(in alloc; "word {number}: {cause}")?)
        }
        Err(WordFault::Memory) => Err(Unanswered::Memory),
    }
}

/// `show a` and as many arguments as make so many words.
fn counted(alloc: Global, count: u32) -> Result<String, Unanswered> {
    let mut words = texts(alloc, &["show", "a"])?;
    for _ in 2..count {
        words.push(text(alloc, "b")?)?;
    }
    match read_words(alloc, &words, WordPlace::Shell) {
        Ok(request) => {
            let count = request
                .selectors
                .as_slice()
                .iter()
                .map(|s| s.args.len())
                .max()
                .unwrap_or(0);
            Ok(format!(in alloc; "{count} arguments")?)
        }
        Err(_) => answer(alloc, &words, WordPlace::Shell),
    }
}

/// `show a` with an argument of so many bytes.
fn long(alloc: Global, len: u32) -> Result<String, Unanswered> {
    let mut word = String::new(alloc);
    for _ in 0..len {
        word.push_str("b")?;
    }
    let words = texts(alloc, &["show", "a", word.as_str()])?;
    match read_words(alloc, &words, WordPlace::Shell) {
        Ok(_) => Ok("accepted".to_string(alloc)?),
        Err(_) => answer(alloc, &words, WordPlace::Shell),
    }
}

pub fn answer_to(alloc: Global, words: &[&str]) -> Result<String, Unanswered> {
    match words {
        ["count", count] => counted(alloc, number(count)?),
        ["length", len] => long(alloc, number(len)?),
        ["shell", words @ ..] => answer(alloc, &texts(alloc, words)?, WordPlace::Shell),
        ["one", words @ ..] => answer(alloc, &texts(alloc, words)?, WordPlace::One),
        ["replay", words @ ..] => answer(alloc, &texts(alloc, words)?, WordPlace::Replay),
        ["daemon", words @ ..] => answer(alloc, &texts(alloc, words)?, WordPlace::Daemon),
        _ => Err(Unanswered::BadQuestion),
    }
}
