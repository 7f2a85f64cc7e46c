//! The request that words spell.

ghost use Rattle.std.specs.Prelude.{◌≡◌, ℕ, drop, map, IfOk, IsTrue, Some, None, option_and_then, slice_get};
ghost use Rattle.std.specs.List.{list_all};
ghost use Rattle.task_resolve.specs.Numbers.{number_of};
ghost use Rattle.task_resolve.specs.Options.{command_words};
ghost use Rattle.task_resolve.specs.Requests.{groups, is_group, selector, choosing, seed_of, verb_at, request_of, ReadsUnlessMemory};
ghost use Rattle.task_resolve.specs.Words.{first_bad};
ghost use Rattle.task_resolve.specs.declared.fault.Why.{Why};
ghost use Rattle.task_resolve.specs.declared.fault.WordFault.TheVariants.{Words};

use crate::fault::WordFault;
use crate::numbers::number_of;
use crate::options::behind_options;
use crate::request::{Request, Selector, Selectors, Verb, WordPlace};
use crate::segments::segments;
use crate::spots::is_plus;
use crate::verbs::verb_named;
use crate::words::first_bad;
use std::alloc::{AllocError, Global};
use tree_value::{CopyFault, Lines, Sequence, Text};

fn copied(word: &Text) -> Result<Text, AllocError>
    ensures { IfOk result (λ copy. copy ≡ word.now) }
{
    match word.copy() {
        Ok(copy) => Ok(copy),
        Err(CopyFault::Memory) => Err(AllocError),
    }
}

pub(crate) fn lines(alloc: Global, words: &[Text]) -> Result<Lines, AllocError>
    ensures { IfOk result (λ lines. lines ≡ words.now) }
{
    let mut lines = Vec::with_capacity(alloc, words.len())?;
    for word in words {
        lines.push(copied(word)?)?;
    }
    Ok(Sequence::from_vec(lines))
}

fn selector(alloc: Global, group: &[Text]) -> Result<Selector, AllocError>
    requires { IsTrue (is_group group.now) }
    ensures { IfOk result (λ made. made ≡ selector group.now) }
{
    match group.split_first() {
        Some((first, args)) => Ok(Selector {
            segments: segments(alloc, first.as_slice())?,
            args: lines(alloc, args)?,
        }),
        None => unreachable!(),
    }
}

fn selectors(alloc: Global, groups: &[&[Text]]) -> Result<Selectors, AllocError>
    requires { IsTrue (list_all is_group (map (λ group. group.now) groups.now)) }
    ensures { IfOk result (λ made. made ≡ map selector (map (λ group. group.now) groups.now)) }
{
    let mut made = Vec::with_capacity(alloc, groups.len())?;
    for group in groups {
        made.push(selector(alloc, group)?)?;
    }
    Ok(Sequence::from_vec(made))
}

fn groups(alloc: Global, words: &[Text]) -> Result<Vec<&[Text]>, AllocError>
    ensures { IfOk result (λ made. map (λ group. group.now) made.items ≡ groups words.now) }
{
    words.split(|word| is_plus(word.as_slice())).collect(alloc)
}

fn behind_first(words: &[Text]) -> &[Text]
    ensures { result.now ≡ drop 1 words.now }
{
    match words.split_first() {
        Some((_, behind)) => behind,
        None => words,
    }
}

fn choosing(alloc: Global, verb: Verb, words: &[Text]) -> Result<Vec<&[Text]>, AllocError>
    ensures { IfOk result (λ made. map (λ group. group.now) made.items ≡ choosing verb words.now) }
{
    match verb {
        Verb::Show => groups(alloc, behind_first(words)),
        Verb::Run => groups(alloc, words),
        Verb::Resolve => groups(alloc, behind_first(words)),
        Verb::Plan => groups(alloc, behind_first(words)),
        Verb::Clean => groups(alloc, behind_first(words)),
        Verb::Prepare => groups(alloc, behind_first(words)),
        Verb::SelectiveResolve => groups(alloc, behind_first(words)),
        Verb::SelectiveRun => groups(alloc, behind_first(words)),
        Verb::Gen => Ok(Vec::new(alloc)),
        Verb::Daemon => Ok(Vec::new(alloc)),
    }
}

fn second_number(words: &[Text]) -> Option<u32>
    ensures { result ≡ option_and_then number_of (slice_get words.now 1) }
{
    let word = words.get(1)?;
    number_of(word.as_slice())
}

fn seed_of(verb: Verb, words: &[Text]) -> u32
    ensures { result ≡ seed_of verb words.now }
{
    match verb {
        Verb::Show => 0,
        Verb::Run => 0,
        Verb::Resolve => 0,
        Verb::Plan => 0,
        Verb::Clean => 0,
        Verb::Prepare => 0,
        Verb::SelectiveResolve => 0,
        Verb::SelectiveRun => 0,
        Verb::Gen => second_number(words).unwrap_or(0),
        Verb::Daemon => 0,
    }
}

fn verb_at(words: &[Text]) -> Verb
    ensures { result ≡ verb_at words.now }
{
    match words.first() {
        Some(word) => verb_named(word.as_slice()),
        None => Verb::Run,
    }
}

#[tactic(auto, unfolding(crate::specs::Requests::request_of))]
fn request(alloc: Global, words: &[Text]) -> Result<Request, AllocError>
    requires { IsTrue (list_all is_group (choosing (verb_at (command_words words.now)) (command_words words.now))) }
    ensures { IfOk result (λ request. request ≡ request_of words.now) }
{
    let (settings, rest) = behind_options(words);
    let verb = verb_at(rest);
    let chosen = choosing(alloc, verb, rest)?;
    Ok(Request {
        workers: settings.workers,
        explain: settings.explain,
        verb,
        selectors: selectors(alloc, &chosen)?,
        seed: seed_of(verb, rest),
    })
}

/// Reads the words of a command. A bad word is told also where memory is short.
pub fn read_words(alloc: Global, words: &[Text], place: WordPlace) -> Result<Request, WordFault>
    ensures refused { (number : ℕ) (why : Why) → first_bad place words.now ≡ Some (number, why) → result ≡ Err (Words number why) }
    ensures read { first_bad place words.now ≡ None → ReadsUnlessMemory (request_of words.now) result }
{
    if let Some((number, why)) = first_bad(place, words) {
        return Err(WordFault::Words(number, why));
    }
    match request(alloc, words) {
        Ok(request) => Ok(request),
        Err(AllocError) => Err(WordFault::Memory),
    }
}
