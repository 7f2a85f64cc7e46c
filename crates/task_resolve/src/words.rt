//! Which word of a command is bad, and why.

ghost use Rattle.std.specs.Prelude.{◌≡◌};
ghost use Rattle.task_resolve.specs.Spots.{start};
ghost use Rattle.task_resolve.specs.Words.{unless, takes_no_explain, is_named, command_cause, jobs_cause, explain_cause, lead_cause, content_cause, word_cause, first_bad_from, first_bad};

use crate::fault::Why;
use crate::numbers::{number_of, workers_of};
use crate::options::command_of;
use crate::request::{Verb, WordPlace};
use crate::segments::is_selector;
use crate::spots::{Lead, Seen, Spot, is_complete, is_plus, lead_of, next};
use crate::verbs::{is_client, is_here, takes_explain, verb_named};
use tree_value::Text;

/// The most words of a command.
pub const MAX_WORDS: u32 = 256;

/// The most bytes of a word.
pub const MAX_WORD_LEN: usize = 4096;

fn takes_no_explain(command: Option<Verb>) -> bool
    ensures { result ≡ takes_no_explain command }
{
    match command {
        Some(verb) => !takes_explain(verb),
        None => false,
    }
}

fn is_named(verb: Verb, word: &[u8]) -> bool
    ensures { result ≡ is_named verb word.now }
{
    match verb {
        Verb::Show => true,
        Verb::Run => is_selector(word),
        Verb::Resolve => true,
        Verb::Plan => true,
        Verb::Clean => true,
        Verb::Prepare => true,
        Verb::SelectiveResolve => true,
        Verb::SelectiveRun => true,
        Verb::Gen => true,
        Verb::Daemon => true,
    }
}

fn unless(fits: bool, why: Why) -> Option<Why>
    ensures { result ≡ unless fits why }
{
    if fits { None } else { Some(why) }
}

fn command_cause(place: WordPlace, verb: Verb, word: &[u8]) -> Option<Why>
    ensures { result ≡ command_cause place verb word.now }
{
    if !is_named(verb, word) {
        return Some(Why::BadSelector);
    }
    unless(is_here(place, verb), Why::NotHere)
}

fn jobs_cause(place: WordPlace, seen: Seen) -> Option<Why>
    ensures { result ≡ jobs_cause place seen }
{
    if seen.jobs {
        return Some(Why::SecondOption);
    }
    unless(!is_client(place), Why::NotHere)
}

fn explain_cause(command: Option<Verb>, seen: Seen) -> Option<Why>
    ensures { result ≡ explain_cause command seen }
{
    if seen.explain {
        return Some(Why::SecondOption);
    }
    unless(!takes_no_explain(command), Why::NotHere)
}

fn lead_cause(
    place: WordPlace,
    command: Option<Verb>,
    seen: Seen,
    word: &[u8],
    lead: Lead,
) -> Option<Why>
    ensures { result ≡ lead_cause place command seen word.now lead }
{
    match lead {
        Lead::Jobs => jobs_cause(place, seen),
        Lead::Explain => explain_cause(command, seen),
        Lead::Unknown => Some(Why::UnknownOption),
        Lead::Command => command_cause(place, verb_named(word), word),
    }
}

#[tactic(auto, unfolding(crate::specs::Words::content_cause))]
fn content_cause(place: WordPlace, command: Option<Verb>, spot: Spot, word: &Text) -> Option<Why>
    ensures { result ≡ content_cause place command spot word.now }
{
    let bytes = word.as_slice();
    match spot {
        Spot::Options(seen) => lead_cause(place, command, seen, bytes, lead_of(bytes)),
        Spot::Number(_) => unless(workers_of(bytes).is_some(), Why::BadNumber),
        Spot::Selector(_) => unless(is_selector(bytes), Why::BadSelector),
        Spot::Further(args) => unless(args || is_plus(bytes), Why::ExtraWord),
        Spot::Seed => unless(number_of(bytes).is_some(), Why::BadNumber),
        Spot::End => Some(Why::ExtraWord),
    }
}

#[tactic(auto, unfolding(crate::specs::Words::word_cause))]
fn word_cause(
    place: WordPlace,
    command: Option<Verb>,
    number: u32,
    spot: Spot,
    word: &Text,
) -> Option<Why>
    ensures { result ≡ word_cause place command number spot word.now }
{
    if number > MAX_WORDS || word.len() > MAX_WORD_LEN {
        return Some(Why::TooLong);
    }
    content_cause(place, command, spot, word)
}

#[tactic(auto, unfolding(crate::specs::Words::first_bad_from, crate::specs::Words::word_cause))]
fn first_bad_by(place: WordPlace, command: Option<Verb>, words: &[Text]) -> Option<(u32, Why)>
    ensures { result ≡ first_bad_from place command 1 start words.now }
{
    let mut number = 1;
    let mut spot = Spot::Options(Seen {
        jobs: false,
        explain: false,
    });
    for word in words {
        if let Some(why) = word_cause(place, command, number, spot, word) {
            return Some((number, why));
        }
        number += 1;
        spot = next(spot, word.as_slice());
    }
    if is_complete(spot) {
        None
    } else {
        Some((number, Why::MissingWord))
    }
}

/// The first bad word, counted from 1, and its cause.
pub(crate) fn first_bad(place: WordPlace, words: &[Text]) -> Option<(u32, Why)>
    ensures { result ≡ first_bad place words.now }
{
    first_bad_by(place, command_of(words), words)
}
