//! What may stand behind words of a command.

ghost use Rattle.std.specs.Prelude.{◌≡◌};
ghost use Rattle.task_resolve.specs.Spots.{lead_of, is_plus, after_command, after_lead, next, is_complete};

use crate::request::Verb;
use crate::verbs::verb_named;

/// What a word is, where an option or the command may stand.
#[derive(Clone, Copy, Debug, PartialEq, Eq, Drop)]
pub(crate) enum Lead {
    Jobs,
    Explain,
    Unknown,
    Command,
}

/// The options that have stood.
#[derive(Clone, Copy, Debug, PartialEq, Eq, Drop)]
pub(crate) struct Seen {
    pub(crate) jobs: bool,
    pub(crate) explain: bool,
}

/// What may stand at a word's place.
#[derive(Clone, Copy, Debug, PartialEq, Eq, Drop)]
pub(crate) enum Spot {
    /// An option or the command.
    Options(Seen),
    /// The number of workers.
    Number(Seen),
    /// A selector, and behind it arguments if the flag says so.
    Selector(bool),
    /// `+`, or an argument if the flag says so.
    Further(bool),
    /// The seed of `gen`.
    Seed,
    /// Nothing.
    End,
}

#[tactic(auto, unfolding(crate::specs::Spots::lead_of))]
pub(crate) fn lead_of(word: &[u8]) -> Lead
    ensures { result ≡ lead_of word.now }
{
    if word == b"-j".as_slice() {
        Lead::Jobs
    } else if word == b"--explain".as_slice() {
        Lead::Explain
    } else if word.starts_with(b"-") {
        Lead::Unknown
    } else {
        Lead::Command
    }
}

/// Whether the word stands between two selectors.
#[tactic(auto, unfolding(crate::specs::Spots::is_plus))]
pub(crate) fn is_plus(word: &[u8]) -> bool
    ensures { result ≡ is_plus word.now }
{
    word == b"+".as_slice()
}

fn after_command(verb: Verb) -> Spot
    ensures { result ≡ after_command verb }
{
    match verb {
        Verb::Show => Spot::Selector(true),
        Verb::Run => Spot::Further(true),
        Verb::Resolve => Spot::Selector(false),
        Verb::Plan => Spot::Selector(false),
        Verb::Clean => Spot::Selector(false),
        Verb::Prepare => Spot::Selector(false),
        Verb::SelectiveResolve => Spot::Selector(false),
        Verb::SelectiveRun => Spot::Selector(false),
        Verb::Gen => Spot::Seed,
        Verb::Daemon => Spot::End,
    }
}

fn after_lead(seen: Seen, word: &[u8], lead: Lead) -> Spot
    ensures { result ≡ after_lead seen word.now lead }
{
    match lead {
        Lead::Jobs => Spot::Number(Seen { jobs: true, ..seen }),
        Lead::Explain => Spot::Options(Seen {
            explain: true,
            ..seen
        }),
        Lead::Unknown => Spot::Options(seen),
        Lead::Command => after_command(verb_named(word)),
    }
}

/// What may stand behind a word.
#[tactic(auto, unfolding(crate::specs::Spots::next))]
pub(crate) fn next(spot: Spot, word: &[u8]) -> Spot
    ensures { result ≡ next spot word.now }
{
    match spot {
        Spot::Options(seen) => after_lead(seen, word, lead_of(word)),
        Spot::Number(seen) => Spot::Options(seen),
        Spot::Selector(args) => Spot::Further(args),
        Spot::Further(args) => {
            if is_plus(word) {
                Spot::Selector(args)
            } else {
                Spot::Further(args)
            }
        }
        Spot::Seed => Spot::End,
        Spot::End => Spot::End,
    }
}

/// Whether the words may end there.
pub(crate) fn is_complete(spot: Spot) -> bool
    ensures { result ≡ is_complete spot }
{
    match spot {
        Spot::Options(_) => false,
        Spot::Number(_) => false,
        Spot::Selector(_) => false,
        Spot::Further(_) => true,
        Spot::Seed => false,
        Spot::End => true,
    }
}
