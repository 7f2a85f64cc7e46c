//! The names of the commands, and where each is accepted.

ghost use Rattle.std.specs.Prelude.{◌≡◌};
ghost use Rattle.task_resolve.specs.Places.{starts_daemon, may_generate, is_client};
ghost use Rattle.task_resolve.specs.Verbs.{verb_named, takes_explain, is_here};

use crate::request::{Verb, WordPlace};

/// The command that a word names. A word that is no command's name is a selector.
#[tactic(auto, unfolding(crate::specs::Verbs::verb_named))]
pub(crate) fn verb_named(word: &[u8]) -> Verb
    ensures { result ≡ verb_named word.now }
{
    if word == b"show".as_slice() {
        Verb::Show
    } else if word == b"resolve".as_slice() {
        Verb::Resolve
    } else if word == b"plan".as_slice() {
        Verb::Plan
    } else if word == b"clean".as_slice() {
        Verb::Clean
    } else if word == b"selective.prepare".as_slice() {
        Verb::Prepare
    } else if word == b"selective.resolve".as_slice() {
        Verb::SelectiveResolve
    } else if word == b"selective.run".as_slice() {
        Verb::SelectiveRun
    } else if word == b"gen".as_slice() {
        Verb::Gen
    } else if word == b"daemon".as_slice() {
        Verb::Daemon
    } else {
        Verb::Run
    }
}

/// Whether `--explain` may stand before the command.
pub(crate) fn takes_explain(verb: Verb) -> bool
    ensures { result ≡ takes_explain verb }
{
    match verb {
        Verb::Show => true,
        Verb::Run => true,
        Verb::Resolve => false,
        Verb::Plan => false,
        Verb::Clean => false,
        Verb::Prepare => false,
        Verb::SelectiveResolve => false,
        Verb::SelectiveRun => true,
        Verb::Gen => false,
        Verb::Daemon => false,
    }
}

fn starts_daemon(place: WordPlace) -> bool
    ensures { result ≡ starts_daemon place }
{
    match place {
        WordPlace::Shell => true,
        WordPlace::One => false,
        WordPlace::Replay => false,
        WordPlace::Daemon => false,
    }
}

fn may_generate(place: WordPlace) -> bool
    ensures { result ≡ may_generate place }
{
    match place {
        WordPlace::Shell => true,
        WordPlace::One => true,
        WordPlace::Replay => false,
        WordPlace::Daemon => false,
    }
}

/// Whether the words are those of a daemon's client.
pub(crate) fn is_client(place: WordPlace) -> bool
    ensures { result ≡ is_client place }
{
    match place {
        WordPlace::Shell => false,
        WordPlace::One => false,
        WordPlace::Replay => false,
        WordPlace::Daemon => true,
    }
}

/// Whether the command is accepted at the place.
pub(crate) fn is_here(place: WordPlace, verb: Verb) -> bool
    ensures { result ≡ is_here place verb }
{
    match verb {
        Verb::Show => true,
        Verb::Run => true,
        Verb::Resolve => true,
        Verb::Plan => true,
        Verb::Clean => true,
        Verb::Prepare => !is_client(place),
        Verb::SelectiveResolve => !is_client(place),
        Verb::SelectiveRun => !is_client(place),
        Verb::Gen => may_generate(place),
        Verb::Daemon => starts_daemon(place),
    }
}
