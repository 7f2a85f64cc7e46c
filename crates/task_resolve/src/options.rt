//! The options of a command.

ghost use Rattle.std.specs.Prelude.{◌≡◌};
ghost use Rattle.task_resolve.specs.Options.{defaults, with_workers, by_lead, settings_behind, behind_options, command_words, command_of};

use crate::numbers::workers_of;
use crate::request::Verb;
use crate::spots::{Lead, lead_of};
use crate::verbs::verb_named;
use tree_value::Text;

/// The number of workers of a command that names none.
const DEFAULT_WORKERS: u8 = 4;

/// What the options set. `number` says that the next word is the number of workers.
#[derive(Clone, Copy, Debug, Drop)]
pub(crate) struct Settings {
    pub(crate) workers: u8,
    pub(crate) explain: bool,
    number: bool,
}

fn with_workers(settings: Settings, word: &Text) -> Settings
    ensures { result ≡ with_workers settings word.now }
{
    Settings {
        workers: workers_of(word.as_slice()).unwrap_or(settings.workers),
        number: false,
        ..settings
    }
}

fn by_lead(settings: Settings, lead: Lead) -> Option<Settings>
    ensures { result ≡ by_lead settings lead }
{
    match lead {
        Lead::Jobs => Some(Settings {
            number: true,
            ..settings
        }),
        Lead::Explain => Some(Settings {
            explain: true,
            ..settings
        }),
        Lead::Unknown => Some(settings),
        Lead::Command => None,
    }
}

#[tactic(auto, unfolding(crate::specs::Options::settings_behind))]
fn settings_behind(settings: Settings, word: &Text) -> Option<Settings>
    ensures { result ≡ settings_behind settings word.now }
{
    if settings.number {
        Some(with_workers(settings, word))
    } else {
        by_lead(settings, lead_of(word.as_slice()))
    }
}

/// The settings that the options make, and the words from the command on.
#[tactic(auto, unfolding(crate::specs::Options::behind_options))]
pub(crate) fn behind_options(words: &[Text]) -> (Settings, &[Text])
    ensures settings { result.0 ≡ (behind_options defaults words.now).0 }
    ensures rest { result.1.now ≡ command_words words.now }
{
    let mut settings = Settings {
        workers: DEFAULT_WORKERS,
        explain: false,
        number: false,
    };
    for at in 0..words.len() {
        match settings_behind(settings, &words[at]) {
            Some(more) => settings = more,
            None => return (settings, &words[at..]),
        }
    }
    (settings, &words[words.len()..])
}

/// The command, if there is one.
pub(crate) fn command_of(words: &[Text]) -> Option<Verb>
    ensures { result ≡ command_of words.now }
{
    let (_, rest) = behind_options(words);
    let word = rest.first()?;
    Some(verb_named(word.as_slice()))
}
