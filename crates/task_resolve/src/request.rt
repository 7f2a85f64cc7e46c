//! What the words of a command ask for.

use tree_value::{Lines, Sequence, Text};

/// From where the words come, which says what they may ask for.
#[derive(Clone, Copy, Debug, PartialEq, Eq, Drop)]
pub enum WordPlace {
    /// The command line.
    Shell,
    /// A single command over stores that the caller hands in.
    One,
    /// A step of a script.
    Replay,
    /// A line of a daemon's input.
    Daemon,
}

/// The commands.
#[derive(Clone, Copy, Debug, PartialEq, Eq, Drop)]
pub enum Verb {
    /// Evaluates tasks and prints their values.
    Show,
    /// Evaluates tasks: the words begin with a selector in place of a command's name.
    Run,
    Resolve,
    Plan,
    Clean,
    Prepare,
    SelectiveResolve,
    SelectiveRun,
    Gen,
    Daemon,
}

/// What a selector asks of segments of a task's name.
#[derive(Debug, Drop)]
pub enum Segment {
    /// One segment, which is this text.
    Literal(Text),
    /// Any one segment.
    One,
    /// Any number of segments, and also none.
    Any,
    /// One segment, which is one of these texts.
    Choice(Lines),
}

/// What a selector asks of a task's name, segment by segment.
pub type Segments = Sequence<Segment>;

/// A selector with the arguments that stand behind it.
#[derive(Debug, Drop)]
pub struct Selector {
    pub segments: Segments,
    pub args: Lines,
}

/// Selectors in the order of the words.
pub type Selectors = Sequence<Selector>;

/// A command with its options. The seed is 0 outside `gen`.
#[derive(Debug, Drop)]
pub struct Request {
    pub workers: u8,
    pub explain: bool,
    pub verb: Verb,
    pub selectors: Selectors,
    pub seed: u32,
}
