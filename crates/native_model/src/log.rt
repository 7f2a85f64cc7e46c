//! The log of a body.

ghost use Rattle.std.specs.Prelude.{◌≡◌, ◌+◌, ◌≤◌, ◌++◌, ◌∷◌, [], nat_le, if◌then◌else◌, IfOk, OnOk, OnErr};
ghost use Rattle.native_model.specs.Outside.{log_bytes, most_log_bytes};

use std::alloc::{AllocError, Global};
use std::marker::Model;
use tree_value::{Lines, Text};

/// The most bytes of all lines, each with its line feed.
const MOST_BYTES: u64 = 1_048_576;

/// Lines as they were put, and how many bytes they are, each with its line feed.
#[derive(Drop)]
pub struct Log {
    lines: Vec<Text>,
    bytes: u64,
}

impl Model for Log {
    ghost use Rattle.std.specs.Prelude.{◌≡◌, ◌≤◌, ℕ, List};
    ghost use Rattle.native_model.specs.Outside.{log_bytes, most_log_bytes};

    ghost Value = { List (List ℕ) };

    ghost view = { λ log. log.lines.items };

    ghost invariant = { λ log. (log.bytes ≡ log_bytes log.lines.items)
        × (log.bytes ≤ most_log_bytes) };
}

impl Log {
    pub fn new(alloc: Global) -> Log
        ensures { result ≡ [] }
    {
        Log {
            lines: Vec::new(alloc),
            bytes: 0,
        }
    }

    pub fn lines(&self) -> &[Text]
        ensures { result.now ≡ self.now }
    {
        self.lines.as_slice()
    }

    pub fn into_lines(self) -> Lines
        ensures { result ≡ self }
    {
        let Log { lines, bytes: _ } = self;
        Lines::from_vec(lines)
    }

    /// Whether the bytes suffice for a line more.
    #[tactic(auto, using(crate::proofs::Files::line_weighs))]
    fn has_room(&self, line: &Text) -> bool
        ensures { result ≡ nat_le (log_bytes (self.now ++ line.now ∷ [])) most_log_bytes }
    {
        (line.len() as u64) < MOST_BYTES - self.bytes
    }

    #[tactic(auto, using(crate::proofs::Files::line_weighs))]
    fn push(&mut self, line: Text) -> Result<(), AllocError>
        requires { log_bytes (self.old ++ line ∷ []) ≤ most_log_bytes }
        ensures ok { OnOk result (self.new ≡ self.old ++ line ∷ []) }
        ensures err { OnErr result (self.new ≡ self.old) }
    {
        let more = line.len() as u64 + 1;
        self.lines.push(line)?;
        self.bytes += more;
        Ok(())
    }

    /// Puts a line behind the others. False where the bytes of all lines would pass the limit, and then all stays.
    pub(crate) fn put(&mut self, line: Text) -> Result<bool, AllocError>
        ensures fits { IfOk result (λ is. is ≡ nat_le (log_bytes (self.old ++ line ∷ [])) most_log_bytes) }
        ensures put { IfOk result (λ is. self.new ≡ (if is then self.old ++ line ∷ [] else self.old)) }
        ensures err { OnErr result (self.new ≡ self.old) }
    {
        if !self.has_room(&line) {
            return Ok(false);
        }
        self.push(line)?;
        Ok(true)
    }
}
