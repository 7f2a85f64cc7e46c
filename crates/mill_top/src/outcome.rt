//! What the run of a task ends with.

ghost use Rattle.std.specs.Prelude.{◌≡◌, [], FitsSigned};
ghost use Rattle.std.specs.Int.{w32};
ghost use Rattle.mill_top.specs.declared.outcome.Outcome.TheVariants.{Returns};
ghost use Rattle.mill_top.specs.Scratch.{result_of, value_of};

use crate::task_file::Body;
use std::alloc::Global;
use tree_value::Lines;

/// The end of a task's run.
#[derive(Debug, Drop)]
pub enum Outcome {
    /// The value and the log.
    Returns(i32, Lines),
}

impl Outcome {
    /// The value that was returned.
    pub fn value(&self) -> i32
        ensures value { result ≡ value_of self.now }
        ensures fits { FitsSigned w32 result }
    {
        let Outcome::Returns(value, _) = self;
        *value
    }
}

/// Runs a body, given the value of its input, if it has one.
pub fn run(alloc: Global, body: Body, given: Option<i32>) -> Outcome
    ensures { result ≡ Outcome.Returns (result_of body given) [] }
{
    Outcome::Returns(body.result(given), Lines::new(alloc))
}
