//! What a task body does, said once for the whole instruction set (JVMS 2.5, 5 and 6): the state of the machine, its step,
//! and the run of a body.
//!
//! A step is a plan that asks lookups of a program, so that what it reads of the program is told by its questions alone.
//! It stands on `jvm_heap`, `native_model`, and the definitions of `class_code` and `class_index`.
#![tactic(auto)]

mod action;
mod laws;
mod outcome;

pub use action::{Action, Plain, Rearrangement, Test};
pub use laws::{runs_go_no_further, runs_that_ask_alike_are_equal};
pub use outcome::Outcome;
