//! The program `mill`: it evaluates a build that is given as Java class files, keeps the results in `out` and reuses
//! them. The top call is `mill_one` of the module `top`, over the traits of `io_traits`; this file makes the devices of
//! `io_real` for it. It stands on `class_read`, which loads builds, with the crates below it, on `tree_value`, `value_text`,
//! `line_text`, `out_entry`, `out_store`, `io_traits` and `io_real`, and on `sha2` and `hex`.
#![tactic(auto)]

mod build_fault;
mod builds;
mod evaluating;
mod fault_lines;
mod graph;
#[cfg(test)]
mod graph_tests;
mod inputs;
mod linked_file;
mod loading;
mod operation;
mod outcome;
mod printing;
mod program;
mod reading;
mod recorded;
#[cfg(test)]
mod refused_tests;
mod replay;
mod replay_steps;
#[cfg(test)]
mod replay_tests;
mod reply;
mod sending;
mod small_file;
#[cfg(test)]
mod store_tests;
mod takes;
mod taking;
mod task_file;
#[cfg(test)]
mod tests;
mod top;
mod words;

use std::process;
use std::process::ExitCode;

fn main(rt: HostRuntime) -> ExitCode {
    ExitCode::from(program::run(&rt, process::id(rt.process())))
}
