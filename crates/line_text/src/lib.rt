//! Names, paths and texts in printed lines: what would break a line is escaped. It stands on the names of `class_model`
//! and the paths of `tree_value`. The layers above print with it what a fault, a message or a log names.
#![tactic(auto)]

mod laws;
mod lines;

pub use laws::{one_line_law, plain_law, spelled_law};
pub use lines::{push_name, push_path, push_units};
