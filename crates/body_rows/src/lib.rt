//! Small bodies, written by hand, and how each of them ends by the machine's definition. It is computed when the crate is
//! proved. Nothing stands on it.
#![tactic(auto)]

mod rows;

pub use rows::bodies_end_as_stated;
