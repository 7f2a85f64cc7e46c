//! Natives by the rows of their table: one call that runs any of them.
//!
//! It stands on the crates of natives. A row says which native is meant; those that have no code have no `CodedRow`.
#![tactic(auto)]

mod calling;
mod coded;
mod given;
mod laws;
mod on_more;
mod on_numbers;
mod on_one;
mod on_two;

pub use calling::call_native;
pub use coded::CodedRow;
pub use laws::all_rows_but_one_are_coded;
