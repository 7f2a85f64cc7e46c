//! The store of results `out`: the entries of tasks, their logs, and the files of their generations. It stands
//! on the trait of a store and on the texts of entries. The layer above uses that each call does exactly what
//! it says to a store that tells its content, that a fault comes only where the store counted one, that whatever the
//! results stood for they stand for after each call, refused or not, and that the opening tells exactly the entries
//! that were readable, with the names of their generations.
#![tactic(auto)]

mod fault;
mod finished;
mod names;
mod numbers;
mod opening;
mod putting;
mod reading;
mod removing;
mod store;

pub use fault::OutFault;
pub use finished::{Finished, is_dest};
pub use names::{MAX_PART_LEN, MAX_TASK_LEN, is_task};
pub use store::Out;
