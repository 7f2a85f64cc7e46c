//! The words of a command: which word is bad and why, or what they ask for, and the tasks that selectors select and
//! choose. It stands on the texts of `tree_value` and on the names and rows of tasks in `task_model`. The layer above uses
//! that `read_words` tells exactly the first bad word, and else gives the one request, and that `select_tasks` and
//! `choose_tasks` give exactly the named tasks that match.
#![tactic(auto)]

mod choose;
mod fault;
mod matching;
mod numbers;
mod options;
mod read;
mod request;
mod segments;
mod select;
mod select_fault;
mod spots;
mod verbs;
mod words;

pub use choose::{Chosen, choose_tasks};
pub use fault::{Why, WordFault};
pub use read::read_words;
pub use request::{Request, Segment, Segments, Selector, Selectors, Verb, WordPlace};
pub use select::select_tasks;
pub use select_fault::SelectFault;
