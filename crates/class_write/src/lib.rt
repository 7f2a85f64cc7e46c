//! Writing class files (JVMS chapter 4). It stands on `class_model`, whose shape and spelling of a class its contract
//! cites, and on `const_pool` for the pool and for the names of parts. The layers above use `write_class`: it gives the
//! text of exactly the shaped classes, and names the first part that fails of all others.
#![tactic(auto)]

mod annotations;
mod attributes;
mod contents;
mod frames;
mod header;
mod item_lists;
mod laws;
mod members;

pub use header::write_class;
pub use laws::misfit_law;
