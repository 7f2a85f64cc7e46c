//! The devices of the outside, as traits: a store of files, a workspace, a source, a sink and a gate.
//! Each tells what it holds or does not, and counts its faults; a failure is answered only where the count rose.
//! It stands on `tree_value`. The layers above use the clauses of the traits, and `MemStore`, `MemWorkspace`,
//! `MemSource`, `MemSink` and `NoGate` are the devices in memory.
#![tactic(auto)]

mod faults;
mod gates;
mod held;
mod mem_stores;
mod mem_streams;
mod mem_workspaces;
mod plans;
mod stores;
mod streams;
mod workspaces;

pub use faults::IoFault;
pub use gates::{Gate, NoGate, Phase};
pub use held::{Contents, is_in_order};
pub use mem_stores::MemStore;
pub use mem_streams::{MemSink, MemSource};
pub use mem_workspaces::MemWorkspace;
pub use plans::Leaves;
pub use stores::Store;
pub use streams::{Sink, Source};
pub use workspaces::Workspace;
