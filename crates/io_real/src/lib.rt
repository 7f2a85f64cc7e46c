//! The devices of the outside over real files, standard input and standard output. Each counts its faults and tells
//! no content. It stands on `io_traits`, and `main` passes these adapters to the top call, which sees them through
//! the traits alone.
#![tactic(auto)]

mod counts;
mod finds;
mod folders;
mod kinds;
mod listings;
mod locks;
mod names;
mod puts;
mod removals;
mod stores;
mod streams;
mod wholes;
mod workspaces;

pub use folders::{MAX_FILE_LEN, MAX_NAMES};
pub use stores::RealStore;
pub use streams::{RealSink, RealSource};
pub use workspaces::RealWorkspace;
