//! The values that a build works on: bytes, texts, paths and digests, trees of files, and the results
//! of tasks. It stands on no other crate of this repository. The layers above see each of these types
//! as the list or the value that it holds, and take from here the definitions of a path and a tree.
#![tactic(auto)]

mod bytes;
mod digest;
mod fault;
mod lists;
mod order;
mod path;
mod sequence;
mod text;
mod tree;
mod value;

pub use bytes::Bytes;
pub use digest::Digest;
pub use fault::CopyFault;
pub use lists::{FileDigests, Lines, Paths, Vars};
pub use path::{Path, PathFault};
pub use sequence::{Sequence, TryCopy};
pub use text::{Text, TextFault};
pub use tree::{Tree, TreeFault};
pub use value::{PathRef, Value, ValueType, Values};
