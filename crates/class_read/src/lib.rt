//! Reading class files (JVMS 4), with the first bad place where bytes are none, and loading those of a build. It stands
//! on `class_model` for the data, on `class_text` for the definitions that its contracts cite, on `const_pool` for the
//! pool and for what a refusal says, and on `class_verify` for programs. The layers above rest on the contracts of `read_class`, which gives exactly
//! the class whose text the bytes are, and of `load_set`, which gives exactly the verified program of the class files.
#![tactic(auto)]

mod annotations;
mod attributes;
mod class_file;
mod frames;
mod item_lists;
mod limits;
mod load_fault;
mod loading;
mod members;
mod names;
mod numbers;
mod stands;
mod targets;

pub use class_file::read_class;
pub use const_pool::ClassFault;
pub use limits::Limit;
pub use load_fault::LoadFault;
pub use loading::{is_class_path, load_set};
