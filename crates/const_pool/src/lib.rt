//! The constant pool (JVMS 4.4) both ways: read from the bytes of a class file, with the first bad place where they are
//! no pool, and written. It stands on `class_model` for the pool and on `class_text` for the definitions that its
//! contracts cite. The reader and the writer of class files use `read_pool` and `write_pool`.
#![tactic(auto)]

mod class_fault;
mod judged_pool;
mod member_keys;
mod numbers;
mod pool_reader;
mod pool_writer;
mod room;
mod tags;
mod targets;
mod text_forms;
mod text_numbers;
mod write_fault;

pub use class_fault::ClassFault;
pub use judged_pool::JudgedPool;
pub use member_keys::MemberKeys;
pub use numbers::{offset_of, u2_in, u4_in, u8_in};
pub use pool_reader::read_pool;
pub use pool_writer::{put_u2, put_u4, write_pool};
pub use room::items_with_room;
pub use write_fault::{AttributeId, AttributePart, Holder, MemberPart, Part, WriteFault};
