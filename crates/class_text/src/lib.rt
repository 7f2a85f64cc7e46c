//! The definitions of the class grammar above `class_model`: how a pool and a class are read from bytes, and which place of
//! bytes is the first bad one; and the tags, names and limits that the reader and the writer share. It stands on `class_model`, whose spelling and shapes it cites. The readers and writers
//! above have their contracts in these definitions, and rest on the laws below.
#![tactic(auto)]

mod descriptors;
mod files;
mod format;
mod laws;

pub use descriptors::descriptor_laws;
pub use files::{
    class_continued_law, class_fault_law, class_laws, class_place_law, content_place_law,
};
pub use format::{
    APPEND_TAG, BOOTSTRAP_METHODS_NAME, CODE_NAME, CONSTANT_VALUE_NAME, FULL_TAG, MOST_CODE,
    NEWEST_MAJOR, OBJECT_NAME, OBJECT_TAG, OLDEST_MAJOR, RESERVED_TAG, SAME_EXTENDED_TAG,
    SAME_LOCALS_1_EXTENDED_TAG, SAME_LOCALS_1_TAG, STACK_MAP_TABLE_NAME, UNINITIALIZED_TAG,
    VISIBLE_ANNOTATIONS_NAME, format_law,
};
pub use laws::{continued_law, place_law, pool_fault_law, pool_laws, target_law};
