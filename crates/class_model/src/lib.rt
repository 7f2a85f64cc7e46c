//! The data of a class file as JVMS chapter 4 lays it out, without loss; the names that classes and members have;
//! and programs, which are lists of classes with distinct names. It stands on no crate of `mill`. The layers above
//! rest on `Shaped`, which says of a class alone that it has a text, and on `Program`, whose classes are shaped.
#![tactic(auto)]

mod access_flags;
mod annotation;
mod attribute_forms;
mod class_file;
mod class_names;
mod constant_pool;
mod descriptor_text;
mod identifiers;
mod index_targets;
mod modified_utf8;
mod name_text;
mod program_list;
mod stack_map;

pub use access_flags::{
    ACC_ABSTRACT, ACC_INTERFACE, ACC_NATIVE, ACC_PRIVATE, ACC_STATIC, has_flag, is_abstract,
    is_bare, is_interface, is_native, is_private, is_static, most_slots,
};
pub use annotation::{Element, Elements, GREATEST_DEPTH, Note, Notes, Pair, Pairs};
pub use attribute_forms::{
    Attribute, Attributes, Bootstrap, Bootstraps, Handler, Handlers, has_code,
};
pub use class_file::{Class, Indices, MAGIC, Member, Members};
pub use class_names::{is_class_name, is_method_name, is_unqualified};
pub use constant_pool::{Constant, Constants, Pool, Raw};
pub use descriptor_text::{
    TypeForm, field_type_in, is_field_descriptor, is_method_descriptor, is_return_descriptor,
};
pub use identifiers::{CallKind, CallRef, ClassId, MemberId, MemberRef, MethodId, SiteId};
pub use modified_utf8::{is_modified_utf8, unit_in};
pub use name_text::{CopyFault, Name, NameFault};
pub use program_list::{Program, ProgramFault};
pub use stack_map::{FrameType, FrameTypes, StackFrame, StackFrames};
