//! What the code of a method says by itself: its Code attribute, what descriptors say of kinds, what instructions name,
//! where control goes, and the call sites of bootstrap methods that are known. It stands on `class_model` and
//! `jvm_tables`. The layers above rest on its public calls, each of which equals a definition over the class's data.
#![tactic(auto)]

mod bootstraps;
mod code;
mod constants;
mod control;
mod descriptors;
mod flags;
mod lambdas;
mod laws;
mod named;
mod operand;
mod row;
mod site;
mod sites;
mod types;
mod wants;

pub use bootstraps::{arguments_if_known, bootstrap_at, bootstraps_of, known_arguments};
pub use code::{CodeView, code_of, stack_map};
pub use constants::{
    Use, constant_of, descriptor_at, dimensions_of, name_at, number_of, told_by_row,
};
pub use control::{covers, target};
pub use descriptors::{
    CallKinds, Descriptors, Told, descriptors_of, told_at, told_of_named, told_of_type,
};
pub use flags::{Flags, flag_of};
pub use laws::{code_is_where_told_of, sound_sites_are_written};
pub use named::{HandleView, MemberView, NamedView, handle_at, method_type_at, named_at};
pub use operand::local_of;
pub use row::{CatchView, OperandView, catch_of, operand_of};
pub use site::{ConcatenationView, LambdaView, SiteView, written_site};
pub use sites::{SiteKinds, has_unknown_site};
pub use types::{Returned, has_float, kind, kind_of, read_kinds, returned_of};
pub use wants::unknown_sites;
