//! The verification of code (JVMS 4.10.1) over kinds: int, long, reference and top. It stands on `class_code`,
//! `class_index`, `class_model` and `jvm_tables`. The layers above rest on `ProgramOk`, whose classes all fit.
#![tactic(auto)]

mod body;
mod cause;
mod constant_tables;
mod effects;
mod fault;
mod floats;
mod frames;
mod kinds;
mod laws;
mod local_types;
mod locals;
mod places;
mod program_ok;
mod shape;
mod shared_kinds;
mod stack;
mod sweep;
mod verification;
mod walk;

pub use cause::Cause;
pub use constant_tables::{ConstantTables, tables_of};
pub use fault::VerifyFault;
pub use floats::uses_float;
pub use frames::{Limits, Written};
pub use kinds::Kind;
pub use laws::{
    code_that_fits_begins, code_that_fits_is_safe, code_with_shapes_fits, constants_name_members,
    instructions_leave_by_parts, shapes_are_formed, shapes_that_fit_leave_so,
};
pub use locals::Locals;
pub use program_ok::{CheckFault, ProgramOk};
pub use shape::Shape;
pub use stack::Stack;
pub use verification::verify;
