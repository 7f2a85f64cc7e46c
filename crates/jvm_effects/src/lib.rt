//! What the instructions do that leave their frame or read the heap (JVMS 6.5): a function for each, by what the
//! instruction names.
//!
//! It stands on `jvm_state`. The layer above tells an instruction's function by its opcode, and goes on as the effect
//! says.
#![tactic(auto)]

mod arguments;
mod arrays;
mod calls;
mod constants;
mod effect;
mod fields;
mod making;
mod narrowing;
mod objects;
mod operands;
mod returns;
mod sites;

pub use arrays::array_length;
pub use calls::{called_specially, called_statically, called_virtually};
pub use constants::constant_pushed;
pub use effect::Effect;
pub use fields::{field_read, field_written, static_read, static_written};
pub use making::number_array_made;
pub use objects::{checked_cast, exception_thrown, instance_tested, monitor, object_newly};
pub use returns::returned;
pub use sites::{concatenated, lambda_created};
