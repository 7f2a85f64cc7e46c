//! Calls, and what goes on with their results (JVMS 2.6, 2.10, 5.5, 6.5): the state of the machine in memory,
//! exceptions that leave frame after frame, methods that begin and go on, and the results of lambdas, which are cast,
//! opened and boxed on their way.
//!
//! It stands on `jvm_state`. Each call equals its case of the machine's definition.
#![tactic(auto)]

mod adapting;
mod boxes;
mod casts;
mod exceptions;
mod initialised;
mod letters;
mod machine;
mod messages;
mod onward;
mod settling;
mod starting;
mod statics;
mod unwinding;

pub use casts::converted;
pub use initialised::Initialised;
pub use machine::Machine;
pub use onward::Onward;
pub use settling::settle;
pub use starting::{go_on, start};
pub use statics::Statics;
pub use unwinding::{raise, unwind};
