//! The instructions of the machine that stay in their frame (JVMS 6.5). Each call is exactly its case of the machine's
//! definition, and takes no memory.
#![tactic(auto)]

mod acting;
mod branches;
mod frame_end;
mod locals;
mod numbers;
mod rearranging;

pub use acting::act;
pub use branches::{branch_if_int, branch_if_ints, branch_if_null, branch_if_references};
pub use frame_end::FrameEnd;
pub use locals::{increment, load, store};
pub use numbers::{ArithEnd, plain};
pub use rearranging::rearrange;
