//! The state of the machine as its code keeps it, and what a program tells the machine of its members (JVMS 2.6, 5.5).
//!
//! It stands on `jvm_resolve`. The layers above are generic over `Members`, keep frames in a `FrameStack`, and say what
//! they do by the views that stand in the specifications here.
#![tactic(auto)]

mod called;
mod frame;
mod frame_stack;
mod members;
mod moves;
mod pending;

pub use called::{Adaptation, Called, NativeCall};
pub use frame::{Frame, InitialisingFrame};
pub use frame_stack::FrameStack;
pub use members::{Handling, Members};
pub use moves::{Ending, Move, Need};
pub use pending::Pending;
