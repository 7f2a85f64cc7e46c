//! What natives do, said once: the world in which a body runs, and for each row of the table of natives its answer.
//!
//! It stands on `jvm_heap`, whose objects natives read and make, on the table of natives and on call sites as data. The
//! machine's definition stands above it, and so does the code of natives, which gives exactly these answers over the
//! `World` that is kept here.
#![tactic(auto)]

mod arrays;
mod budget;
mod dest;
mod fault;
mod laws;
mod lists;
mod log;
mod making;
mod naming;
mod native_end;
mod objects;
mod outside;
mod place;
mod progress;
mod seen;
mod slots;
mod surround;
mod throw;
mod world;

pub use budget::Budget;
pub use dest::Dest;
pub use fault::StepFault;
pub use laws::natives_take_what_is_stated;
pub use log::Log;
pub use naming::Naming;
pub use native_end::{Handed, NativeEnd};
pub use place::Place;
pub use progress::{Last, NativeFrame, Progress, is_true};
pub use surround::Surround;
pub use throw::{Denial, Throw};
pub use world::World;
