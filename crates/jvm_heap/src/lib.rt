//! The heap of the machine: objects by number, what each costs, and the slots of frames (JVMS 2.5.3, 2.6, 2.7). It
//! refuses what would pass the limit of cells. Its definitions leave open what names a class and a lambda site: the
//! code names them by their places in a program, and the layers above define the machine over their names.
#![tactic(auto)]

mod array_kind;
mod changing;
mod content;
mod fault;
mod frame;
mod heap;
mod kept;
mod laws;
mod making;
mod object;
mod operands;
mod slot;
mod slots;
mod units;

pub use array_kind::{ArrayBase, ArrayKind};
pub use content::{Content, PathReference};
pub use fault::HeapFault;
pub use frame::Frame;
pub use heap::Heap;
pub use laws::renaming_passes_by;
pub use object::Object;
pub use operands::Operands;
pub use slot::Slot;
pub use slots::Slots;
pub use units::Units;
