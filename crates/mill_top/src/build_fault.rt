//! Why a build is refused.

ghost use Rattle.std.specs.Prelude.{◌≡◌};
ghost use Rattle.mill_top.specs.BuildFaults.{wants_memory};
ghost use Rattle.mill_top.specs.declared.build_fault.BuildFault.TheVariants.{Memory};

use class_read::LoadFault;
use std::alloc::{AllocError, AllocFailed};
use tree_value::{CopyFault, Path};

/// Why class files have no task graph.
#[derive(Debug, Drop)]
pub enum BuildFault {
    /// The class file at the path has more bytes than any that is read.
    TooLong(Path),
    /// The class files are no program.
    Load(LoadFault),
    /// The class file at the path is none that is read so far, or isn't the one of its class.
    NotBuilt(Path),
    /// Two files have the task.
    DuplicateTask(u8),
    /// No file has the input of the task.
    UnknownInput { input: u8, task: u8 },
    /// Inputs lead from the task back to it.
    Cycle(u8),
    /// Memory was wanted and not there.
    Memory,
}

impl BuildFault {
    /// Whether memory was wanted and not there.
    pub fn wants_memory(&self) -> bool
        ensures { result ≡ wants_memory self.now }
    {
        matches!(
            self,
            BuildFault::Memory | BuildFault::Load(LoadFault::Memory)
        )
    }
}

impl From<AllocError> for BuildFault {
    ghost from_gives = { λ _ fault. fault ≡ Memory };

    fn from(_error: AllocError) -> BuildFault {
        BuildFault::Memory
    }
}

impl<T: Drop> From<AllocFailed<T>> for BuildFault {
    ghost from_gives = { λ _ fault. fault ≡ Memory };

    fn from(_error: AllocFailed<T>) -> BuildFault {
        BuildFault::Memory
    }
}

impl From<CopyFault> for BuildFault {
    ghost from_gives = { λ _ fault. fault ≡ Memory };

    fn from(_fault: CopyFault) -> BuildFault {
        BuildFault::Memory
    }
}
