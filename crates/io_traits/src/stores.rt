//! The trait of a store of files.

ghost use Rattle.std.specs.Prelude.{◌≡◌, ℕ, Option, IfOk, IfSome, OnOk, OnErr, IsErrOf};
ghost use Rattle.io_traits.specs.Causes.{HasCause};
ghost use Rattle.io_traits.specs.Files.{Files, get, names, IsInOrder, put_in, take_out, LeftByPut, LeftByRemove};
ghost use Rattle.io_traits.specs.Planned.{FailingCalls};

use crate::IoFault;
use tree_value::{Bytes, Path};

/// A map from names to bytes, as the folder `out` is one.
///
/// A call that is refused answers `Failed` only where the count of faults rose in it, and `Memory` freely.
pub trait Store {
    /// The files, where the store tells them.
    ghost content: { Self → Option Files };

    /// How many faults there were, which never falls and stands still at the last number of 64 bits.
    ghost faults: { Self → ℕ };

    /// The content and the count as they were at the last `begin`, or when the store was made.
    ghost kept: { Self → Option Files × ℕ };

    /// The calls that are to fail, as they were first planned: what no call changes. Where nothing is planned, none.
    ghost plan: { Self → FailingCalls };

    /// The bytes under the name, or `None`.
    fn get(&mut self, name: &Path) -> Result<Option<Bytes>, IoFault>
        ensures found { IfOk result (λ found. IfSome (content self.old) (λ files. found ≡ get files name.now)) }
        ensures content { content self.new ≡ content self.old }
        ensures cause { HasCause (faults self.old) (faults self.new) result }
        ensures kept { kept self.new ≡ kept self.old }
        ensures plan { plan self.new ≡ plan self.old };

    /// Sets the bytes under the name, and no other name's.
    fn put(&mut self, name: &Path, bytes: &Bytes) -> Result<(), IoFault>
        ensures ok { OnOk result (content self.new ≡ put_in name.now bytes.now (content self.old)) }
        ensures err { OnErr result (LeftByPut name.now bytes.now (content self.old) (content self.new)) }
        ensures cause { HasCause (faults self.old) (faults self.new) result }
        ensures kept { kept self.new ≡ kept self.old }
        ensures plan { plan self.new ≡ plan self.old };

    /// Takes the name away, and no other; `Ok` where it was absent.
    fn remove(&mut self, name: &Path) -> Result<(), IoFault>
        ensures ok { OnOk result (content self.new ≡ take_out name.now (content self.old)) }
        ensures err { OnErr result (LeftByRemove name.now (content self.old) (content self.new)) }
        ensures cause { HasCause (faults self.old) (faults self.new) result }
        ensures kept { kept self.new ≡ kept self.old }
        ensures plan { plan self.new ≡ plan self.old };

    /// All names in byte order, each once.
    fn list(&mut self) -> Result<Vec<Path>, IoFault>
        ensures order { IfOk result (λ listed. IsInOrder listed.items) }
        ensures all { IfOk result (λ listed. IfSome (content self.old) (λ files. listed.items ≡ names files)) }
        ensures content { content self.new ≡ content self.old }
        ensures cause { HasCause (faults self.old) (faults self.new) result }
        ensures kept { kept self.new ≡ kept self.old }
        ensures plan { plan self.new ≡ plan self.old };

    /// Keeps the present content and count; nothing else changes, and its one refusal is `Memory`.
    fn begin(&mut self) -> Result<(), IoFault>
        ensures ok { OnOk result (kept self.new ≡ (content self.old, faults self.old)) }
        ensures err { OnErr result (kept self.new ≡ kept self.old) }
        ensures content { content self.new ≡ content self.old }
        ensures count { faults self.new ≡ faults self.old }
        ensures only_memory { ¬ IsErrOf result IoFault.Failed }
        ensures plan { plan self.new ≡ plan self.old };

    /// The present count of faults.
    fn faults(&self) -> u64
        ensures { result ≡ faults self.now };
}
