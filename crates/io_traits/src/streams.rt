//! The traits of a source of bytes and of a sink for them.

ghost use Rattle.std.specs.Prelude.{◌≡◌, ℕ, ◌<◌, ◌≤◌, List, [], length, take, Option, IfOk, IfSome, OnOk, OnErr, IsErrOf};
ghost use Rattle.io_traits.specs.Causes.{HasCause};
ghost use Rattle.io_traits.specs.Streams.{Got, Gave};
ghost use Rattle.io_traits.specs.Planned.{FailingCalls};

use crate::IoFault;

/// Bytes that come in, as standard input has them.
///
/// A read that is refused answers `Failed` only where the count of faults rose in it, and `Memory` freely.
pub trait Source {
    /// The bytes that are left, where the source tells them.
    ghost left: { Self → Option (List ℕ) };

    /// How many faults there were, which never falls and stands still at the last number of 64 bits.
    ghost faults: { Self → ℕ };

    /// The calls that are to fail, as they were first planned: what no call changes. Where nothing is planned, none.
    ghost plan: { Self → FailingCalls };

    /// Fills the front of the slice with the next bytes and answers how many; 0 for a slice that is not
    /// empty is the end.
    fn read(&mut self, into: &mut [u8]) -> Result<usize, IoFault>
        ensures within { IfOk result (λ n. n ≤ length into.old) }
        ensures ok { IfOk result (λ n. Gave (left self.old) (left self.new) (take n into.new)) }
        ensures end { IfOk result (λ n. 0 < length into.old → n ≡ 0 → IfSome (left self.old) (λ bytes. bytes ≡ [])) }
        ensures err { OnErr result (left self.new ≡ left self.old) }
        ensures cause { HasCause (faults self.old) (faults self.new) result }
        ensures plan { plan self.new ≡ plan self.old };
}

/// Bytes that go out, as standard output takes them.
pub trait Sink {
    /// The bytes that it has taken, where the sink tells them.
    ghost got: { Self → Option (List ℕ) };

    /// How many faults there were, which never falls and stands still at the last number of 64 bits.
    ghost faults: { Self → ℕ };

    /// The bytes and the count as they were at the last `begin`, or when the sink was made.
    ghost kept: { Self → Option (List ℕ) × ℕ };

    /// The calls that are to fail, as they were first planned: what no call changes. Where nothing is planned, none.
    ghost plan: { Self → FailingCalls };

    /// Keeps the present bytes and count; nothing else changes, and its one refusal is `Memory`.
    fn begin(&mut self) -> Result<(), IoFault>
        ensures ok { OnOk result (kept self.new ≡ (got self.old, faults self.old)) }
        ensures err { OnErr result (kept self.new ≡ kept self.old) }
        ensures got { got self.new ≡ got self.old }
        ensures count { faults self.new ≡ faults self.old }
        ensures only_memory { ¬ IsErrOf result IoFault.Failed }
        ensures plan { plan self.new ≡ plan self.old };

    /// The present count of faults.
    fn faults(&self) -> u64
        ensures { result ≡ faults self.now };

    /// Takes a front part of the piece and answers how much, at least 1 of a piece that is not empty.
    /// Its one refusal is `Failed`, after which it has taken nothing.
    fn write(&mut self, bytes: &[u8]) -> Result<usize, IoFault>
        ensures within { IfOk result (λ n. n ≤ length bytes.now) }
        ensures some { IfOk result (λ n. 0 < length bytes.now → 0 < n) }
        ensures ok { IfOk result (λ n. Got (got self.old) (got self.new) (take n bytes.now)) }
        ensures err { OnErr result (got self.new ≡ got self.old) }
        ensures never_memory { ¬ IsErrOf result IoFault.Memory }
        ensures cause { HasCause (faults self.old) (faults self.new) result }
        ensures kept { kept self.new ≡ kept self.old }
        ensures plan { plan self.new ≡ plan self.old };
}
