//! A source and a sink in memory, whose calls fail as planned.

ghost use Rattle.std.specs.Prelude.{◌≡◌, ◌≢◌, ◌+◌, ◌-◌, ◌<◌, ◌≤◌, [], ◌++◌, length, take, drop, min, map, Some, IfOk, IfErr, OnOk, OnErr, IsErrOf, IsOk, IsErr, MatchOption, IsSome};
ghost use Rattle.io_traits.specs.Causes.{last_count, HasCause};
ghost use Rattle.io_traits.specs.Planned.{planned, leaving_old, next_leaves, after_call, sink_faults, wanted};

use crate::plans::CallPlan;
use crate::{IoFault, Leaves, Sink, Source};
use std::alloc::Global;
use tree_value::Bytes;

/// A source that tells what it has left. Its reads are numbered from 1, and those with the numbers of a list fail.
#[derive(Debug, Drop)]
pub struct MemSource {
    bytes: Bytes,
    at: usize,
    plan: CallPlan,
    ghost within: { at ≤ length bytes },
}

impl MemSource {
    /// A source of these bytes. `failing` has the numbers of the reads that are to fail, from 1 and each once.
    /// The one refusal is `Memory`.
    pub fn new(alloc: Global, bytes: Bytes, failing: Vec<u64>) -> Result<MemSource, IoFault>
        ensures left { IfOk result (λ source. drop source.at source.bytes ≡ bytes) }
        ensures plan { IfOk result (λ source. source.plan ≡ planned (leaving_old failing.items)) }
        ensures only_memory { IfErr result (λ fault. fault ≡ IoFault.Memory) }
    {
        Ok(MemSource {
            bytes,
            at: 0,
            plan: CallPlan::of_numbers(alloc, &failing)?,
        })
    }
}

impl Source for MemSource {
    ghost left = { λ source. Some (drop source.at source.bytes) };

    ghost faults = { λ source. source.plan.faults };

    ghost plan = { λ source. source.plan.failing };

    fn read(&mut self, into: &mut [u8]) -> Result<usize, IoFault>
        ensures full { IfOk result (λ n.
            n ≡ min (length into.old) (length self.old.bytes - self.old.at)) }
        ensures given { IfOk result (λ n.
            drop self.old.at self.old.bytes ≡ take n into.new ++ drop self.new.at self.new.bytes) }
        ensures err { OnErr result (
            drop self.new.at self.new.bytes ≡ drop self.old.at self.old.bytes) }
        ensures plan { self.new.plan ≡ after_call self.old.plan }
        ensures planned { MatchOption (next_leaves self.old.plan)
            (IsOk result) (λ _. IsErrOf result IoFault.Failed) }
        ensures cause { HasCause self.old.plan.faults self.new.plan.faults result }
    {
        if self.plan.count().is_some() {
            return Err(IoFault::Failed);
        }
        let (_, left) = self.bytes.as_slice().split_at(self.at);
        let n = into.len().min(left.len());
        into[..n].copy_from_slice(&left[..n]);
        self.at += n;
        Ok(n)
    }
}

/// A sink that tells what it has taken. Its writes are numbered from 1, and those with the numbers of a list fail;
/// a write that wants memory and has none fails too.
#[derive(Debug, Drop)]
pub struct MemSink {
    bytes: Vec<u8>,
    plan: CallPlan,
    wants: u64,
    kept: (Bytes, u64),
}

impl MemSink {
    /// A sink that has taken these bytes. `failing` has the numbers of the writes that are to fail, from 1 and
    /// each once. The one refusal is `Memory`.
    pub fn new(alloc: Global, bytes: Bytes, failing: Vec<u64>) -> Result<MemSink, IoFault>
        ensures bytes { IfOk result (λ sink. sink.bytes.items ≡ bytes) }
        ensures plan { IfOk result (λ sink. sink.plan ≡ planned (leaving_old failing.items)) }
        ensures wants { IfOk result (λ sink. sink.wants ≡ 0) }
        ensures kept { IfOk result (λ sink. sink.kept ≡ (bytes, 0)) }
        ensures only_memory { IfErr result (λ fault. fault ≡ IoFault.Memory) }
    {
        let kept = (Bytes::from_vec(bytes.as_slice().to_vec(alloc)?), 0);
        Ok(MemSink {
            bytes: bytes.into_vec(),
            plan: CallPlan::of_numbers(alloc, &failing)?,
            wants: 0,
            kept,
        })
    }

    /// What the sink has taken.
    pub fn as_slice(&self) -> &[u8]
        ensures { result.now ≡ self.now.bytes.items }
    {
        self.bytes.as_slice()
    }
}

impl Sink for MemSink {
    ghost got = { λ sink. Some sink.bytes.items };

    ghost faults = { λ sink. sink_faults sink.plan sink.wants };

    ghost kept = { λ sink. (Some sink.kept.0, sink.kept.1) };

    ghost plan = { λ sink. sink.plan.failing };

    fn begin(&mut self) -> Result<(), IoFault>
        ensures ok { OnOk result (self.new ≡ record self.old {
          kept = (self.old.bytes.items, sink_faults self.old.plan self.old.wants);
        }) }
        ensures err { OnErr result (self.new ≡ self.old) }
        ensures only_memory { IfErr result (λ fault. fault ≡ IoFault.Memory) }
    {
        self.kept = (Bytes::from_vec(self.bytes.clone()?), self.faults());
        Ok(())
    }

    fn faults(&self) -> u64
        ensures count { result ≡ sink_faults self.now.plan self.now.wants }
        ensures quiet { self.now.plan.failing ≡ [] → result ≡ self.now.wants }
    {
        self.plan.faults().saturating_add(self.wants)
    }

    fn write(&mut self, bytes: &[u8]) -> Result<usize, IoFault>
        ensures whole { IfOk result (λ n. n ≡ length bytes.now) }
        ensures ok { OnOk result (self.new.bytes.items ≡ self.old.bytes.items ++ bytes.now) }
        ensures err { OnErr result (self.new.bytes.items ≡ self.old.bytes.items) }
        ensures only_failed { IfErr result (λ fault. fault ≡ IoFault.Failed) }
        ensures plan { self.new.plan ≡ after_call self.old.plan }
        ensures planned { IsSome (next_leaves self.old.plan) → IsErr result }
        ensures wants { self.new.wants ≡ wanted (next_leaves self.old.plan) result self.old.wants }
        ensures cause { HasCause
            (sink_faults self.old.plan self.old.wants) (sink_faults self.new.plan self.new.wants) result }
        ensures kept { self.new.kept ≡ self.old.kept }
    {
        if self.plan.count().is_some() {
            return Err(IoFault::Failed);
        }
        if self.bytes.extend_from_slice(bytes).is_err() {
            self.wants = self.wants.saturating_add(1);
            return Err(IoFault::Failed);
        }
        Ok(bytes.len())
    }
}
