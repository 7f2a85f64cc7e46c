//! Standard input and standard output.

ghost use Rattle.std.specs.Prelude.{◌≡◌, ◌<◌, ◌≤◌, [], length, None, IfOk, IsOk, IsErrOf};
ghost use Rattle.std.specs.Io.KnownBytes.{ReadConsumes, WriteAppends};
ghost use Rattle.io_traits.specs.Causes.{HasCause};
ghost use Rattle.io_real.specs.Counts.{settled, kept_now, no_faults};

use crate::counts::FaultCount;
use crate::kinds::{fault_of, is_passing};
use io_traits::{IoFault, Sink, Source};
use std::io::{Read, Write};

/// The bytes of a reader, as standard input. It tells nothing of them.
#[derive(Drop)]
pub struct RealSource<I: Read + Drop> {
    input: I,
    count: FaultCount,
}

impl<I: Read + Drop> RealSource<I> {
    pub fn over(input: I) -> RealSource<I>
        ensures { result ≡ record { input = input; count = no_faults } }
    {
        RealSource {
            input,
            count: FaultCount::new(),
        }
    }
}

impl<I: Read + Drop> Source for RealSource<I> {
    ghost left = { λ source. None };

    ghost faults = { λ source. source.count.now };

    ghost plan = { λ source. [] };

    fn read(&mut self, into: &mut [u8]) -> Result<usize, IoFault>
        ensures within { IfOk result (λ n. n ≤ length into.old) }
        ensures bytes { ReadConsumes
            (I.remaining self.old.input) (I.remaining self.new.input) result into.new }
        ensures count { self.new.count ≡ settled result self.old.count }
        ensures cause { HasCause self.old.count.now self.new.count.now result }
    {
        let answer = read_once(&mut self.input, into);
        self.count.settle(answer)
    }
}

// Tries again where a signal interrupts the call, and where no byte is there yet.
fn read_once<I: Read>(input: &mut I, into: &mut [u8]) -> Result<usize, IoFault>
    ensures within { IfOk result (λ n. n ≤ length into.old) }
    ensures bytes { ReadConsumes (I.remaining input.old) (I.remaining input.new) result into.new }
{
    'tries: for _ in 0..u64::MAX {
        match input.read(into) {
            Ok(n) => return Ok(n),
            Err(e) if is_passing(&e) => {}
            Err(e) => return Err(fault_of(e)),
        }
    }
    Err(IoFault::Failed)
}

/// A writer that takes bytes, as standard output. It tells nothing of them.
#[derive(Drop)]
pub struct RealSink<O: Write + Drop> {
    output: O,
    count: FaultCount,
}

impl<O: Write + Drop> RealSink<O> {
    pub fn over(output: O) -> RealSink<O>
        ensures { result ≡ record { output = output; count = no_faults } }
    {
        RealSink {
            output,
            count: FaultCount::new(),
        }
    }
}

impl<O: Write + Drop> Sink for RealSink<O> {
    ghost got = { λ sink. None };

    ghost faults = { λ sink. sink.count.now };

    ghost kept = { λ sink. (None, sink.count.kept) };

    ghost plan = { λ sink. [] };

    fn begin(&mut self) -> Result<(), IoFault>
        ensures done { IsOk result }
        ensures state { self.new ≡ record self.old { count = kept_now self.old.count } }
    {
        self.count.keep();
        Ok(())
    }

    fn faults(&self) -> u64
        ensures { result ≡ self.now.count.now }
    {
        self.count.now
    }

    fn write(&mut self, bytes: &[u8]) -> Result<usize, IoFault>
        ensures within { IfOk result (λ n. n ≤ length bytes.now) }
        ensures some { IfOk result (λ n. 0 < length bytes.now → 0 < n) }
        ensures never_memory { ¬ IsErrOf result IoFault.Memory }
        ensures bytes { WriteAppends
            (O.contents self.old.output) (O.contents self.new.output) result bytes.now }
        ensures count { self.new.count ≡ settled result self.old.count }
        ensures cause { HasCause self.old.count.now self.new.count.now result }
    {
        let answer = write_once(&mut self.output, bytes);
        self.count.settle(answer)
    }
}

// Tries again where a signal interrupts the call, and where the writer takes nothing yet. A write that takes nothing of a piece is a failure, and so is
// each other error of the writer, want of memory too.
fn write_once<O: Write>(output: &mut O, bytes: &[u8]) -> Result<usize, IoFault>
    ensures within { IfOk result (λ n. n ≤ length bytes.now) }
    ensures some { IfOk result (λ n. 0 < length bytes.now → 0 < n) }
    ensures never_memory { ¬ IsErrOf result IoFault.Memory }
    ensures bytes { WriteAppends (O.contents output.old) (O.contents output.new) result bytes.now }
{
    if bytes.is_empty() {
        return Ok(0);
    }
    'tries: for _ in 0..u64::MAX {
        match output.write(bytes) {
            Ok(0) => return Err(IoFault::Failed),
            Ok(n) => return Ok(n),
            Err(e) if is_passing(&e) => {}
            Err(_) => return Err(IoFault::Failed),
        }
    }
    Err(IoFault::Failed)
}
