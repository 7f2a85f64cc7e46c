//! Asks the heap of the machine, and the instructions that stay in their frame, what small tables say, and prints each
//! answer: what must be printed was written by hand from JVMS 6.5 and the costs of objects, and stands in `stdout`. It
//! stands on the crates that it asks, so that these need no tests of their own; nothing stands on it.
#![tactic(auto)]

mod frames;
mod heaps;
mod numbers;

use std::io;

fn main(rt: HostRuntime) -> io::Result<()> {
    heaps::print_all(&rt)?;
    numbers::print_all(&rt)?;
    frames::print_all(&rt)
}
