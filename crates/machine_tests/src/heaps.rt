//! Objects in a fresh heap.

use jvm_heap::{ArrayBase, ArrayKind, Heap, HeapFault, Units};
use jvm_tables::ElementKind;
use std::alloc::Global;
use std::io;

/// Lengths of arrays of ints. An array costs one cell more than its length, of 4,194,304.
const LENGTHS: [u32; 4] = [4_194_304, 4_194_303, 3, 0];

/// Pairs of ints that are boxed one after another.
const BOXED_INTS: [(i32, i32); 4] = [(127, 127), (-128, -128), (128, 128), (127, 126)];

const BOXED_LONGS: [(i64, i64); 2] = [(127, 127), (-129, -129)];

/// Pairs of string constants.
const CONSTANTS: [(&str, &str); 2] = [("abc", "abc"), ("abc", "abd")];

fn print_fault(rt: &HostRuntime, fault: HeapFault) -> io::Result<()> {
    match fault {
        HeapFault::Full => println!(rt; "full"),
        HeapFault::Memory => println!(rt; "out of memory"),
    }
}

fn print_array(rt: &HostRuntime, length: u32) -> io::Result<()> {
    let mut heap = Heap::new(rt.alloc());
    let kind = ArrayKind {
        base: ArrayBase::Primitive(ElementKind::Int),
        depth: 1,
    };
    match heap.alloc_array(kind, length) {
        Ok(number) => {
            let cells = heap.cells();
            println!(rt; "array of {length}: object {number}, {cells} cells")
        }
        Err(fault) => print_fault(rt, fault),
    }
}

fn print_pair(rt: &HostRuntime, pair: Result<(u32, u32), HeapFault>) -> io::Result<()> {
    match pair {
        Ok((first, second)) => println!(rt; "objects {first} and {second}"),
        Err(fault) => print_fault(rt, fault),
    }
}

fn boxed_ints(alloc: Global, pair: (i32, i32)) -> Result<(u32, u32), HeapFault> {
    let mut heap = Heap::new(alloc);
    let first = heap.box_of_int(pair.0)?;
    let second = heap.box_of_int(pair.1)?;
    Ok((first, second))
}

fn boxed_longs(alloc: Global, pair: (i64, i64)) -> Result<(u32, u32), HeapFault> {
    let mut heap = Heap::new(alloc);
    let first = heap.box_of_long(pair.0)?;
    let second = heap.box_of_long(pair.1)?;
    Ok((first, second))
}

fn units_of(alloc: Global, text: &str) -> Result<Units, HeapFault> {
    let mut units: Vec<u16> = Vec::new(alloc);
    for byte in text.as_bytes() {
        units.push(u16::from(*byte))?;
    }
    Ok(Units::from_vec(units))
}

fn constants(alloc: Global, pair: (&str, &str)) -> Result<(u32, u32), HeapFault> {
    let mut heap = Heap::new(alloc);
    let first = heap.constant_text(&units_of(alloc, pair.0)?)?;
    let second = heap.constant_text(&units_of(alloc, pair.1)?)?;
    Ok((first, second))
}

pub fn print_all(rt: &HostRuntime) -> io::Result<()> {
    for length in LENGTHS {
        print_array(rt, length)?;
    }
    for pair in BOXED_INTS {
        print_pair(rt, boxed_ints(rt.alloc(), pair))?;
    }
    for pair in BOXED_LONGS {
        print_pair(rt, boxed_longs(rt.alloc(), pair))?;
    }
    for pair in CONSTANTS {
        print_pair(rt, constants(rt.alloc(), pair))?;
    }
    Ok(())
}
