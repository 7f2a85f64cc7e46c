//! Files as wholes, read and written through readers and writers.

ghost use Rattle.std.specs.Prelude.{◌≡◌, ◌≤◌, length, IfOk, IfSome, OnOk};
ghost use Rattle.std.specs.Io.KnownBytes.{Appends};

use crate::folders::MAX_FILE_LEN;
use crate::kinds::fault_of;
use io_traits::IoFault;
use std::alloc::Global;
use std::io::{Read, Write};
use tree_value::Bytes;

/// All bytes that the reader has left. More than [`MAX_FILE_LEN`] are a failure.
pub(crate) fn read_whole<I: Read + Drop>(alloc: Global, input: I) -> Result<Bytes, IoFault>
    ensures all { IfOk result (λ bytes. IfSome (I.remaining input) (λ left. bytes ≡ left)) }
    ensures within { IfOk result (λ bytes. length bytes ≤ MAX_FILE_LEN) }
{
    let mut items = Vec::new(alloc);
    match input.take(MAX_FILE_LEN + 1).read_to_end(&mut items) {
        Ok(_) if items.len() as u64 <= MAX_FILE_LEN => Ok(Bytes::from_vec(items)),
        Ok(_) => Err(IoFault::Failed),
        Err(e) => Err(fault_of(e)),
    }
}

/// Writes all the bytes.
pub(crate) fn write_whole<O: Write>(output: &mut O, bytes: &[u8]) -> Result<(), IoFault>
    ensures { OnOk result (Appends (O.contents output.old) (O.contents output.new) bytes.now) }
{
    output.write_all(bytes).map_err(fault_of)
}
