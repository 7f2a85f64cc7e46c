//! What stands at a place.

ghost use Rattle.std.specs.Prelude.{◌≡◌};
ghost use Rattle.io_real.specs.Finds.{found_as, found_by};

use crate::kinds::{fault_of, is_absence};
use io_traits::IoFault;
use std::fs::Metadata;
use std::io;

/// What stands at a place.
#[derive(Clone, Copy, Debug, PartialEq, Eq)]
pub enum Found {
    /// A file, with its size in bytes.
    File(u64),
    Folder,
    /// A link, where links are not followed.
    Link,
    /// Nothing, or what is no content, as a device.
    Nothing,
}

fn found_as(metadata: &Metadata) -> Found
    ensures { result ≡ found_as metadata.now }
{
    if metadata.is_dir() {
        Found::Folder
    } else if metadata.is_file() {
        Found::File(metadata.len())
    } else if metadata.is_symlink() {
        Found::Link
    } else {
        Found::Nothing
    }
}

/// What the system's answer says of a place.
pub(crate) fn find_by(answer: io::Result<Metadata>) -> Result<Found, IoFault>
    ensures { result ≡ found_by answer }
{
    match answer {
        Ok(metadata) => Ok(found_as(&metadata)),
        Err(e) if is_absence(&e) => Ok(Found::Nothing),
        Err(e) => Err(fault_of(e)),
    }
}
