//! What errors of the system are.

ghost use Rattle.std.specs.Prelude.{◌≡◌};
ghost use Rattle.std.specs.IoError.{error_kind};
ghost use Rattle.io_real.specs.Kinds.{is_absence, is_passing, fault_of};

use io_traits::IoFault;
use std::io;
use std::io::ErrorKind;

/// Want of memory, or a failure.
pub(crate) fn fault_of(error: io::Error) -> IoFault
    ensures { result ≡ fault_of (error_kind error) }
{
    match error.kind() {
        ErrorKind::OutOfMemory => IoFault::Memory,
        _ => IoFault::Failed,
    }
}

/// Whether an error says that nothing stands at a place: no such name, a file in place of a folder on the way, or
/// links that lead in a circle.
pub(crate) fn is_absence(error: &io::Error) -> bool
    ensures { result ≡ is_absence (error_kind error.now) }
{
    matches!(
        error.kind(),
        ErrorKind::NotFound | ErrorKind::NotADirectory | ErrorKind::FilesystemLoop
    )
}

/// Whether the call is to be tried again: a signal interrupted it, or the other end is not ready.
pub(crate) fn is_passing(error: &io::Error) -> bool
    ensures { result ≡ is_passing (error_kind error.now) }
{
    matches!(error.kind(), ErrorKind::Interrupted | ErrorKind::WouldBlock)
}
