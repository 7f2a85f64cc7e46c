//! Which names an adapter leaves out.

ghost use Rattle.std.specs.Prelude.{◌≡◌, ◌↔◌, ◌-◌, length, IsTrue};
ghost use Rattle.tree_value.specs.Paths.{segments};
ghost use Rattle.io_real.specs.Names.{IsOwn, IsPutFolder, IsNoSource, has_dot_folder, is_hidden};

/// The file that a store locks.
pub(crate) const LOCK: &str = ".lock";

// Whether the name is of a file that the store keeps for itself: the lock, and those in the folder in which a put
// writes its bytes first.
pub(crate) fn is_own(name: &[u8]) -> bool
    ensures { IsTrue result ↔ IsOwn name.now }
{
    name == b".lock".as_slice() || name.starts_with(b".put/")
}

// Whether a file in the folder for puts is one that a put wrote.
pub(crate) fn is_of_a_put(entry: &[u8]) -> bool {
    entry == b"file".as_slice()
        || entry
            .iter()
            .all(|byte| byte.is_ascii_digit() || *byte == b'-')
}

// Whether a store leaves out an entry of a folder: the folder for puts in the root.
pub(crate) fn is_put_folder(folder: &[u8], entry: &[u8]) -> bool
    ensures { IsTrue result ↔ IsPutFolder folder.now entry.now }
{
    folder.is_empty() && entry == b".put".as_slice()
}

// Whether a workspace leaves out an entry of a folder that is itself a folder: the one of the results in the root,
// and each whose name begins with a dot.
pub(crate) fn is_no_source(folder: &[u8], entry: &[u8]) -> bool
    ensures { IsTrue result ↔ IsNoSource folder.now entry.now }
{
    folder.is_empty() && entry == b"out".as_slice() || entry.starts_with(b".")
}

// Whether a workspace leaves the file out, since it leaves out a folder on the way to it.
pub(crate) fn is_hidden(name: &[u8]) -> bool
    ensures { result ≡ is_hidden name.now }
{
    name.starts_with(b"out/") || has_dot_folder(name)
}

// Whether the name of a folder on the way to the file begins with a dot.
fn has_dot_folder(name: &[u8]) -> bool
    ensures { result ≡ has_dot_folder name.now }
{
    name.split(|byte| *byte == b'/')
        .take(folder_count(name))
        .any(|folder| folder.starts_with(b"."))
}

// How many folders stand on the way to the file.
fn folder_count(name: &[u8]) -> usize
    ensures { result ≡ length (segments name.now) - 1 }
{
    name.iter().filter(|byte| **byte == b'/').count()
}

// The folder on the way to the name whose name ends at a slash.
pub(crate) fn above(name: &str, slash: usize) -> &str {
    match name.split_at_checked(slash) {
        Some((folder, _)) => folder,
        None => name,
    }
}

// The folder in which the name stands, or `None` in the root.
pub(crate) fn folder_of(name: &str) -> Option<&str> {
    match name.rsplit_once('/') {
        Some((folder, _)) => Some(folder),
        None => None,
    }
}
