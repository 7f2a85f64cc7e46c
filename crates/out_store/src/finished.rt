ghost use Rattle.std.specs.Prelude.{◌↔◌, All, IsTrue};
ghost use Rattle.out_entry.specs.Entries.{IsFileName};

use out_entry::MAX_FILE_NAME_LEN;
use tree_value::{Digest, Lines, Text, Tree, Value};

/// A run of a task that returned: the hash of all that it depended on, its value, the files that it wrote, and
/// the lines of its log in the form in which they are put.
#[derive(Debug, Drop)]
pub struct Finished {
    pub task: Text,
    pub input: Digest,
    pub value: Value,
    pub dest: Tree,
    pub log: Lines,
}

/// Whether the files can be a task's dest: each path has 1 to 700 bytes.
pub fn is_dest(files: &Tree) -> bool
    ensures { IsTrue result ↔ All IsFileName files.now }
{
    files.as_slice().iter().all(|file| file.0.len() > 0 && file.0.len() <= MAX_FILE_NAME_LEN)
}
