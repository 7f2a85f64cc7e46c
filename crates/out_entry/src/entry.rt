use tree_value::{Digest, FileDigests, Paths, Text, Value};

/// What a run of a task gave: the generation under which its files lie, the files with their digests, and
/// its value. `input` is the hash of all that the run depended on.
#[derive(Debug, Drop)]
pub struct Entry {
    pub task: Text,
    pub input: Digest,
    pub generation: u32,
    pub files: FileDigests,
    pub value: Value,
}

/// An entry without its value, with the names of its generation that are there.
#[derive(Debug, Drop)]
pub struct Kept {
    pub task: Text,
    pub input: Digest,
    pub generation: u32,
    pub files: FileDigests,
    pub names: Paths,
}
