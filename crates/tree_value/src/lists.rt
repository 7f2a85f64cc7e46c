use crate::digest::Digest;
use crate::path::Path;
use crate::sequence::Sequence;
use crate::text::Text;

/// Lines of text.
pub type Lines = Sequence<Text>;

/// Paths of files.
pub type Paths = Sequence<Path>;

/// Paths of files, each with the digest of its bytes.
pub type FileDigests = Sequence<(Path, Digest)>;

/// Names of variables, each with its content.
pub type Vars = Sequence<(Text, Text)>;
