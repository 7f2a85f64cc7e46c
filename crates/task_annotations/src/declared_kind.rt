//! The kinds that annotations name.

ghost use Rattle.std.specs.Prelude.{◌≡◌};
ghost use Rattle.task_annotations.specs.Declarations.{kind_named, followed};

use task_model::Kind;

/// A kind as an annotation names it.
#[derive(Clone, Copy, Debug, PartialEq, Eq, Drop)]
pub enum DeclaredKind {
    Supported(Kind),
    /// A kind of Mill's that is known here and not supported.
    Worker,
    /// Another such kind.
    Persistent,
}

impl DeclaredKind {
    pub(crate) fn named(word: &[u8]) -> Option<DeclaredKind>
        ensures { result ≡ kind_named word.now }
    {
        if word == b"cached".as_slice() {
            Some(DeclaredKind::Supported(Kind::Cached))
        } else if word == b"source".as_slice() {
            Some(DeclaredKind::Supported(Kind::Source))
        } else if word == b"input".as_slice() {
            Some(DeclaredKind::Supported(Kind::Input))
        } else if word == b"command".as_slice() {
            Some(DeclaredKind::Supported(Kind::Command))
        } else if word == b"anon".as_slice() {
            Some(DeclaredKind::Supported(Kind::Anonymous))
        } else if word == b"worker".as_slice() {
            Some(DeclaredKind::Worker)
        } else if word == b"persistent".as_slice() {
            Some(DeclaredKind::Persistent)
        } else {
            None
        }
    }

    /// The kind whose rules it follows.
    pub fn followed(self) -> Kind
        ensures { result ≡ followed self }
    {
        match self {
            DeclaredKind::Supported(kind) => kind,
            DeclaredKind::Worker => Kind::Cached,
            DeclaredKind::Persistent => Kind::Cached,
        }
    }
}
