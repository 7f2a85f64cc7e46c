//! Annotations (JVMS 4.7.16).

use sqlite_items::Items;

/// The depth that a value of an annotation has at most. An outermost value has depth 1.
pub const GREATEST_DEPTH: u8 = 64;

/// Annotations in one place, in file order.
pub type Notes = Items<Note>;

/// The pairs of an annotation, in file order.
pub type Pairs = Items<Pair>;

/// The values of an array.
pub type Elements = Items<Element>;

/// An annotation: the index of its type's descriptor, and its pairs.
#[derive(Debug, Drop)]
#[cycle(element)]
pub struct Note {
    pub kind: u16,
    pub pairs: Pairs,
}

/// A named value of an annotation.
#[derive(Debug, Drop)]
#[cycle(element)]
pub struct Pair {
    pub name: u16,
    pub value: Element,
}

/// The value of an annotation's element (JVMS 4.7.16.1).
#[derive(Debug, Drop)]
#[cycle(element)]
pub enum Element {
    /// A constant of the tag `B C D F I J S Z s`.
    Const { tag: u8, index: u16 },
    /// An enum constant: the indices of its type's descriptor and of its name.
    Enum { kind: u16, name: u16 },
    /// A class, by the index of its return descriptor.
    OfClass(u16),
    /// An annotation within an annotation.
    Nested(Note),
    /// An array.
    Many(Elements),
}
