//! How the layers above name classes, members and call sites.

use crate::name_text::Name;

/// A class of a program, or an external class.
#[derive(Clone, Copy, Debug, PartialEq, Eq, PartialOrd, Ord, Hash, Drop)]
pub enum ClassId {
    /// A place in the program's list of classes, from 0.
    Own(u32),
    /// A row of the table of external classes, from 0.
    Outer(u32),
}

/// A field or method by its place in file order, from 0, or a native by its row.
#[derive(Clone, Copy, Debug, PartialEq, Eq, PartialOrd, Ord, Hash, Drop)]
pub struct MemberId {
    pub class: ClassId,
    pub at: u32,
}

/// A call site: a method and the pc of an instruction in it.
#[derive(Clone, Copy, Debug, PartialEq, Eq, PartialOrd, Ord, Hash, Drop)]
pub struct SiteId {
    pub method: MemberId,
    pub pc: u32,
}

/// A method by its texts, as refusals carry it.
#[derive(Debug, Drop)]
pub struct MethodId {
    pub class: Name,
    pub name: Name,
    pub descriptor: Name,
}

/// A field or method as a constant names it (JVMS 4.4.2).
#[derive(Debug, Drop)]
pub struct MemberRef {
    pub owner: Name,
    pub name: Name,
    pub descriptor: Name,
}

/// How a method is called.
#[derive(Clone, Copy, Debug, PartialEq, Eq, PartialOrd, Ord, Hash, Drop)]
pub enum CallKind {
    Static,
    /// A call by invokespecial from a method of this class.
    Special(ClassId),
    Virtual,
    Interface,
}

/// A call of a method, as an instruction or a native makes it.
#[derive(Debug, Drop)]
pub struct CallRef {
    pub member: MemberRef,
    pub kind: CallKind,
}
