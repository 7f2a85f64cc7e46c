//! Why a class or a pool has no text.

ghost use Rattle.std.specs.Prelude.{◌≡◌};
ghost use Rattle.const_pool.specs.declared.write_fault.WriteFault.TheVariants as write_fault;

use std::alloc::{AllocError, AllocFailed};
use thiserror::Error;

/// An item of a class file that a writer can refuse. Constants are numbered from 1, all else from 0.
#[derive(Clone, Copy, Debug, PartialEq, Eq)]
pub enum Part {
    /// The major version.
    Major,
    /// The constant pool as a whole.
    Pool,
    /// The constant of a number, from 1.
    Constant(u32),
    ThisClass,
    SuperClass,
    /// The list of interfaces as a whole.
    Interfaces,
    Interface(u32),
    /// The list of fields as a whole.
    Fields,
    Field(u32, MemberPart),
    /// The list of methods as a whole.
    Methods,
    Method(u32, MemberPart),
    /// A list of attributes as a whole.
    Attributes(Holder),
    Attribute(AttributeId, AttributePart),
}

/// What has attributes.
#[derive(Clone, Copy, Debug, PartialEq, Eq)]
pub enum Holder {
    Class,
    Field(u32),
    Method(u32),
    /// The code of a method.
    Code(u32),
}

/// An attribute, by its number among those of its holder.
#[derive(Clone, Copy, Debug, PartialEq, Eq)]
pub struct AttributeId {
    pub holder: Holder,
    pub number: u32,
}

/// An item of a field or a method, beside its attributes.
#[derive(Clone, Copy, Debug, PartialEq, Eq)]
pub enum MemberPart {
    Name,
    /// The descriptor, also where an earlier member has this name and this descriptor.
    Descriptor,
    /// The code that a method lacks.
    Code,
}

/// An item of an attribute. One that is numbered stands for all that is in it.
#[derive(Clone, Copy, Debug, PartialEq, Eq)]
pub enum AttributePart {
    /// The name, also where the attribute's form has no place there, or where the name stands there already.
    Name,
    /// The length of the content.
    Length,
    /// The bytes of code.
    Code,
    /// The exception table as a whole.
    Handlers,
    Handler(u32),
    /// The constant of a field.
    Value,
    /// The list of frames as a whole.
    Frames,
    Frame(u32),
    /// The list of bootstrap methods as a whole.
    Bootstraps,
    Bootstrap(u32),
    /// The list of annotations as a whole.
    Annotations,
    Annotation(u32),
}

/// Why something has no text. It names the first part in file order that fails.
#[derive(Clone, Copy, Debug, PartialEq, Eq, Error)]
pub enum WriteFault {
    /// A count or a length of the part doesn't fit its field.
    #[error("too large")]
    TooLarge(Part),
    /// The part is in no file's grammar.
    #[error("bad shape")]
    BadShape(Part),
    #[error("out of memory")]
    Memory,
}

impl From<AllocError> for WriteFault {
    ghost from_gives = { λ _ e. e ≡ write_fault.Memory };

    fn from(_e: AllocError) -> WriteFault {
        WriteFault::Memory
    }
}

impl<T: Drop> From<AllocFailed<T>> for WriteFault {
    ghost from_gives = { λ _ e. e ≡ write_fault.Memory };

    fn from(_e: AllocFailed<T>) -> WriteFault {
        WriteFault::Memory
    }
}
