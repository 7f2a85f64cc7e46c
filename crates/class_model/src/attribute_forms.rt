//! Attributes (JVMS 4.7).

ghost use Rattle.std.specs.Prelude.{◌≡◌};
ghost use Rattle.class_model.specs.Shape.{has_code};

use crate::annotation::Notes;
use crate::class_file::Indices;
use crate::constant_pool::Raw;
use crate::stack_map::StackFrames;
use sqlite_items::Items;

/// The attributes in one place, in file order.
pub type Attributes = Items<Attribute>;

/// The exception table of a method's code, in file order.
pub type Handlers = Items<Handler>;

/// The table of bootstrap methods, numbered from 0.
pub type Bootstraps = Items<Bootstrap>;

/// An attribute. A known name is read where JVMS puts it; anywhere else, and under any other name, it is `Other`.
#[derive(Debug, Drop)]
pub enum Attribute {
    /// The code of a method (JVMS 4.7.3).
    Code {
        name: u16,
        max_stack: u16,
        max_locals: u16,
        code: Raw,
        table: Handlers,
        attributes: Attributes,
    },
    /// The stack map of code (JVMS 4.7.4).
    StackMap {
        name: u16,
        frames: StackFrames,
    },
    /// The constant value of a field (JVMS 4.7.2).
    ConstantValue {
        name: u16,
        value: u16,
    },
    /// The bootstrap methods of a class (JVMS 4.7.23).
    Bootstrap {
        name: u16,
        entries: Bootstraps,
    },
    /// The annotations of a class, a field or a method that are visible at run time (JVMS 4.7.16).
    Annotations {
        name: u16,
        list: Notes,
    },
    /// Any other attribute, by its bytes.
    Other {
        name: u16,
        bytes: Raw,
    },
}

/// An entry of an exception table: the pcs from `start` up to `end`, and where control goes.
#[derive(Clone, Copy, Debug, PartialEq, Eq, Drop)]
pub struct Handler {
    pub start: u16,
    pub end: u16,
    pub handler: u16,
    /// The class that is caught, 0 for all.
    pub catch_type: u16,
}

/// A bootstrap method: its method handle and its static arguments.
#[derive(Debug, Drop)]
pub struct Bootstrap {
    pub handle: u16,
    pub arguments: Indices,
}

impl Attribute {
    ghost use Rattle.std.specs.Prelude.{◌≡◌};
    ghost use Rattle.class_model.specs.declared.attribute_forms.Attribute.{out-Attribute};
    ghost use Rattle.class_model.specs.Shape.{is_code_layer};
    ghost use Rattle.class_model.specs.Spelling.{name_of};

    /// The index of its name.
    pub fn name(&self) -> u16
        ensures { result ≡ name_of (out-Attribute self.now) }
    {
        match self {
            Attribute::Code { name, .. } => *name,
            Attribute::StackMap { name, .. } => *name,
            Attribute::ConstantValue { name, .. } => *name,
            Attribute::Bootstrap { name, .. } => *name,
            Attribute::Annotations { name, .. } => *name,
            Attribute::Other { name, .. } => *name,
        }
    }

    /// Whether it is the code of a method.
    pub fn is_code(&self) -> bool
        ensures { result ≡ is_code_layer (out-Attribute self.now) }
    {
        match self {
            Attribute::Code { .. } => true,
            _ => false,
        }
    }
}

/// Whether code is among attributes.
pub fn has_code(attributes: &[Attribute]) -> bool
    ensures { result ≡ has_code attributes.now }
{
    attributes.iter().any(|attribute| attribute.is_code())
}
