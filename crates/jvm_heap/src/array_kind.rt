//! The kinds of arrays.

ghost use Rattle.std.specs.Prelude.{◌≡◌};
ghost use Rattle.jvm_heap.specs.Heaps.{zero_of_element, zero_of_base, zero_of};
ghost use Rattle.jvm_heap.specs.Contents.{base_of, kind_of};

use crate::slot::Slot;
use class_model::ClassId;
use jvm_tables::ElementKind;

/// What an array is made of in the end. Arrays of floats and doubles are refused before code runs.
#[derive(Clone, Copy, Drop)]
pub enum ArrayBase {
    Primitive(ElementKind),
    /// Objects of a class or an interface.
    Class(ClassId),
}

/// The kind of an array (JVMS 2.4): what it is made of in the end, and its dimensions, from 1.
#[derive(Clone, Copy, Drop)]
pub struct ArrayKind {
    pub base: ArrayBase,
    pub depth: u8,
}

fn zero_of_element(kind: ElementKind) -> Slot
    ensures { result ≡ zero_of_element kind }
{
    match kind {
        ElementKind::Long => Slot::Long(0),
        _ => Slot::Int(0),
    }
}

impl ArrayBase {
    fn zero(self) -> Slot
        ensures { result ≡ zero_of_base (base_of self) }
    {
        match self {
            ArrayBase::Primitive(kind) => zero_of_element(kind),
            ArrayBase::Class(_) => Slot::Ref(0),
        }
    }
}

impl ArrayKind {
    /// What each element of a new array holds.
    pub fn zero(self) -> Slot
        ensures { result ≡ zero_of (kind_of self) }
    {
        if self.depth == 1 {
            self.base.zero()
        } else {
            Slot::Ref(0)
        }
    }
}
