//! A program with its index, and the names of its classes.

ghost use Rattle.std.specs.Prelude.{◌≡◌, map};
ghost use Rattle.class_index.specs.Outlines.{outline};
ghost use Rattle.program_lookups.specs.Names.{is_class, name_of};

use class_index::Index;
use class_model::{ClassId, Program};
use jvm_tables::external_at;
use native_model::Naming;

/// A program with its index, borrowed. Its answers take no memory.
pub struct Classes<'p> {
    pub(crate) program: &'p Program,
    pub(crate) index: &'p Index,
    ghost same: { index.now ≡ map outline program.now },
}

impl<'p> Classes<'p> {
    /// A program with the index that was made of it.
    pub fn new(program: &'p Program, index: &'p Index) -> Classes<'p>
        requires { index.now ≡ map outline program.now }
        ensures { result.program.now ≡ program.now }
    {
        Classes { program, index }
    }

    pub(crate) fn is_class(&self, class: ClassId) -> bool
        ensures { result ≡ is_class (map outline self.now.program.now) class }
    {
        match class {
            ClassId::Own(at) => (at as usize) < self.program.classes().len(),
            ClassId::Outer(row) => external_at(row).is_some(),
        }
    }

    /// The name of a class; empty where there is none.
    pub(crate) fn class_name(&self, class: ClassId) -> &[u8]
        ensures { result.now ≡ name_of (map outline self.now.program.now) class }
    {
        if self.is_class(class) {
            self.index.class_name(class)
        } else {
            &[]
        }
    }
}
