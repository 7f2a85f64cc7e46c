//! What is told of classes and their members (JVMS 4.1, 4.5 and 4.6).

ghost use Rattle.std.specs.Prelude.{◌≡◌, ◌<◌, Some, IfSome, length};

use crate::index::Index;
use crate::outline::{MemberOutline, Outline};
use crate::resolve::class_at;
use class_model::{ClassId, MemberId};

impl Index {
    ghost use Rattle.class_index.specs.Hierarchy.{IsClassId, all_of, id_of};
    ghost use Rattle.class_index.specs.Declarations.{IsFieldId, field_named};
    ghost use Rattle.class_index.specs.Facts.{class_named, outline_at, superclass, is_interface_class, is_abstract_class};

    /// The class at a place.
    pub(crate) fn id(&self, place: usize) -> ClassId
        requires { place < length (all_of self.now) }
        ensures value { result ≡ id_of (length self.now) place }
        ensures there { IsClassId self.now result }
    {
        class_at(self.own(), self.number(place))
    }

    /// The class of a name, which has slashes. A class of the program comes before an external one.
    pub fn class(&self, name: &[u8]) -> Option<ClassId>
        ensures value { result ≡ class_named self.now name.now }
        ensures there { IfSome result (IsClassId self.now) }
    {
        let place = self.named(name)?;
        Some(self.id(place))
    }

    /// A class by its texts: its name, direct superclass and superinterfaces, flags, and the fields and methods of its
    /// file in order. An external class has the flags of interfaces and abstract classes alone; its methods are
    /// natives, which are no part of it.
    pub fn outline(&self, class: ClassId) -> &Outline
        requires { IsClassId self.now class }
        ensures { outline_at self.now class ≡ Some result.now }
    {
        let place = self.place(class);
        &self.outlines()[place]
    }

    /// The direct superclass, which `java/lang/Object` alone lacks.
    pub fn superclass(&self, class: ClassId) -> Option<ClassId>
        requires { IsClassId self.now class }
        ensures value { result ≡ superclass self.now class }
        ensures there { IfSome result (IsClassId self.now) }
    {
        match &self.outline(class).super_class {
            Some(name) => self.class(name.as_slice()),
            None => None,
        }
    }

    /// Whether a class is an interface.
    pub fn is_interface(&self, class: ClassId) -> bool
        requires { IsClassId self.now class }
        ensures { result ≡ is_interface_class self.now class }
    {
        self.outline(class).flags & 0x0200 != 0
    }

    /// Whether no object is of a class itself. Interfaces are abstract.
    pub fn is_abstract(&self, class: ClassId) -> bool
        requires { IsClassId self.now class }
        ensures { result ≡ is_abstract_class self.now class }
    {
        self.outline(class).flags & 0x0400 != 0
    }

    /// The field that a number names.
    pub fn field(&self, id: MemberId) -> &MemberOutline
        requires { IsFieldId self.now id }
        ensures { field_named self.now id ≡ Some result.now }
    {
        let class = self.outline(id.class);
        &class.fields.as_slice()[id.at as usize]
    }
}
