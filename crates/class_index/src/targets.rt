//! Which method a reference leads to, by the kind of its instruction (JVMS 6.5).

ghost use Rattle.std.specs.Prelude.{◌≡◌};
ghost use Rattle.class_index.specs.Declarations.{said};
ghost use Rattle.class_index.specs.Targets.{is_itself};

use crate::index::Index;
use crate::members::MethodView;
use crate::select::Selected;
use class_model::{ClassId, MemberId};

fn is_itself(method: &MethodView<'_>) -> bool
    ensures { result ≡ is_itself (said method.now) }
{
    method.method.is_private || method.name == b"<init>".as_slice()
}

impl Index {
    ghost use Rattle.class_index.specs.Hierarchy.{IsClassId};
    ghost use Rattle.class_index.specs.Targets.{virtual_target, static_target, is_super_call, special_start, special_target};

    /// What a call by invokevirtual or invokeinterface runs for a receiver of a class, `None` where the reference leads
    /// to no method. That a method is found which is static is for the caller to refuse.
    pub fn virtual_target(
        &self,
        receiver: ClassId,
        owner: &[u8],
        name: &[u8],
        descriptor: &[u8],
    ) -> Option<Selected>
        requires { IsClassId self.now receiver }
        ensures { result ≡ virtual_target self.now receiver owner.now name.now descriptor.now }
    {
        let resolved = self.resolve_method(owner, name, descriptor)?;
        Some(self.select(resolved, receiver))
    }

    /// What a call by invokestatic runs, `None` where the reference leads to no static method.
    pub fn static_target(&self, owner: &[u8], name: &[u8], descriptor: &[u8]) -> Option<MemberId>
        ensures { result ≡ static_target self.now owner.now name.now descriptor.now }
    {
        let resolved = self.resolve_method(owner, name, descriptor)?;
        if self.method(resolved).method.is_static {
            Some(resolved)
        } else {
            None
        }
    }

    fn is_super_call(&self, caller: ClassId, owner: ClassId) -> bool
        requires caller { IsClassId self.now caller }
        requires owner { IsClassId self.now owner }
        ensures { result ≡ is_super_call self.now caller owner }
    {
        if self.place(caller) == self.place(owner) {
            return false;
        }
        self.is_subtype(caller, owner) && !self.is_interface(owner)
    }

    /// The class from which the method of a call by invokespecial is looked up.
    fn special_start(&self, caller: ClassId, owner: ClassId) -> ClassId
        requires caller { IsClassId self.now caller }
        requires owner { IsClassId self.now owner }
        ensures value { result ≡ special_start self.now caller owner }
        ensures there { IsClassId self.now result }
    {
        if !self.is_super_call(caller, owner) {
            return owner;
        }
        match self.superclass(caller) {
            Some(class) => class,
            None => owner,
        }
    }

    /// What a call by invokespecial runs that stands in code of the class `caller`, `None` where the reference leads to
    /// no method or to a static one. A private method and an `<init>` are themselves called. A reference to a class
    /// above the caller's selects from the caller's superclass, any other one from its own class.
    pub fn special_target(
        &self,
        caller: ClassId,
        owner: &[u8],
        name: &[u8],
        descriptor: &[u8],
    ) -> Option<Selected>
        requires { IsClassId self.now caller }
        ensures { result ≡ special_target self.now caller owner.now name.now descriptor.now }
    {
        let resolved = self.resolve_method(owner, name, descriptor)?;
        let method = self.method(resolved);
        if method.method.is_static {
            return None;
        }
        if is_itself(&method) {
            return Some(Selected::Found(resolved));
        }
        let owner = self.class(owner)?;
        Some(self.select(resolved, self.special_start(caller, owner)))
    }
}
