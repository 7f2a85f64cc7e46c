//! What a program tells of its classes, fields and the code of its methods.

ghost use Rattle.std.specs.Prelude.{◌≡◌, IfSome, is_some, option_map, option_and_then, position};
ghost use Rattle.class_model.specs.declared.identifiers.ClassId.{ClassId};
ghost use Rattle.class_model.specs.declared.identifiers.MemberId.{MemberId};
ghost use Rattle.class_model.specs.declared.identifiers.MemberRef.{MemberRef};
ghost use Rattle.class_model.specs.declared.identifiers.SiteId.{SiteId};
ghost use Rattle.class_code.specs.Parts.{member_ref};
ghost use Rattle.jvm_heap.specs.Renaming.{renamed_object};
ghost use Rattle.native_model.specs.Worlds.{class_of as class_of_object};
ghost use Rattle.jvm_model.specs.Plans.{Initialiser, class_of, code_of, layout_of, resolve_field};
ghost use Rattle.native_model.specs.Ends.{thrown_of};
ghost use Rattle.jvm_model.specs.Frames.{initializer_error};
ghost use Rattle.jvm_model.specs.States.{Called};
ghost use Rattle.jvm_model.specs.Instructions.{field_ref};
ghost use Rattle.jvm_model.specs.Initialising.{same_member};
ghost use Rattle.jvm_state.specs.Handlers.{handling_of, handler_in, room_of};

use class_code::MemberView;
use class_model::{ClassId, MemberId};
use jvm_heap::Object;
use jvm_resolve::Lookups;
use native_model::Throw;

/// What becomes of an exception in a frame.
#[derive(Clone, Copy, Drop)]
pub enum Handling {
    /// There is no code of such a method.
    NoCode,
    /// It leaves the frame.
    Leaves,
    /// It is caught at a pc.
    CaughtAt(u32),
}

/// A program as it tells of its members, by place.
pub trait Members: Lookups {
    /// A field by the class that declares it, its name and its descriptor.
    ghost field_name: { Self → MemberId → MemberRef };

    /// What runs at the site of a concatenation.
    ghost concatenation_at: { Self → SiteId → Called };

    /// What initialising a class does by itself.
    ghost initialiser: { Self → ClassId → Initialiser };

    /// The place of a class that is there.
    fn class_id(&self, name: &[u8]) -> Option<ClassId>
        ensures there { is_some result ≡ is_some (Self.oracle self.now (class_of name.now)) }
        ensures named { IfSome result (λ class. Self.class_name self.now class ≡ name.now) };

    /// The class of what is thrown.
    fn class_thrown(&self, throw: &Throw) -> ClassId
        ensures { Self.class_name self.now result ≡ (thrown_of throw.now).class };

    /// The class of what is thrown where an initializer throws no Error (JVMS 5.5).
    fn initializer_error(&self) -> ClassId
        ensures { Self.class_name self.now result ≡ initializer_error };

    /// The field that a reference leads to, and whether it is static (JVMS 5.4.3.2).
    fn resolve_field(&self, field: MemberView<'_>) -> Option<(MemberId, bool)>
        ensures owner { Self.oracle self.now (resolve_field (member_ref field.entry))
            ≡ option_map (λ found. ((field_name self.now found.0).owner, found.1)) result }
        ensures named { IfSome result (λ found. field_name self.now found.0
            ≡ field_ref (field_name self.now found.0).owner (member_ref field.entry)) };

    /// The class that declares a field.
    fn class_of_field(&self, field: MemberId) -> ClassId
        ensures { Self.class_name self.now result ≡ (field_name self.now field).owner };

    /// The class that declares a method.
    fn class_of_method(&self, method: MemberId) -> ClassId
        ensures { Self.class_name self.now result ≡ (Self.method_name self.now method).owner };

    /// The place of a field among those of an object.
    fn field_place(&self, object: &Object, field: MemberId) -> Option<u32>
        ensures { result ≡ option_and_then (λ l. position (same_member (field_name self.now field)) l.fields)
            (Self.oracle self.now (layout_of (class_of_object
            (renamed_object (Self.class_name self.now) (Self.site_origin self.now) object.now)))) };

    /// The operands and the locals for which a method has room (JVMS 4.7.3).
    fn frame_size(&self, method: MemberId) -> Option<(u16, u16)>
        ensures { result ≡ option_map room_of (Self.oracle self.now (code_of (Self.method_name self.now method))) };

    /// What becomes of an exception of a class at a pc of a method (JVMS 2.10).
    fn handler(&self, method: MemberId, pc: u32, class: &[u8]) -> Handling
        ensures { handling_of result ≡ option_map (handler_in (Self.oracle self.now) class.now pc)
            (Self.oracle self.now (code_of (Self.method_name self.now method))) };
}
