//! What stands at an index into the constant pool.

ghost use Rattle.std.specs.Prelude.{◌≡◌};
ghost use Rattle.class_model.specs.Attributes.{is_value_for};

use crate::class_names::{is_class_name, is_method_name, is_unqualified};
use crate::constant_pool::{Constant, Pool};
use crate::descriptor_text::{is_field_descriptor, is_method_descriptor, is_return_descriptor};

/// Whether a descriptor is that of a type whose values are ints.
#[tactic(auto, unfolding(crate::specs::Attributes::is_value_for))]
fn is_int(descriptor: &[u8]) -> bool
    ensures { result ≡ is_value_for descriptor.now (Constant.Integer 0) }
{
    descriptor == b"B".as_slice()
        || descriptor == b"C".as_slice()
        || descriptor == b"I".as_slice()
        || descriptor == b"S".as_slice()
        || descriptor == b"Z".as_slice()
}

impl Constant {
    ghost use Rattle.std.specs.Prelude.{◌≡◌};
    ghost use Rattle.class_model.specs.Annotations.{is_value_of};
    ghost use Rattle.class_model.specs.Attributes.{is_loadable, is_value_for};

    /// Whether it may be a static argument of a bootstrap method (JVMS 4.4).
    pub fn is_loadable(&self) -> bool
        ensures { result ≡ is_loadable self.now }
    {
        match self {
            Constant::Integer(_) => true,
            Constant::Float(_) => true,
            Constant::Long(_) => true,
            Constant::Double(_) => true,
            Constant::Class(_) => true,
            Constant::Text(_) => true,
            Constant::Handle { .. } => true,
            Constant::MethodType(_) => true,
            _ => false,
        }
    }

    /// Whether it may be a value of a tag in an annotation (JVMS 4.7.16.1).
    pub fn is_value_of(&self, tag: u8) -> bool
        ensures { result ≡ is_value_of tag self.now }
    {
        match self {
            Constant::Integer(_) => b"BCISZ".contains(&tag),
            Constant::Float(_) => tag == b'F',
            Constant::Long(_) => tag == b'J',
            Constant::Double(_) => tag == b'D',
            Constant::Utf8(_) => tag == b's',
            _ => false,
        }
    }

    /// Whether it may be the value of a field of a descriptor (JVMS 4.7.2).
    #[tactic(auto, unfolding(crate::specs::Attributes::is_value_for))]
    pub fn is_value_for(&self, descriptor: &[u8]) -> bool
        ensures { result ≡ is_value_for descriptor.now self.now }
    {
        match self {
            Constant::Integer(_) => is_int(descriptor),
            Constant::Float(_) => descriptor == b"F".as_slice(),
            Constant::Long(_) => descriptor == b"J".as_slice(),
            Constant::Double(_) => descriptor == b"D".as_slice(),
            Constant::Text(_) => descriptor == b"Ljava/lang/String;".as_slice(),
            _ => false,
        }
    }
}

impl Pool {
    ghost use Rattle.std.specs.Prelude.{◌≡◌, is_some};
    ghost use Rattle.class_model.specs.Annotations.{is_value_of};
    ghost use Rattle.class_model.specs.Attributes.{is_handle, is_loadable, is_named, is_value_for};
    ghost use Rattle.class_model.specs.ClassNames.{is_method_name, is_unqualified};
    ghost use Rattle.class_model.specs.Constants.{constant_at, is_class_constant, is_some_that, text_at};
    ghost use Rattle.class_model.specs.Descriptors.{is_field_descriptor, is_method_descriptor, is_return_descriptor};
    ghost use Rattle.class_model.specs.Shape.{is_plain_class};

    /// Whether a class or an array class stands there.
    pub fn is_class(&self, index: u16) -> bool
        ensures { result ≡ is_some_that is_class_constant (constant_at self.now index) }
    {
        match self.constant(index) {
            Some(Constant::Class(_)) => true,
            _ => false,
        }
    }

    /// Whether a class or interface stands there that is no array class.
    #[tactic(auto, unfolding(crate::specs::Shape::is_plain_class))]
    pub fn is_plain_class(&self, index: u16) -> bool
        ensures { result ≡ is_plain_class self.now index }
    {
        match self.class_name(index) {
            Some(name) => is_class_name(name),
            None => false,
        }
    }

    pub fn is_handle(&self, index: u16) -> bool
        ensures { result ≡ is_some_that is_handle (constant_at self.now index) }
    {
        match self.constant(index) {
            Some(Constant::Handle { .. }) => true,
            _ => false,
        }
    }

    /// Whether a static argument of a bootstrap method may stand there (JVMS 4.4).
    pub fn is_loadable(&self, index: u16) -> bool
        ensures { result ≡ is_some_that is_loadable (constant_at self.now index) }
    {
        match self.constant(index) {
            Some(constant) => constant.is_loadable(),
            None => false,
        }
    }

    /// Whether a value of a tag in an annotation may stand there (JVMS 4.7.16.1).
    pub fn is_value_of(&self, tag: u8, index: u16) -> bool
        ensures { result ≡ is_some_that (is_value_of tag) (constant_at self.now index) }
    {
        match self.constant(index) {
            Some(constant) => constant.is_value_of(tag),
            None => false,
        }
    }

    /// Whether the value of a field of a descriptor may stand there (JVMS 4.7.2).
    pub fn is_value_for(&self, descriptor: &[u8], index: u16) -> bool
        ensures { result ≡ is_some_that (is_value_for descriptor.now) (constant_at self.now index) }
    {
        match self.constant(index) {
            Some(constant) => constant.is_value_for(descriptor),
            None => false,
        }
    }

    pub fn is_text(&self, index: u16) -> bool
        ensures { result ≡ is_some (text_at self.now index) }
    {
        self.text(index).is_some()
    }

    /// Whether a text that is this name stands there.
    #[tactic(auto, unfolding(crate::specs::Attributes::is_named))]
    pub fn is_named(&self, name: &[u8], index: u16) -> bool
        ensures { result ≡ is_named self.now name.now index }
    {
        match self.text(index) {
            Some(text) => name == text,
            None => false,
        }
    }

    pub fn is_field_name(&self, index: u16) -> bool
        ensures { result ≡ is_some_that is_unqualified (text_at self.now index) }
    {
        match self.text(index) {
            Some(text) => is_unqualified(text),
            None => false,
        }
    }

    pub fn is_method_name(&self, index: u16) -> bool
        ensures { result ≡ is_some_that is_method_name (text_at self.now index) }
    {
        match self.text(index) {
            Some(text) => is_method_name(text),
            None => false,
        }
    }

    /// Whether a field descriptor stands there.
    pub fn is_field_type(&self, index: u16) -> bool
        ensures { result ≡ is_some_that is_field_descriptor (text_at self.now index) }
    {
        match self.text(index) {
            Some(text) => is_field_descriptor(text),
            None => false,
        }
    }

    /// Whether a field descriptor or `V` stands there.
    pub fn is_return_type(&self, index: u16) -> bool
        ensures { result ≡ is_some_that is_return_descriptor (text_at self.now index) }
    {
        match self.text(index) {
            Some(text) => is_return_descriptor(text),
            None => false,
        }
    }

    /// Whether a method descriptor stands there whose parameters take at most so many slots.
    pub fn is_method_type(&self, most_slots: u8, index: u16) -> bool
        ensures { result ≡ is_some_that (is_method_descriptor most_slots) (text_at self.now index) }
    {
        match self.text(index) {
            Some(text) => is_method_descriptor(most_slots, text),
            None => false,
        }
    }
}
