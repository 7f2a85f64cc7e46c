//! What the texts of a pool may be: names and descriptors (JVMS 4.2 and 4.3). Each text is judged once.

ghost use Rattle.std.specs.Prelude.{◌≡◌, ◌<◌, ◌+◌, ◌^◌, map, length, IfOk};
ghost use Rattle.class_model.specs.Constants.{text_of, is_array_descriptor};
ghost use Rattle.class_model.specs.Descriptors.{is_field_descriptor, is_method_descriptor, is_return_descriptor};
ghost use Rattle.const_pool.specs.TextForms.{judged_text, judged_constant};

use class_model::{
    Constant, Pool, is_class_name, is_field_descriptor, is_method_descriptor, is_method_name,
    is_unqualified,
};
use sqlite_items::at;
use std::alloc::{AllocError, Global};

/// What a text may be. The text of no constant is nothing of these.
#[derive(Clone, Copy, Debug, Drop)]
pub struct TextForms {
    pub(crate) is_field_name: bool,
    pub(crate) is_method_name: bool,
    pub(crate) is_class_name: bool,
    pub(crate) is_array: bool,
    pub(crate) is_field_type: bool,
    pub(crate) is_return_type: bool,
    /// A method descriptor whose parameters take at most 254 slots.
    pub(crate) is_instance_type: bool,
    /// The same of 255 slots.
    pub(crate) is_method_type: bool,
}

const NOTHING: TextForms = TextForms {
    is_field_name: false,
    is_method_name: false,
    is_class_name: false,
    is_array: false,
    is_field_type: false,
    is_return_type: false,
    is_instance_type: false,
    is_method_type: false,
};

fn is_array(text: &[u8], is_field_type: bool) -> bool
    requires { is_field_type ≡ is_field_descriptor text.now }
    ensures { result ≡ is_array_descriptor text.now }
{
    match text.split_first() {
        Some((b'[', _)) => is_field_type,
        _ => false,
    }
}

fn is_return_type(text: &[u8], is_field_type: bool) -> bool
    requires { is_field_type ≡ is_field_descriptor text.now }
    ensures { result ≡ is_return_descriptor text.now }
{
    if let [b'V'] = text {
        return true;
    }
    is_field_type
}

fn is_method_type(text: &[u8], is_instance_type: bool) -> bool
    requires { is_instance_type ≡ is_method_descriptor 254 text.now }
    ensures { result ≡ is_method_descriptor 255 text.now }
{
    if is_instance_type {
        return true;
    }
    is_method_descriptor(255, text)
}

fn text_forms(text: &[u8]) -> TextForms
    ensures { result ≡ judged_text text.now }
{
    let is_field_type = is_field_descriptor(text);
    let is_instance_type = is_method_descriptor(254, text);
    TextForms {
        is_field_name: is_unqualified(text),
        is_method_name: is_method_name(text),
        is_class_name: is_class_name(text),
        is_array: is_array(text, is_field_type),
        is_field_type,
        is_return_type: is_return_type(text, is_field_type),
        is_instance_type,
        is_method_type: is_method_type(text, is_instance_type),
    }
}

fn constant_forms(constant: &Constant) -> TextForms
    ensures { result ≡ judged_constant constant.now }
{
    match constant {
        Constant::Utf8(text) => text_forms(text.as_slice()),
        _ => NOTHING,
    }
}

/// What the text of each constant may be, by the constants' numbers.
#[derive(Debug, Drop)]
pub struct TextTable {
    forms: Vec<TextForms>,
}

impl TextTable {
    ghost use Rattle.std.specs.Prelude.{◌≡◌, IfOk};
    ghost use Rattle.std.specs.Prelude.{◌||◌, if◌then◌else◌};
    ghost use Rattle.class_model.specs.ClassNames.{is_unqualified, is_method_name, is_class_name};
    ghost use Rattle.class_model.specs.Constants.{text_at, is_some_that, is_array_descriptor, is_name_with};
    ghost use Rattle.class_model.specs.Descriptors.{is_field_descriptor, is_method_descriptor, is_return_descriptor};
    ghost use Rattle.const_pool.specs.TextForms.{IsTableOf, judged_or_nothing};

    /// The table of a pool.
    pub fn of(alloc: Global, pool: &Pool) -> Result<TextTable, AllocError>
        ensures { IfOk result (λ table. IsTableOf pool.now table) }
    {
        let constants = pool.constants.as_slice();
        let mut forms = Vec::with_capacity(alloc, constants.len())?;
        for constant in constants {
            forms.push(constant_forms(constant))?;
        }
        Ok(TextTable { forms })
    }

    /// What the text of a number may be.
    fn forms(&self, pool: &Pool, number: u16) -> TextForms
        requires { IsTableOf pool.now self.now }
        ensures { result ≡ judged_or_nothing (text_at pool.now number) }
    {
        if number == 0 {
            return NOTHING;
        }
        match at(self.forms.as_slice(), usize::from(number) - 1) {
            Some(forms) => *forms,
            None => NOTHING,
        }
    }

    pub fn is_field_name(&self, pool: &Pool, number: u16) -> bool
        requires { IsTableOf pool.now self.now }
        ensures { result ≡ is_some_that is_unqualified (text_at pool.now number) }
    {
        self.forms(pool, number).is_field_name
    }

    pub fn is_method_name(&self, pool: &Pool, number: u16) -> bool
        requires { IsTableOf pool.now self.now }
        ensures { result ≡ is_some_that is_method_name (text_at pool.now number) }
    {
        self.forms(pool, number).is_method_name
    }

    /// Whether the name of a class or interface stands there that is no array class.
    pub fn is_class_name(&self, pool: &Pool, number: u16) -> bool
        requires { IsTableOf pool.now self.now }
        ensures { result ≡ is_some_that is_class_name (text_at pool.now number) }
    {
        self.forms(pool, number).is_class_name
    }

    /// Whether the name of a class stands there, of an array class its descriptor.
    pub fn is_class_text(&self, pool: &Pool, number: u16) -> bool
        requires { IsTableOf pool.now self.now }
        ensures { result ≡ is_some_that (λ n. is_class_name n || is_array_descriptor n)
            (text_at pool.now number) }
    {
        let forms = self.forms(pool, number);
        forms.is_class_name || forms.is_array
    }

    pub fn is_field_type(&self, pool: &Pool, number: u16) -> bool
        requires { IsTableOf pool.now self.now }
        ensures { result ≡ is_some_that is_field_descriptor (text_at pool.now number) }
    {
        self.forms(pool, number).is_field_type
    }

    pub fn is_return_type(&self, pool: &Pool, number: u16) -> bool
        requires { IsTableOf pool.now self.now }
        ensures { result ≡ is_some_that is_return_descriptor (text_at pool.now number) }
    {
        self.forms(pool, number).is_return_type
    }

    /// Whether the descriptor of a static method stands there, or of one with `this`.
    pub fn is_method_type(&self, pool: &Pool, is_static: bool, number: u16) -> bool
        requires { IsTableOf pool.now self.now }
        ensures { result ≡ is_some_that (is_method_descriptor (if is_static then 255 else 254))
            (text_at pool.now number) }
    {
        let forms = self.forms(pool, number);
        if is_static {
            forms.is_method_type
        } else {
            forms.is_instance_type
        }
    }

    /// Whether a name of a field or method stands there, and its descriptor at another number.
    pub fn is_member(&self, pool: &Pool, name: u16, descriptor: u16) -> bool
        requires { IsTableOf pool.now self.now }
        ensures { result ≡ is_some_that (λ n. is_some_that (is_name_with n)
            (text_at pool.now descriptor)) (text_at pool.now name) }
    {
        let name = self.forms(pool, name);
        let descriptor = self.forms(pool, descriptor);
        (name.is_field_name && descriptor.is_field_type)
            || (name.is_method_name && descriptor.is_method_type)
    }
}
