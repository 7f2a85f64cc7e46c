//! Where the indices of constants lead.

ghost use Rattle.std.specs.Prelude.{◌≡◌, ◌==◌};
ghost use Rattle.std.specs.List.{list_any};
ghost use Rattle.class_model.specs.Constants.{constant_at, is_some_that, is_for_field, is_for_method, is_reference, handle_tags, has_targets};
ghost use Rattle.const_pool.specs.TextForms.{IsTableOf};

use crate::tags::{FIELD_TAG, INTERFACE_METHOD_TAG, METHOD_TAG};
use crate::text_forms::TextTable;
use class_model::{Constant, Pool};

fn is_for_field(pool: &Pool, texts: &TextTable, number: u16) -> bool
    requires { IsTableOf pool.now texts.now }
    ensures { result ≡ is_some_that (is_for_field pool.now) (constant_at pool.now number) }
{
    match pool.constant(number) {
        Some(Constant::NameType { descriptor, .. }) => {
            !texts.is_method_type(pool, true, *descriptor)
        },
        _ => false,
    }
}

fn is_for_method(pool: &Pool, texts: &TextTable, number: u16) -> bool
    requires { IsTableOf pool.now texts.now }
    ensures { result ≡ is_some_that (is_for_method pool.now) (constant_at pool.now number) }
{
    match pool.constant(number) {
        Some(Constant::NameType { descriptor, .. }) => !texts.is_field_type(pool, *descriptor),
        _ => false,
    }
}

fn takes_tag(kind: u8, tag: u8) -> bool
    ensures { result ≡ list_any (λ t. t == tag) (handle_tags kind) }
{
    match kind {
        1..=4 => tag == FIELD_TAG,
        5 | 8 => tag == METHOD_TAG,
        6 | 7 => tag == METHOD_TAG || tag == INTERFACE_METHOD_TAG,
        9 => tag == INTERFACE_METHOD_TAG,
        _ => false,
    }
}

fn is_reference(pool: &Pool, kind: u8, number: u16) -> bool
    ensures { result ≡ is_some_that (is_reference (handle_tags kind))
        (constant_at pool.now number) }
{
    match pool.constant(number) {
        Some(Constant::Ref { tag, .. }) => takes_tag(kind, *tag),
        _ => false,
    }
}

#[tactic(auto, unfolding(class_model::specs::Constants::has_targets))]
fn is_member(pool: &Pool, texts: &TextTable, tag: u8, class: u16, name_type: u16) -> bool
    requires { IsTableOf pool.now texts.now }
    ensures { result ≡ has_targets pool.now (Constant.Ref tag class name_type) }
{
    if !pool.is_class(class) {
        return false;
    }
    if tag == FIELD_TAG {
        return is_for_field(pool, texts, name_type);
    }
    is_for_method(pool, texts, name_type)
}

/// Whether each index of a constant leads to a constant that may stand there.
#[tactic(auto, unfolding(class_model::specs::Constants::has_targets))]
pub(crate) fn has_targets(pool: &Pool, texts: &TextTable, constant: &Constant) -> bool
    requires { IsTableOf pool.now texts.now }
    ensures { result ≡ has_targets pool.now constant.now }
{
    match constant {
        Constant::Class(name) => texts.is_class_text(pool, *name),
        Constant::Text(text) => pool.is_text(*text),
        Constant::Ref {
            tag,
            class,
            name_type,
        } => is_member(pool, texts, *tag, *class, *name_type),
        Constant::NameType { name, descriptor } => { texts.is_member(pool, *name, *descriptor) },
        Constant::Handle { kind, reference } => is_reference(pool, *kind, *reference),
        Constant::MethodType(descriptor) => texts.is_method_type(pool, true, *descriptor),
        Constant::InvokeDynamic { name_type, .. } => is_for_method(pool, texts, *name_type),
        _ => true,
    }
}
