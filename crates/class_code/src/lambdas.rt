//! When the parts of a lambda's call site go together (JVMS 4.4.8).

ghost use Rattle.std.specs.Prelude.{◌≡◌, bytes_eq, codes};
ghost use Rattle.class_model.specs.Constants.{is_some_that};
ghost use Rattle.class_model.specs.TypeForms.{type_of};
ghost use Rattle.class_code.specs.Types.{result_of};
ghost use Rattle.class_code.specs.Sites.{takes_receiver, narrows, are_arguments, returns_to, is_kind, are_kinds, are_results, is_object, is_string};

use crate::types::Returned;
use class_model::TypeForm;
use jvm_tables::ValueKind;

/// Whether method handles of a kind take a receiver: invokeVirtual, invokeSpecial and invokeInterface.
pub(crate) fn takes_receiver(kind: u8) -> bool
    ensures { result ≡ takes_receiver kind }
{
    kind == 5 || kind == 7 || kind == 9
}

fn narrows(value: ValueKind, wanted: ValueKind) -> bool
    ensures { result ≡ narrows value wanted }
{
    match value {
        ValueKind::Long => match wanted {
            ValueKind::Int => true,
            _ => false,
        },
        _ => false,
    }
}

/// Whether there are as many values as are wanted, and none of them narrows.
pub(crate) fn are_arguments(values: &[ValueKind], kinds: &[ValueKind]) -> bool
    ensures { result ≡ are_arguments values.now kinds.now }
{
    let mut values = values;
    let mut kinds = kinds;
    while let Some((value, more)) = values.split_first() {
        let Some((kind, others)) = kinds.split_first() else {
            return false;
        };
        if narrows(*value, *kind) {
            return false;
        }
        values = more;
        kinds = others;
    }
    kinds.is_empty()
}

/// Whether a wanted result comes from the method, and doesn't narrow, or is the new object.
pub(crate) fn returns_to(kind: u8, own: Option<ValueKind>, wanted: Option<ValueKind>) -> bool
    ensures { result ≡ returns_to kind own wanted }
{
    match wanted {
        None => true,
        Some(wanted) => match own {
            None => kind == 8,
            Some(own) => kind == 8 || !narrows(own, wanted),
        },
    }
}

fn is_kind(kind: ValueKind, other: ValueKind) -> bool
    ensures { result ≡ is_kind kind other }
{
    match kind {
        ValueKind::Int => matches!(other, ValueKind::Int),
        ValueKind::Long => matches!(other, ValueKind::Long),
        ValueKind::Reference => matches!(other, ValueKind::Reference),
    }
}

pub(crate) fn are_kinds(kinds: &[ValueKind], others: &[ValueKind]) -> bool
    ensures { result ≡ are_kinds kinds.now others.now }
{
    let mut kinds = kinds;
    let mut others = others;
    while let Some((kind, more)) = kinds.split_first() {
        let Some((other, rest)) = others.split_first() else {
            return false;
        };
        if !is_kind(*kind, *other) {
            return false;
        }
        kinds = more;
        others = rest;
    }
    others.is_empty()
}

/// Whether both have no result, or results of one kind.
pub(crate) fn are_results(own: Option<ValueKind>, other: Option<ValueKind>) -> bool
    ensures { result ≡ are_results own other }
{
    match own {
        None => other.is_none(),
        Some(own) => match other {
            None => false,
            Some(other) => is_kind(own, other),
        },
    }
}

fn is_class(form: TypeForm<'_>) -> bool
    ensures { result ≡ is_object (type_of form.entry) }
{
    if form.dimensions > 0 {
        return false;
    }
    form.letter == b'L'
}

fn is_string_class(form: TypeForm<'_>) -> bool
    ensures { result ≡ is_string (type_of form.entry) }
{
    if form.dimensions > 0 {
        return false;
    }
    if form.letter != b'L' {
        return false;
    }
    is_string_name(form.class)
}

fn is_string_name(name: &[u8]) -> bool
    ensures { result ≡ bytes_eq (codes "java/lang/String") name.now }
{
    b"java/lang/String".as_slice() == name
}

/// Whether the result is of a class, and not of an array.
pub(crate) fn is_object(returned: Returned<'_>) -> bool
    ensures { result ≡ is_some_that is_object (result_of returned.entry) }
{
    match returned.form {
        Some(form) => is_class(form),
        None => false,
    }
}

/// Whether the result is a String.
pub(crate) fn is_string(returned: Returned<'_>) -> bool
    ensures { result ≡ is_some_that is_string (result_of returned.entry) }
{
    match returned.form {
        Some(form) => is_string_class(form),
        None => false,
    }
}
