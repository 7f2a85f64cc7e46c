//! What descriptors say of the kinds of values (JVMS 4.3).

ghost use Rattle.std.specs.Prelude.{◌≡◌, OnOk, IfOk, ◌++◌, length, option_copied, option_map, option_and_then, option_to_list};
ghost use Rattle.class_model.specs.Descriptors.{return_type, field_types_at, behind};
ghost use Rattle.class_model.specs.TypeForms.{type_of};
ghost use Rattle.class_code.specs.Types.{is_float_letter, kind, kind_of, has_float, object_name, result_of, result_type, read, after, signature, signature_of};

use class_model::{TypeForm, field_type_in};
use jvm_tables::ValueKind;
use std::alloc::AllocError;

/// The result that a method's descriptor tells.
#[derive(Clone, Copy, Debug)]
pub struct Returned<'a> {
    /// `None` for void.
    pub form: Option<TypeForm<'a>>,
}

fn is_float_letter(letter: u8) -> bool
    ensures { result ≡ is_float_letter letter }
{
    letter == b'F' || letter == b'D'
}

/// The kind of a value of a type; a float and a double have none.
pub fn kind(form: TypeForm<'_>) -> Option<ValueKind>
    ensures { result ≡ kind (type_of form.entry) }
{
    if form.dimensions > 0 {
        return Some(ValueKind::Reference);
    }
    if form.letter == b'L' {
        return Some(ValueKind::Reference);
    }
    if form.letter == b'J' {
        return Some(ValueKind::Long);
    }
    if is_float_letter(form.letter) {
        return None;
    }
    Some(ValueKind::Int)
}

/// The kind that a field's descriptor tells.
#[tactic(auto, unfolding(class_model::specs::Descriptors::field_type))]
pub fn kind_of(descriptor: &[u8]) -> Option<ValueKind>
    ensures { result ≡ kind_of descriptor.now }
{
    let (form, rest) = field_type_in(descriptor)?;
    if rest.is_empty() { kind(form) } else { None }
}

/// Whether a descriptor, of a field or of a method, has a float or a double, or an array of them.
pub fn has_float(descriptor: &[u8]) -> bool
    ensures { result ≡ has_float descriptor.now }
{
    let mut in_name = false;
    for byte in descriptor {
        if in_name {
            in_name = *byte != b';';
        } else {
            if is_float_letter(*byte) {
                return true;
            }
            in_name = *byte == b'L';
        }
    }
    false
}

fn class_of<'a>(form: TypeForm<'a>) -> Option<&'a [u8]>
    ensures { option_copied result ≡ object_name (type_of form.entry) }
{
    if form.dimensions > 0 {
        return None;
    }
    if form.letter == b'L' {
        Some(form.class)
    } else {
        None
    }
}

#[tactic(auto, unfolding(class_model::specs::Descriptors::field_type))]
fn returned_in(bytes: &[u8]) -> Option<Returned<'_>>
    ensures { option_map result_of result ≡ return_type bytes.now }
{
    if let [b'V'] = bytes {
        return Some(Returned { form: None });
    }
    let (form, rest) = field_type_in(bytes)?;
    if rest.is_empty() {
        Some(Returned { form: Some(form) })
    } else {
        None
    }
}

impl<'a> Returned<'a> {
    /// The class of the result, where it is of one and of no array.
    pub fn class(self) -> Option<&'a [u8]>
        ensures { option_copied result ≡ option_and_then object_name (result_of self.entry) }
    {
        match self.form {
            Some(form) => class_of(form),
            None => None,
        }
    }

    /// The kind of the result. A void, a float and a double have none.
    pub fn kind(self) -> Option<ValueKind>
        ensures { result ≡ option_and_then kind (result_of self.entry) }
    {
        match self.form {
            Some(form) => kind(form),
            None => None,
        }
    }
}

/// Puts a kind behind the others, where there is one.
pub(crate) fn push_some(
    kinds: &mut Vec<ValueKind>,
    kind: Option<ValueKind>,
) -> Result<(), AllocError>
    ensures { OnOk result (kinds.new.items ≡ kinds.old.items ++ option_to_list kind) }
{
    if let Some(kind) = kind {
        kinds.push(kind)?;
    }
    Ok(())
}

/// The parameters behind the opening parenthesis, and the result.
fn parameters_in<'a>(
    bytes: &'a [u8],
    kinds: &mut Vec<ValueKind>,
) -> Result<Option<Returned<'a>>, AllocError>
    ensures { IfOk result (λ found. option_map (read kinds.new.items) found
        ≡ option_map (after kinds.old.items) (option_map signature (option_and_then behind (field_types_at (length bytes.now) bytes.now)))) }
{
    let mut rest = bytes;
    while let Some((first, after)) = rest.split_first() {
        if *first == b')' {
            return Ok(returned_in(after));
        }
        match field_type_in(rest) {
            None => return Ok(None),
            Some((form, more)) => {
                push_some(kinds, kind(form))?;
                rest = more;
            }
        }
    }
    Ok(None)
}

/// The kinds of the parameters of a method's descriptor are put behind the kinds that are there. It gives the result,
/// or `None` where the text is no method's descriptor, and then kinds may have been put there all the same.
#[tactic(auto, unfolding(class_model::specs::Descriptors::method_type))]
pub fn read_kinds<'a>(
    descriptor: &'a [u8],
    kinds: &mut Vec<ValueKind>,
) -> Result<Option<Returned<'a>>, AllocError>
    ensures { IfOk result (λ found. option_map (read kinds.new.items) found ≡ option_map (after kinds.old.items) (signature_of descriptor.now)) }
{
    match descriptor.split_first() {
        Some((b'(', rest)) => parameters_in(rest, kinds),
        _ => Ok(None),
    }
}

/// The result behind the parameters.
fn returned_behind(bytes: &[u8]) -> Option<Returned<'_>>
    ensures { option_map result_of result ≡ option_map (λ m. m.returned) (option_and_then behind (field_types_at (length bytes.now) bytes.now)) }
{
    let mut rest = bytes;
    while let Some((first, after)) = rest.split_first() {
        if *first == b')' {
            return returned_in(after);
        }
        match field_type_in(rest) {
            None => return None,
            Some((_, more)) => rest = more,
        }
    }
    None
}

/// The result that a method's descriptor tells. `None` where the text is no method's descriptor.
#[tactic(auto, unfolding(class_model::specs::Descriptors::method_type))]
pub fn returned_of(descriptor: &[u8]) -> Option<Returned<'_>>
    ensures { option_map result_of result ≡ result_type descriptor.now }
{
    match descriptor.split_first() {
        Some((b'(', rest)) => returned_behind(rest),
        _ => None,
    }
}
