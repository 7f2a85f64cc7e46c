//! The types of values that a method takes and gives, by its descriptor (JVMS 4.3.3).

ghost use Rattle.std.specs.Prelude.{◌≡◌, ◌++◌, IfOk, OnOk, length, map, option_map, option_and_then};
ghost use Rattle.class_model.specs.Descriptors.{field_type, field_types_at, return_type, method_type};
ghost use Rattle.class_model.specs.TypeForms.{type_of};
ghost use Rattle.task_annotations.specs.Declarations.{letter_value, class_value, value_type, signature, signature_of};
ghost use Rattle.task_annotations.specs.Reading.{after, signature_read, parameters_read};

use class_model::{TypeForm, field_type_in};
use std::alloc::{AllocError, Global};
use tree_value::ValueType;

/// The types of values that a method takes and gives; `None` for a type that no value has, and for void.
#[derive(Debug, Drop)]
pub(crate) struct Signature {
    pub parameters: Vec<Option<ValueType>>,
    pub result: Option<ValueType>,
}

fn class_value(name: &[u8]) -> Option<ValueType>
    ensures { result ≡ class_value name.now }
{
    if name == b"java/lang/String".as_slice() {
        Some(ValueType::Text)
    } else if name == b"java/util/List".as_slice() {
        Some(ValueType::List)
    } else if name == b"mill/PathRef".as_slice() {
        Some(ValueType::Ref)
    } else {
        None
    }
}

fn letter_value(letter: u8) -> Option<ValueType>
    ensures { result ≡ letter_value letter }
{
    match letter {
        b'Z' => Some(ValueType::Bool),
        b'I' => Some(ValueType::Int),
        b'J' => Some(ValueType::Long),
        _ => None,
    }
}

/// The type of value that a parameter or a result of a type is.
fn value_type(form: TypeForm<'_>) -> Option<ValueType>
    ensures { result ≡ value_type (type_of form.entry) }
{
    if form.dimensions > 0 {
        return None;
    }
    if form.letter == b'L' {
        return class_value(form.class);
    }
    letter_value(form.letter)
}

#[tactic(auto, unfolding(class_model::specs::Descriptors::field_type))]
fn field_value(bytes: &[u8]) -> Option<Option<ValueType>>
    ensures { result ≡ option_map value_type (field_type bytes.now) }
{
    let (form, rest) = field_type_in(bytes)?;
    if rest.is_empty() {
        Some(value_type(form))
    } else {
        None
    }
}

/// The result behind the parameters.
fn returned_in(bytes: &[u8]) -> Option<Option<ValueType>>
    ensures { result ≡ option_map (option_and_then value_type) (return_type bytes.now) }
{
    if let [b'V'] = bytes {
        return Some(None);
    }
    field_value(bytes)
}

/// The parameters behind the opening parenthesis are put behind those that are there, and the result is given.
fn parameters_in(
    bytes: &[u8],
    parameters: &mut Vec<Option<ValueType>>,
) -> Result<Option<Option<ValueType>>, AllocError>
    ensures { IfOk result (λ found. option_map (signature_read parameters.new.items) found
        ≡ parameters_read parameters.old.items (field_types_at (length bytes.now) bytes.now)) }
{
    let mut rest = bytes;
    while let Some((first, after)) = rest.split_first() {
        if *first == b')' {
            return Ok(returned_in(after));
        }
        match field_type_in(rest) {
            None => return Ok(None),
            Some((form, more)) => {
                parameters.push(value_type(form))?;
                rest = more;
            }
        }
    }
    Ok(None)
}

/// The parameters are put behind those that are there, and the result is given; `None` where the text is no method's
/// descriptor.
#[tactic(auto, unfolding(class_model::specs::Descriptors::method_type))]
fn read_descriptor(
    descriptor: &[u8],
    parameters: &mut Vec<Option<ValueType>>,
) -> Result<Option<Option<ValueType>>, AllocError>
    ensures { IfOk result (λ found. option_map (signature_read parameters.new.items) found
        ≡ option_map (after parameters.old.items) (option_map signature (method_type descriptor.now))) }
{
    match descriptor.split_first() {
        Some((b'(', rest)) => parameters_in(rest, parameters),
        _ => Ok(None),
    }
}

/// What a descriptor says; `None` where it is no method's.
#[tactic(auto, unfolding(crate::specs::Declarations::signature_of))]
pub(crate) fn signature_of(
    alloc: Global,
    descriptor: &[u8],
) -> Result<Option<Signature>, AllocError>
    ensures { IfOk result (λ found. option_map (λ s. signature_read s.parameters.items s.result) found
        ≡ signature_of descriptor.now) }
{
    let mut parameters = Vec::new(alloc);
    match read_descriptor(descriptor, &mut parameters)? {
        None => Ok(None),
        Some(result) => Ok(Some(Signature { parameters, result })),
    }
}
