//! What the texts of a pool say as descriptors (JVMS 4.3), each read once for a class.

ghost use Rattle.std.specs.Prelude.{◌≡◌, IfOk, option_map, option_copied};
ghost use Rattle.class_model.specs.Constants.{text_of, text_at};
ghost use Rattle.class_code.specs.Constants.{descriptor_at, descriptor_named};
ghost use Rattle.class_code.specs.Types.{signature_of};
ghost use Rattle.class_code.specs.Descriptors.{call_kinds, told_by, descriptors_of};

use crate::constants::may_have;
use crate::lambdas::{is_object, is_string};
use crate::types::{has_float, kind_of, read_kinds};
use class_model::{Constant, Pool};
use jvm_tables::{ConstantUse, ValueKind};
use sqlite_items::Items;
use std::alloc::{AllocError, Global};

/// The kinds that a method takes, and that of its result.
#[derive(Debug, Drop)]
pub struct CallKinds {
    pub takes: Items<ValueKind>,
    /// `None` for void, a float and a double.
    pub gives: Option<ValueKind>,
    /// Whether the result is of a class, and not of an array.
    pub gives_object: bool,
    /// Whether the result is a String.
    pub gives_string: bool,
}

/// What a text says as a descriptor.
#[derive(Debug, Drop)]
pub struct Told {
    /// The kind of a field. `None` where the text is no field's descriptor, and for a float and a double.
    pub field: Option<ValueKind>,
    /// `None` where the text is no method's descriptor.
    pub call: Option<CallKinds>,
    pub has_float: bool,
}

/// What the constants of a pool say, in order; `None` for one that is no text.
pub type Descriptors = Items<Option<Told>>;

fn call_kinds(alloc: Global, descriptor: &[u8]) -> Result<Option<CallKinds>, AllocError>
    ensures { IfOk result (λ found. found ≡ option_map call_kinds (signature_of descriptor.now)) }
{
    let mut takes = Vec::new(alloc);
    match read_kinds(descriptor, &mut takes)? {
        Some(returned) => Ok(Some(CallKinds {
            takes: Items::from_vec(takes),
            gives: returned.kind(),
            gives_object: is_object(returned),
            gives_string: is_string(returned),
        })),
        None => Ok(None),
    }
}

fn told_by(alloc: Global, text: &[u8]) -> Result<Told, AllocError>
    ensures { IfOk result (λ told. told ≡ told_by text.now) }
{
    let call = call_kinds(alloc, text)?;
    Ok(Told {
        field: kind_of(text),
        call,
        has_float: has_float(text),
    })
}

fn told_of(alloc: Global, constant: &Constant) -> Result<Option<Told>, AllocError>
    ensures { IfOk result (λ told. told ≡ option_map told_by (text_of constant.now)) }
{
    match constant {
        Constant::Utf8(text) => Ok(Some(told_by(alloc, text.as_slice())?)),
        _ => Ok(None),
    }
}

/// Reads the texts of a pool as descriptors.
#[tactic(auto, unfolding(crate::specs::Descriptors::descriptors_of))]
pub fn descriptors_of(alloc: Global, pool: &Pool) -> Result<Descriptors, AllocError>
    ensures { IfOk result (λ found. found ≡ descriptors_of pool.now) }
{
    let mut found = Items::new(alloc);
    for constant in pool.constants.as_slice() {
        found.push(told_of(alloc, constant)?)?;
    }
    Ok(found)
}

/// What the text of a number says as a descriptor.
#[tactic(auto, using(crate::proofs::TextsTold::no_text))]
pub fn told_at<'a>(descriptors: &'a Descriptors, _pool: &Pool, number: u16) -> Option<&'a Told>
    requires { descriptors.now ≡ descriptors_of _pool.now }
    ensures { option_copied result ≡ option_map told_by (text_at _pool.now number) }
{
    if number == 0 {
        return None;
    }
    match descriptors.get(usize::from(number) - 1) {
        Some(Some(told)) => Some(told),
        Some(None) => None,
        None => None,
    }
}

/// What the descriptor of the name and type of a number says.
#[tactic(auto, unfolding(crate::specs::Constants::descriptor_at))]
pub fn told_of_type<'a>(descriptors: &'a Descriptors, pool: &Pool, number: u16) -> Option<&'a Told>
    requires { descriptors.now ≡ descriptors_of pool.now }
    ensures { option_copied result ≡ option_map told_by (descriptor_at pool.now number) }
{
    match pool.constant(number) {
        Some(Constant::NameType { descriptor, .. }) => told_at(descriptors, pool, *descriptor),
        _ => None,
    }
}

/// What the descriptor says of the member or the call site that a constant is, where the instruction may name it.
pub fn told_of_named<'a>(
    descriptors: &'a Descriptors,
    named: ConstantUse,
    pool: &Pool,
    constant: &Constant,
) -> Option<&'a Told>
    requires { descriptors.now ≡ descriptors_of pool.now }
    ensures { option_copied result ≡ option_map told_by (descriptor_named named pool.now constant.now) }
{
    match constant {
        Constant::Ref { tag, name_type, .. } => {
            if may_have(named, *tag) {
                told_of_type(descriptors, pool, *name_type)
            } else {
                None
            }
        }
        Constant::InvokeDynamic { name_type, .. } => match named {
            ConstantUse::CallSite => told_of_type(descriptors, pool, *name_type),
            _ => None,
        },
        _ => None,
    }
}
