//! The messages of what is thrown.

ghost use Rattle.std.specs.Prelude.{◌≡◌, IfOk, option_map};
ghost use Rattle.std.specs.Fmt.{signed_decimal};
ghost use Rattle.native_model.specs.Ends.{thrown_of, denial_of};
ghost use Rattle.native_model.specs.Thrown.{bounds_message};

use jvm_heap::Units;
use native_model::{Denial, StepFault, Throw};
use native_text::{dotted, units_of_ascii, units_of_name};
use std::alloc::{AllocError, Global};

fn bounds_message(alloc: Global, index: i32, length: u32) -> Result<Units, AllocError>
    ensures { IfOk result (λ units. units ≡ bounds_message index length) }
{
    let index = format!(in alloc; "Index {index}")?;
    let length = format!(in alloc; " out of bounds for length {length}")?;
    let mut units = units_of_ascii(alloc, index.as_bytes())?;
    let more = units_of_ascii(alloc, length.as_bytes())?;
    units.append(more.as_slice())?;
    Ok(units)
}

fn size_message(alloc: Global, size: i32) -> Result<Units, AllocError>
    ensures { IfOk result (λ units. units ≡ signed_decimal size) }
{
    let text = format!(in alloc; "{size}")?;
    units_of_ascii(alloc, text.as_bytes())
}

fn denial_message(alloc: Global, denial: Denial) -> Result<Units, AllocError>
    ensures { IfOk result (λ units. units ≡ denial_of denial) }
{
    match denial {
        Denial::Path => units_of_ascii(alloc, b"path"),
        Denial::Dest => units_of_ascii(alloc, b"dest"),
        Denial::Env => units_of_ascii(alloc, b"env"),
    }
}

/// The message of what is thrown, where it has one.
pub(crate) fn message_of(alloc: Global, throw: &Throw) -> Result<Option<Units>, StepFault>
    ensures { IfOk result (λ message. message ≡ (thrown_of throw.now).message) }
{
    let units = match throw {
        Throw::DivisionByZero => units_of_ascii(alloc, b"/ by zero")?,
        Throw::ListBounds(index, length) => bounds_message(alloc, *index, *length)?,
        Throw::TextBounds(index, length) => bounds_message(alloc, *index, *length)?,
        Throw::ArrayBounds(index, length) => bounds_message(alloc, *index, *length)?,
        Throw::NegativeSize(size) => size_message(alloc, *size)?,
        Throw::NumberFormat(units) => units.copy()?,
        Throw::FileFault(units) => units.copy()?,
        Throw::AbsentClass(name) => Units::from_vec(dotted(alloc, name.as_slice())?),
        Throw::AbsentMethod(name) => Units::from_vec(units_of_name(alloc, name.as_slice())?),
        Throw::AbsentField(name) => Units::from_vec(units_of_name(alloc, name.as_slice())?),
        Throw::Denied(denial) => denial_message(alloc, *denial)?,
        _ => return Ok(None),
    };
    Ok(Some(units))
}
