//! Texts of class files in UTF-8.

ghost use Rattle.std.specs.Prelude.{◌≡◌, IfOk, option_map, length};
ghost use Rattle.std.specs.String.{string_bytes};
ghost use Rattle.class_model.specs.Units.{units_at};
ghost use Rattle.task_annotations.specs.Declarations.{utf8_of_units, utf8_of};
ghost use Rattle.task_annotations.specs.Reading.{ended};

use class_model::unit_in;
use std::alloc::{AllocError, Global};

/// The units that were read, where nothing is left.
fn ended(units: Vec<u16>, rest: &[u8]) -> Option<Vec<u16>>
    ensures { option_map (λ units. units.items) result ≡ ended units.items rest.now }
{
    if rest.is_empty() { Some(units) } else { None }
}

/// The units that a text in modified UTF-8 spells (JVMS 4.4.7).
fn units_of(alloc: Global, bytes: &[u8]) -> Result<Option<Vec<u16>>, AllocError>
    ensures { IfOk result (λ found. option_map (λ units. units.items) found
        ≡ units_at (length bytes.now) bytes.now) }
{
    let mut units = Vec::new(alloc);
    let mut rest = bytes;
    for i in 0..bytes.len() {
        match unit_in(rest) {
            None => return Ok(ended(units, rest)),
            Some((unit, more)) => {
                units.push(unit)?;
                rest = more;
            }
        }
    }
    Ok(ended(units, rest))
}

fn utf8_of_units(alloc: Global, units: &[u16]) -> Result<Option<String>, AllocError>
    ensures { IfOk result (λ found. option_map string_bytes found ≡ utf8_of_units units.now) }
{
    match String::from_utf16(alloc, units)? {
        Ok(text) => Ok(Some(text)),
        Err(_) => Ok(None),
    }
}

/// The UTF-8 text of a text in modified UTF-8; `None` where a surrogate has no partner.
#[tactic(auto, unfolding(crate::specs::Declarations::utf8_of))]
pub(crate) fn utf8_of(alloc: Global, bytes: &[u8]) -> Result<Option<String>, AllocError>
    ensures { IfOk result (λ found. option_map string_bytes found ≡ utf8_of bytes.now) }
{
    match units_of(alloc, bytes)? {
        None => Ok(None),
        Some(units) => utf8_of_units(alloc, &units),
    }
}
