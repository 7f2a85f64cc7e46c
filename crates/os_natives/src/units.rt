//! Units of UTF-16 and texts in UTF-8 (RFC 2781, RFC 3629).

ghost use Rattle.std.specs.Prelude.{◌≡◌, ◌++◌, IfOk, OnOk, option_map};
ghost use Rattle.std.specs.String.{string_bytes};
ghost use Rattle.std.specs.Char.Escape.{encode_utf16};
ghost use Rattle.native_model.specs.Texts.{text_of_units, units_of_text};

use jvm_heap::Units;
use std::alloc::{AllocError, Global};

/// The text of units in UTF-8. `None` where a surrogate has no partner.
#[tactic(auto, using(crate::proofs::Spelled::spelled))]
pub(crate) fn text_of_units(alloc: Global, units: &[u16]) -> Result<Option<String>, AllocError>
    ensures { IfOk result (λ text. option_map string_bytes text ≡ text_of_units units.now) }
{
    match String::from_utf16(alloc, units)? {
        Ok(text) => Ok(Some(text)),
        Err(_) => Ok(None),
    }
}

fn push_char(units: &mut Vec<u16>, c: char) -> Result<(), AllocError>
    ensures { OnOk result (units.new.items ≡ units.old.items ++ encode_utf16 c) }
{
    let mut room = [0; 2];
    units.extend_from_slice(c.encode_utf16(&mut room))
}

/// The units of a text.
#[tactic(auto, unfolding(native_model::specs::Texts::units_of_text))]
pub(crate) fn units_of_text(alloc: Global, text: &str) -> Result<Units, AllocError>
    ensures { IfOk result (λ units. units ≡ units_of_text text.now) }
{
    let mut units = Vec::new(alloc);
    for c in text.chars() {
        push_char(&mut units, c)?;
    }
    Ok(Units::from_vec(units))
}
