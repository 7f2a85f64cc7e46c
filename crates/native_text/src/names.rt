//! Names in units of UTF-16.

ghost use Rattle.std.specs.Prelude.{◌≡◌, ◌++◌, ◌∷◌, [], IfOk, OnOk};
ghost use Rattle.class_model.specs.ModifiedUtf8.{IsModifiedUtf8};
ghost use Rattle.line_text.specs.Lines.{units_of_name};
ghost use Rattle.native_model.specs.Texts.{dotted};
ghost use Rattle.native_text.specs.Spelling.{spelling, spelled};

use class_model::{is_modified_utf8, unit_in};
use std::alloc::{AllocError, Global};

fn push_spelled(units: &mut Vec<u16>, unit: u16, dots: bool) -> Result<(), AllocError>
    ensures { OnOk result (units.new.items ≡ units.old.items ++ spelling dots unit ∷ []) }
{
    let spelled = if dots && unit == 0x2f { 0x2e } else { unit };
    units.push(spelled)?;
    Ok(())
}

fn spelled_text(alloc: Global, name: &[u8], dots: bool) -> Result<Vec<u16>, AllocError>
    requires { IsModifiedUtf8 name.now }
    ensures { IfOk result (λ units. units.items ≡ spelled dots name.now) }
{
    let mut units = Vec::new(alloc);
    let mut rest = name;
    'each: while let Some((unit, behind)) = unit_in(rest) {
        push_spelled(&mut units, unit, dots)?;
        rest = behind;
    }
    Ok(units)
}

/// The units of a name, with dots for slashes where they are wanted; none where its bytes are no text.
#[tactic(auto, using(crate::proofs::Spelled::no_name))]
fn spelled(alloc: Global, name: &[u8], dots: bool) -> Result<Vec<u16>, AllocError>
    ensures { IfOk result (λ units. units.items ≡ spelled dots name.now) }
{
    if is_modified_utf8(name) {
        spelled_text(alloc, name, dots)
    } else {
        Ok(Vec::new(alloc))
    }
}

/// The units of a name; none where its bytes are no text (JVMS 4.4.7).
#[tactic(auto, using(crate::proofs::Spelled::as_it_is))]
pub fn units_of_name(alloc: Global, name: &[u8]) -> Result<Vec<u16>, AllocError>
    ensures { IfOk result (λ units. units.items ≡ units_of_name name.now) }
{
    spelled(alloc, name, false)
}

/// The units of a class's name, with dots; none where its bytes are no text (JLS 13.1).
#[tactic(auto, using(crate::proofs::Spelled::with_dots))]
pub fn dotted(alloc: Global, name: &[u8]) -> Result<Vec<u16>, AllocError>
    ensures { IfOk result (λ units. units.items ≡ dotted name.now) }
{
    spelled(alloc, name, true)
}
