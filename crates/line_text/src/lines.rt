//! Printing character by character.

ghost use Rattle.std.specs.Prelude.{◌≡◌, ◌++◌, ◌∷◌, ◌<◌, ◌≤◌, ◌&&◌, OnOk, OnErr, Some, None, if◌then◌else◌, length, take, vec_len};
ghost use Rattle.std.specs.Char.{digit_char};
ghost use Rattle.std.specs.Char.Utf16.{is_high_surrogate, is_low_surrogate, surrogate_pair_char, lone_unit_char, utf16_chars};
ghost use Rattle.line_text.specs.Lines.{escaped, line_of_byte, line_of_char, line_of_spelled, line_of_units, line_of_name, line_of_path, units_of_name};
ghost use Rattle.class_model.specs.ModifiedUtf8.{IsModifiedUtf8};

use class_model::{Name, unit_in};
use std::alloc::AllocError;
use tree_value::Path;

fn digit(value: u8) -> u8
    requires { value < 16 }
    ensures { result ≡ digit_char value }
{
    if value < 10 {
        b'0' + value
    } else {
        b'a' + (value - 10)
    }
}

/// Appends a control character of ASCII.
fn push_escaped(text: &mut Vec<u8>, control: u8) -> Result<(), AllocError>
    requires { control < 128 }
    ensures ok { OnOk result (text.new.items ≡ text.old.items ++ escaped control) }
    ensures err { OnErr result (text.new.items ≡ text.old.items) }
{
    let digits = [
        b'\\',
        b'u',
        b'0',
        b'0',
        digit(control / 16),
        digit(control % 16),
    ];
    text.extend_from_slice(&digits)
}

#[tactic(auto, unfolding(crate::specs::Lines::line_of_byte))]
fn push_byte(text: &mut Vec<u8>, byte: u8) -> Result<(), AllocError>
    ensures ok { OnOk result (text.new.items ≡ text.old.items ++ line_of_byte byte) }
    ensures err { OnErr result (text.new.items ≡ text.old.items) }
{
    match byte {
        0..0x20 | 0x7f => push_escaped(text, byte),
        b'\\' => text.extend_from_slice(b"\\\\"),
        _ => text.extend_from_slice(&[byte]),
    }
}

#[tactic(auto, unfolding(crate::specs::Lines::line_of_char))]
fn push_char(text: &mut Vec<u8>, c: char) -> Result<(), AllocError>
    ensures ok { OnOk result (text.new.items ≡ text.old.items ++ line_of_char c) }
    ensures err { OnErr result (text.new.items ≡ text.old.items) }
{
    let code = c as u32;
    if code < 0x80 {
        return push_byte(text, code as u8);
    }
    let mut room = [0; 4];
    text.extend_from_slice(c.encode_utf8(&mut room).as_bytes())
}

fn push_spelled(text: &mut Vec<u8>, spelled: Option<char>) -> Result<(), AllocError>
    ensures ok { OnOk result (text.new.items ≡ text.old.items ++ line_of_spelled spelled) }
    ensures err { OnErr result (text.new.items ≡ text.old.items) }
{
    match spelled {
        Some(c) => push_char(text, c),
        None => text.extend_from_slice(b"?"),
    }
}

/// The character of two units that are a pair of surrogates.
fn pair_char(high: u16, low: u16) -> Option<char>
    ensures { result ≡ (if is_high_surrogate high && is_low_surrogate low then Some (surrogate_pair_char high low) else None) }
{
    if high < 0xd800 || high >= 0xdc00 {
        return None;
    }
    if low < 0xdc00 || low >= 0xe000 {
        return None;
    }
    char::from_u32(0x1_0000 + (u32::from(high) - 0xd800) * 0x400 + (u32::from(low) - 0xdc00))
}

/// The character of a unit that is in no pair.
fn lone_char(unit: u16) -> Option<char>
    ensures { result ≡ lone_unit_char unit }
{
    char::from_u32(u32::from(unit))
}

/// What the first unit and those behind it spell first, and what is left.
fn take_unit(first: u16, behind: &[u16]) -> (Option<char>, &[u16])
    ensures spelled { utf16_chars (first ∷ behind.now) ≡ result.0 ∷ utf16_chars result.1.now }
    ensures shorter { length result.1.now ≤ length behind.now }
{
    let Some((second, rest)) = behind.split_first() else {
        return (lone_char(first), behind);
    };
    match pair_char(first, *second) {
        Some(c) => (Some(c), rest),
        None => (lone_char(first), behind),
    }
}

/// The same where the units are spelled in modified UTF-8.
fn take_unit_of_name(first: u16, behind: &[u8]) -> (Option<char>, &[u8])
    requires { IsModifiedUtf8 behind.now }
    ensures spelled { utf16_chars (first ∷ units_of_name behind.now) ≡ result.0 ∷ utf16_chars (units_of_name result.1.now) }
    ensures shorter { length result.1.now ≤ length behind.now }
    ensures text { IsModifiedUtf8 result.1.now }
{
    let Some((second, rest)) = unit_in(behind) else {
        return (lone_char(first), behind);
    };
    match pair_char(first, second) {
        Some(c) => (Some(c), rest),
        None => (lone_char(first), behind),
    }
}

/// Appends the text of units of UTF-16. Without memory some front of it stands there.
fn push_all_units(text: &mut Vec<u8>, units: &[u16]) -> Result<(), AllocError>
    ensures ok { OnOk result (text.new.items ≡ text.old.items ++ line_of_units units.now) }
    ensures front { OnErr result (take (vec_len text.old) text.new.items ≡ text.old.items) }
{
    let mut rest = units;
    'each: while let Some((first, behind)) = rest.split_first() {
        let (spelled, after) = take_unit(*first, behind);
        push_spelled(text, spelled)?;
        rest = after;
    }
    Ok(())
}

/// Appends the text of units of UTF-16. Without memory the text stays.
pub fn push_units(text: &mut Vec<u8>, units: &[u16]) -> Result<(), AllocError>
    ensures ok { OnOk result (text.new.items ≡ text.old.items ++ line_of_units units.now) }
    ensures err { OnErr result (text.new.items ≡ text.old.items) }
{
    let before = text.len();
    match push_all_units(text, units) {
        Ok(()) => Ok(()),
        Err(fault) => {
            text.truncate(before);
            Err(fault)
        }
    }
}

fn push_name_bytes(text: &mut Vec<u8>, name: &[u8]) -> Result<(), AllocError>
    requires { IsModifiedUtf8 name.now }
    ensures ok { OnOk result (text.new.items ≡ text.old.items ++ line_of_name name.now) }
    ensures front { OnErr result (take (vec_len text.old) text.new.items ≡ text.old.items) }
{
    let mut rest = name;
    'each: while let Some((first, behind)) = unit_in(rest) {
        let (spelled, after) = take_unit_of_name(first, behind);
        push_spelled(text, spelled)?;
        rest = after;
    }
    Ok(())
}

/// Appends a name of a class or method, or a descriptor. Without memory the text stays.
pub fn push_name(text: &mut Vec<u8>, name: &Name) -> Result<(), AllocError>
    ensures ok { OnOk result (text.new.items ≡ text.old.items ++ line_of_name name.now) }
    ensures err { OnErr result (text.new.items ≡ text.old.items) }
{
    let before = text.len();
    match push_name_bytes(text, name.as_slice()) {
        Ok(()) => Ok(()),
        Err(fault) => {
            text.truncate(before);
            Err(fault)
        }
    }
}

fn push_bytes(text: &mut Vec<u8>, bytes: &[u8]) -> Result<(), AllocError>
    ensures ok { OnOk result (text.new.items ≡ text.old.items ++ line_of_path bytes.now) }
    ensures front { OnErr result (take (vec_len text.old) text.new.items ≡ text.old.items) }
{
    for byte in bytes {
        push_byte(text, *byte)?;
    }
    Ok(())
}

/// Appends a path. Without memory the text stays.
pub fn push_path(text: &mut Vec<u8>, path: &Path) -> Result<(), AllocError>
    ensures ok { OnOk result (text.new.items ≡ text.old.items ++ line_of_path path.now) }
    ensures err { OnErr result (text.new.items ≡ text.old.items) }
{
    let before = text.len();
    match push_bytes(text, path.as_slice()) {
        Ok(()) => Ok(()),
        Err(fault) => {
            text.truncate(before);
            Err(fault)
        }
    }
}
