//! Modified UTF-8 (JVMS 4.4.7).

ghost use Rattle.std.specs.Prelude.{◌≡◌, ◌+◌, ◌++◌, ◌<◌, ◌^◌, ◌↔◌, ℕ, List, IsTrue, IfSome, IfNone, length, option_map};
ghost use Rattle.class_model.specs.ModifiedUtf8.{unit, IsUnitAt, IsModifiedUtf8};
ghost use Rattle.class_model.specs.Units.{unit_at, is_text, two, three};

#[tactic(auto, unfolding(crate::specs::Units::two))]
fn two(high: u16, bytes: &[u8]) -> Option<(u16, &[u8])>
    requires { high < 32 }
    ensures { option_map (λ r. (r.0, r.1.now)) result ≡ two high bytes.now }
{
    let (later, rest) = bytes.split_first()?;
    let b = u16::from(*later);
    if b < 0x80 {
        return None;
    }
    if b >= 0xc0 {
        return None;
    }
    let unit = 64 * high + (b - 0x80);
    if unit == 0 {
        return Some((unit, rest));
    }
    if unit < 0x80 {
        return None;
    }
    Some((unit, rest))
}

#[tactic(auto, unfolding(crate::specs::Units::three))]
fn three(high: u16, bytes: &[u8]) -> Option<(u16, &[u8])>
    requires { high < 16 }
    ensures { option_map (λ r. (r.0, r.1.now)) result ≡ three high bytes.now }
{
    let [second, third, rest @ ..] = bytes else {
        return None;
    };
    let b = u16::from(*second);
    let c = u16::from(*third);
    if b < 0x80 {
        return None;
    }
    if b >= 0xc0 {
        return None;
    }
    if c < 0x80 {
        return None;
    }
    if c >= 0xc0 {
        return None;
    }
    let unit = 4096 * high + 64 * (b - 0x80) + (c - 0x80);
    if unit < 0x800 {
        return None;
    }
    Some((unit, rest))
}

#[tactic(auto, unfolding(crate::specs::Units::unit_at))]
fn read_unit(bytes: &[u8]) -> Option<(u16, &[u8])>
    ensures { option_map (λ r. (r.0, r.1.now)) result ≡ unit_at bytes.now }
{
    let (first, rest) = bytes.split_first()?;
    let a = u16::from(*first);
    if a < 0x80 {
        if a == 0 {
            return None;
        }
        return Some((a, rest));
    }
    if a < 0xc0 {
        return None;
    }
    if a < 0xe0 {
        return two(a - 0xc0, rest);
    }
    if a < 0xf0 {
        return three(a - 0xe0, rest);
    }
    None
}

/// The UTF-16 unit at the front of the bytes, and the bytes after it. `None` where no unit is spelled there.
pub fn unit_in(bytes: &[u8]) -> Option<(u16, &[u8])>
    ensures value { option_map (λ r. (r.0, r.1.now)) result ≡ unit_at bytes.now }
    ensures found { IfSome result (λ r. IsUnitAt bytes.now r.0 r.1.now) }
    ensures none { IfNone result ((u : ℕ) (rest : List ℕ) → u < 2 ^ 16 → bytes.now ≡ unit u ++ rest → ⊥) }
{
    read_unit(bytes)
}

fn spells_units(bytes: &[u8]) -> bool
    ensures { IsTrue result ↔ IsModifiedUtf8 bytes.now }
{
    let mut rest = bytes;
    while !rest.is_empty() {
        match unit_in(rest) {
            Some((_, more)) => rest = more,
            None => return false,
        }
    }
    true
}

/// Whether the bytes are a text in modified UTF-8. A surrogate without its other half is allowed.
pub fn is_modified_utf8(bytes: &[u8]) -> bool
    ensures grammar { IsTrue result ↔ IsModifiedUtf8 bytes.now }
    ensures value { result ≡ is_text bytes.now }
{
    spells_units(bytes)
}
