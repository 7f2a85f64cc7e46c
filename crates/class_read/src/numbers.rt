//! Numbers and indices at the front of bytes that go on to an end.

ghost use Rattle.std.specs.Prelude.{◌≡◌, Ok, Err};
ghost use Rattle.class_text.specs.Readers.{u1_at, u2_at, u4_at, run_at};
ghost use Rattle.const_pool.specs.Faults.{Gives, GivesFront};

use const_pool::{ClassFault, offset_of};

#[tactic(auto, unfolding(class_text::specs::Readers::u1_at))]
pub(crate) fn u1_in(end: u32, bytes: &[u8]) -> Result<(u8, &[u8]), ClassFault>
    ensures { GivesFront result (u1_at end bytes.now) }
{
    match bytes.split_first() {
        Some((number, rest)) => Ok((*number, rest)),
        None => Err(ClassFault::CutShort(offset_of(end, bytes))),
    }
}

#[tactic(auto, unfolding(class_text::specs::Readers::u2_at))]
pub(crate) fn u2_in(end: u32, bytes: &[u8]) -> Result<(u16, &[u8]), ClassFault>
    ensures { GivesFront result (u2_at end bytes.now) }
{
    match const_pool::u2_in(bytes) {
        Some(found) => Ok(found),
        None => Err(ClassFault::CutShort(offset_of(end, bytes))),
    }
}

#[tactic(auto, unfolding(class_text::specs::Readers::u4_at))]
pub(crate) fn u4_in(end: u32, bytes: &[u8]) -> Result<(u32, &[u8]), ClassFault>
    ensures { GivesFront result (u4_at end bytes.now) }
{
    match const_pool::u4_in(bytes) {
        Some(found) => Ok(found),
        None => Err(ClassFault::CutShort(offset_of(end, bytes))),
    }
}

/// A run of so many bytes.
#[tactic(auto, unfolding(class_text::specs::Readers::run_at))]
pub(crate) fn run_in(end: u32, len: usize, bytes: &[u8]) -> Result<(&[u8], &[u8]), ClassFault>
    ensures { Gives (λ r. (r.0.now, r.1.now)) result (run_at len end bytes.now) }
{
    if bytes.len() < len {
        return Err(ClassFault::CutShort(offset_of(end, bytes)));
    }
    let (run, rest) = bytes.split_at(len);
    Ok((run, rest))
}
