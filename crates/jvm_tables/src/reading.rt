//! Numbers in the code, big-endian.

ghost use Rattle.std.specs.Prelude.{◌≡◌, ◌<◌, ◌^◌};
ghost use Rattle.jvm_tables.specs.Switches.{byte_at, short_at, word, word_at};

use crate::code::CodeFault;

pub(crate) fn byte_at(bytes: &[u8], at: usize) -> Result<u8, CodeFault>
    ensures { result ≡ byte_at bytes.now at }
{
    if at < bytes.len() {
        Ok(bytes[at])
    } else {
        Err(CodeFault::CutShort)
    }
}

pub(crate) fn short_at(bytes: &[u8], at: usize) -> Result<u16, CodeFault>
    requires { at < 2 ^ 40 }
    ensures { result ≡ short_at bytes.now at }
{
    if at + 1 < bytes.len() {
        Ok(u16::from_be_bytes([bytes[at], bytes[at + 1]]))
    } else {
        Err(CodeFault::CutShort)
    }
}

#[tactic(auto, unfolding(crate::specs::Switches::word))]
pub(crate) fn word_at(bytes: &[u8], at: usize) -> Result<i32, CodeFault>
    requires { at < 2 ^ 40 }
    ensures { result ≡ word_at bytes.now at }
{
    if at + 3 < bytes.len() {
        Ok(i32::from_be_bytes([bytes[at], bytes[at + 1], bytes[at + 2], bytes[at + 3]]))
    } else {
        Err(CodeFault::CutShort)
    }
}
