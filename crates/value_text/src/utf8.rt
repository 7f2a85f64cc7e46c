//! Texts and paths as `&str`, and a `String` as a text.

ghost use Rattle.std.specs.Prelude.{◌≡◌, IfOk, IsUtf8, string_bytes};
ghost use Rattle.tree_value.specs.Paths.{IsPath};

use std::alloc::{AllocError, Global};
use tree_value::{Path, Text, TextFault};

pub fn text_str(text: &Text) -> &str
    ensures str { result.now ≡ text.now }
    ensures text { IsUtf8 text.now }
{
    match str::from_utf8(text.as_slice()) {
        Ok(text) => text,
        Err(_) => unreachable!(),
    }
}

pub fn path_str(path: &Path) -> &str
    ensures str { result.now ≡ path.now }
    ensures path { IsPath path.now }
{
    match str::from_utf8(path.as_slice()) {
        Ok(path) => path,
        Err(_) => unreachable!(),
    }
}

pub fn to_text(alloc: Global, text: &str) -> Result<Text, AllocError>
    ensures { IfOk result (λ copy. copy ≡ text.now) }
{
    match Text::of(alloc, text.as_bytes()) {
        Ok(text) => Ok(text),
        Err(TextFault::BadText) => unreachable!(),
        Err(TextFault::Memory) => Err(AllocError),
    }
}
