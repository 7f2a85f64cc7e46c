//! The text of an entry.

ghost use Rattle.std.specs.Prelude.{◌≡◌, map, IfOk, All, OnOk, IsOkUnless, string_bytes};
ghost use Rattle.serde_json.specs.View.{view, items_view, items_of};
ghost use Rattle.value_text.specs.declared.fault.ValueFault.TheVariants.{Memory};
ghost use Rattle.out_entry.specs.Entries.{file_json, entry_json, entry_text, IsEntry, HasParts, IsFile};
ghost use Rattle.tree_value.specs.Digests.{IsDigest};
ghost use Rattle.tree_value.specs.Paths.{IsPath};

use crate::entry::Entry;
use serde_json::{Value as Json, json};
use std::alloc::{AllocError, Global};
use tree_value::{Bytes, Digest, Path};
use value_text::{ValueFault, path_str, text_str, to_json};

fn file_json(alloc: Global, path: &Path, digest: &Digest) -> Result<Json, AllocError>
    ensures json { IfOk result (λ json. view json ≡ file_json (path.now, digest.now)) }
    ensures file { OnOk result (IsFile (path.now, digest.now)) }
{
    let name = path_str(path);
    let hex = hex::encode(alloc, digest.as_slice())?;
    json!(in alloc; [name, hex])
}

fn files_json(alloc: Global, files: &[(Path, Digest)]) -> Result<Vec<Json>, AllocError>
    ensures items { IfOk result (λ items. items_view items.items ≡ items_of (map file_json files.now)) }
    ensures files { OnOk result (All IsFile files.now) }
{
    let mut items = Vec::with_capacity(alloc, files.len())?;
    for file in files {
        items.push(file_json(alloc, &file.0, &file.1)?)?;
    }
    Ok(items)
}

pub fn entry_json(alloc: Global, entry: &Entry) -> Result<Json, AllocError>
    ensures json { IfOk result (λ json. view json ≡ entry_json entry.now) }
    ensures parts { OnOk result (HasParts entry.now) }
{
    let files = files_json(alloc, entry.files.as_slice())?;
    let input = hex::encode(alloc, entry.input.as_slice())?;
    let task = text_str(&entry.task);
    let value = to_json(alloc, &entry.value)?;
    json!(in alloc; {
        "dest": entry.generation,
        "files": files,
        "input": input,
        "task": task,
        "value": value,
        "version": 1,
    })
}

/// The text of an entry, as it is put into the store.
pub fn entry_text(alloc: Global, entry: &Entry) -> Result<String, AllocError>
    ensures text { IfOk result (λ text. string_bytes text ≡ entry_text entry.now) }
    ensures parts { OnOk result (HasParts entry.now) }
{
    Ok(entry_json(alloc, entry)?.to_string(alloc)?)
}

/// The bytes of an entry, as they are put into the store.
pub fn entry_bytes(alloc: Global, entry: &Entry) -> Result<Bytes, ValueFault>
    requires { IsEntry entry.now }
    ensures bytes { IfOk result (λ bytes. bytes ≡ entry_text entry.now) }
    ensures parts { OnOk result (HasParts entry.now) }

    // No other entry has these bytes.
    ensures injective { OnOk result ((e : Entry) → HasParts e → entry_text e ≡ entry_text entry.now → e ≡ entry.now) }
    ensures only_memory { IsOkUnless result Memory }
{
    let text = entry_text(alloc, entry)?;
    Ok(Bytes::from_vec(text.into_bytes()))
}
