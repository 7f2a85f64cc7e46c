//! The entry of a text.

ghost use Rattle.std.specs.Prelude.{◌≡◌, ◌≤◌, ◌↔◌, Some, None, List, ℕ, All, map, option_map, option_and_then, IfOk, IfSome, IsTrue, OnOk, IsOkUnless};
ghost use Rattle.std.specs.FinMap.Entries.{is_sorted};
ghost use Rattle.serde_json.specs.Find.{at, get, as_str};
ghost use Rattle.serde_json.specs.View.{view, items_view, items_of};
ghost use Rattle.tree_value.specs.Trees.{path_cmp};
ghost use Rattle.value_text.specs.Short.{as_short, depth};
ghost use Rattle.value_text.specs.declared.fault.ValueFault.TheVariants.{Memory};
ghost use Rattle.out_entry.specs.Entries.{file_json, ForEntry, IsFile, IsFileName, IsEntry, HasParts, Keeps, entry_text};
ghost use Rattle.out_entry.specs.declared.entry.Entry.{Entry};

use crate::encode::entry_text;
use crate::entry::Entry;
use serde_json::Value as Json;
use std::alloc::{AllocError, Global};
use tree_value::{Digest, FileDigests, Path, PathFault, Sequence, Value};
use value_text::{ValueFault, digest_of, from_json, read_json, to_text};

/// The most bytes of the path of a file in an entry.
pub const MAX_FILE_NAME_LEN: usize = 700;

fn member_text<'j>(json: &'j Json, name: &str) -> Option<&'j str>
    ensures { option_map (λ text. text.now) result ≡ option_and_then as_str (get name.now (view json.now)) }
{
    json.get(name)?.as_str()
}

fn item_text(json: &Json, place: usize) -> Option<&str>
    ensures { option_map (λ text. text.now) result ≡ option_and_then as_str (at place (view json.now)) }
{
    json.get(place)?.as_str()
}

fn generation_of(json: &Json) -> Option<u32>
    ensures { ForEntry (view json.now) (λ entry. result ≡ Some entry.generation) }
{
    u32::try_from(json.get("dest")?.as_u64()?).ok()
}

fn input_of(json: &Json) -> Option<Digest>
    ensures { ForEntry (view json.now) (λ entry. result ≡ Some entry.input) }
{
    digest_of(member_text(json, "input")?)
}

fn task_of(json: &Json) -> Option<&str>
    ensures { ForEntry (view json.now) (λ entry. option_map (λ task. task.now) result ≡ Some entry.task) }
{
    member_text(json, "task")
}

fn value_of(alloc: Global, json: &Json) -> Result<Option<Value>, AllocError>
    ensures found { IfOk result (λ found. ForEntry (view json.now) (λ entry. depth (as_short entry.value) ≤ 64 → found ≡ Some entry.value)) }
    ensures shallow { IfOk result (λ found. IfSome found (λ value. depth (as_short value) ≤ 64)) }
{
    match json.get("value") {
        Some(value) => Ok(from_json(alloc, value)?),
        None => Ok(None),
    }
}

fn file_of(alloc: Global, json: &Json) -> Result<Option<(Path, Digest)>, AllocError>
    ensures { IfOk result (λ found. (file : List ℕ × List ℕ) → IsFile file → view json.now ≡ file_json file → found ≡ Some file) }
{
    let (Some(name), Some(hex)) = (item_text(json, 0), item_text(json, 1)) else {
        return Ok(None);
    };
    let Some(digest) = digest_of(hex) else {
        return Ok(None);
    };
    match Path::of(alloc, name.as_bytes()) {
        Ok(path) => Ok(Some((path, digest))),
        Err(PathFault::BadPath) => Ok(None),
        Err(PathFault::Memory) => Err(AllocError),
    }
}

fn files_of_items(alloc: Global, items: &[Json]) -> Result<Option<FileDigests>, AllocError>
    ensures { IfOk result (λ found. (files : List (List ℕ × List ℕ)) → All IsFile files → items_view items.now ≡ items_of (map file_json files) → found ≡ Some files) }
{
    let mut files = Vec::with_capacity(alloc, items.len())?;
    for item in items {
        match file_of(alloc, item)? {
            Some(file) => files.push(file)?,
            None => return Ok(None),
        }
    }
    Ok(Some(Sequence::from_vec(files)))
}

fn files_of(alloc: Global, json: &Json) -> Result<Option<FileDigests>, AllocError>
    ensures { IfOk result (λ found. ForEntry (view json.now) (λ entry. found ≡ Some entry.files)) }
{
    match json.get("files") {
        Some(Json::Array(items)) => files_of_items(alloc, items),
        _ => Ok(None),
    }
}

// The entry whose JSON this may be: nothing is asked of its generation or the order of its files, and
// further members are passed over.
fn entry_of(alloc: Global, json: &Json) -> Result<Option<Entry>, AllocError>
    ensures found { IfOk result (λ found. ForEntry (view json.now) (λ entry. depth (as_short entry.value) ≤ 64 → found ≡ Some entry)) }
    ensures shallow { IfOk result (λ found. IfSome found (λ entry. depth (as_short entry.value) ≤ 64)) }
{
    let (Some(generation), Some(input), Some(task)) = (
        generation_of(json),
        input_of(json),
        task_of(json),
    ) else {
        return Ok(None);
    };
    let Some(files) = files_of(alloc, json)? else {
        return Ok(None);
    };
    let Some(value) = value_of(alloc, json)? else {
        return Ok(None);
    };
    Ok(Some(Entry {
        task: to_text(alloc, task)?,
        input,
        generation,
        files,
        value,
    }))
}

fn is_rising(files: &[(Path, Digest)]) -> bool
    ensures { IsTrue result ↔ IsTrue (is_sorted path_cmp files.now) }
{
    for place in 1..files.len() {
        if files[place - 1].0.cmp(&files[place].0).is_ge() {
            return false;
        }
    }
    true
}

fn are_named(files: &[(Path, Digest)]) -> bool
    ensures { IsTrue result ↔ All IsFileName files.now }
{
    files.iter().all(|file| file.0.len() > 0 && file.0.len() <= MAX_FILE_NAME_LEN)
}

fn is_entry(entry: &Entry) -> bool
    ensures { IsTrue result ↔ IsEntry entry.now }
{
    let files = entry.files.as_slice();
    entry.generation >= 1 && are_named(files) && is_rising(files)
}

fn has_text(alloc: Global, entry: &Entry, bytes: &[u8]) -> Result<bool, AllocError>
    ensures same { IfOk result (λ same. IsTrue same ↔ (entry_text entry.now ≡ bytes.now)) }
    ensures parts { OnOk result (HasParts entry.now) }
{
    let text = entry_text(alloc, entry)?;
    Ok(text.as_bytes() == bytes)
}

/// The entry that has these bytes, if there is one. Its value has at most 64 levels.
pub fn read_entry(alloc: Global, bytes: &[u8]) -> Result<Option<Entry>, ValueFault>
    ensures entry { IfOk result (λ found. IfSome found (Keeps bytes.now)) }
    ensures every { IfOk result (λ found. (entry : Entry) → Keeps bytes.now entry → found ≡ Some entry) }
    ensures only_memory { IsOkUnless result Memory }
{
    let Some(json) = read_json(alloc, bytes)? else {
        return Ok(None);
    };
    let Some(entry) = entry_of(alloc, &json)? else {
        return Ok(None);
    };
    if !is_entry(&entry) {
        return Ok(None);
    }
    if !has_text(alloc, &entry, bytes)? {
        return Ok(None);
    }
    Ok(Some(entry))
}
