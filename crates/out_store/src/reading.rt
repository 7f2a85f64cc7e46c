//! Reading entries.

ghost use Rattle.std.specs.Prelude.{◌≡◌, Some, IfOk, IfSome, ℕ};
ghost use Rattle.out_entry.specs.Entries.{Keeps};
ghost use Rattle.out_entry.specs.declared.entry.Entry.{Entry};
ghost use Rattle.out_store.specs.Faults.{HasCause};
ghost use Rattle.out_store.specs.Generations.{IsFound};
ghost use Rattle.out_store.specs.Names.{IsTaskName, entry_name};

use crate::fault::OutFault;
use io_traits::Store;
use out_entry::{Entry, read_entry};
use std::alloc::{AllocError, Global};
use tree_value::{Path, Text};

// The entry of the task that has these bytes.
fn read_own(alloc: Global, bytes: &[u8], task: &Text) -> Result<Option<Entry>, AllocError>
    ensures entry { IfOk result (λ found. IfSome found (λ entry. Keeps bytes.now entry × (entry.task ≡ task.now))) }
    ensures every { IfOk result (λ found. (entry : Entry) → Keeps bytes.now entry → entry.task ≡ task.now → found ≡ Some entry) }
{
    let Ok(found) = read_entry(alloc, bytes) else {
        return Err(AllocError);
    };
    let Some(entry) = found else {
        return Ok(None);
    };
    if entry.task == *task {
        Ok(Some(entry))
    } else {
        Ok(None)
    }
}

/// The entry of the task, if the bytes under its name are one.
pub(crate) fn look<S: Store>(
    alloc: Global,
    store: &mut S,
    name: &Path,
    task: &Text,
) -> Result<Option<Entry>, OutFault>
    requires named { IsTaskName task.now }
    requires name { name.now ≡ entry_name task.now }
    ensures found { IfOk result (λ found. IfSome (S.content store.old) (λ files. IsFound files task.now found)) }
    ensures content { S.content store.new ≡ S.content store.old }
    ensures cause { HasCause (S.faults store.old) (S.faults store.new) result }
    ensures kept { S.kept store.new ≡ S.kept store.old }
    ensures plan { S.plan store.new ≡ S.plan store.old }
{
    match store.get(name)? {
        Some(bytes) => Ok(read_own(alloc, bytes.as_slice(), task)?),
        None => Ok(None),
    }
}
