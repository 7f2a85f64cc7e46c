//! What the store holds as it is opened: the entries that read, and the generations that none of them publishes.

ghost use Rattle.std.specs.Prelude.{◌≡◌, ◌↔◌, ◌∷◌, ◌++◌, [], ℕ, List, Option, Some, IfOk, OnOk, OnErr, IsTrue, Contains};
ghost use Rattle.io_traits.specs.Files.{Files, names, IsInOrder};
ghost use Rattle.out_entry.specs.declared.entry.Entry.{Entry};
ghost use Rattle.out_store.specs.Changes.{takes_out, LeftByRemoves};
ghost use Rattle.out_store.specs.Faults.{HasCause};
ghost use Rattle.out_store.specs.Generations.{Reads, AreUnpublished, IsUnpublished};
ghost use Rattle.out_store.specs.Opened.{AreBelow, AreKept, AreKeptUnder, IsKeptOf};
ghost use Rattle.out_store.specs.Opening.{Opens, NoneTaken, AreRead, Covers, IsLoose, AreLoose};

use crate::fault::OutFault;
use crate::names::{generation_folder, generation_of, task_of_entry};
use crate::numbers::Numbers;
use crate::reading::look;
use crate::removing::remove_all;
use io_traits::Store;
use out_entry::{Entry, Kept};
use std::alloc::{AllocError, Global};
use tree_value::{CopyFault, Path, Paths, Sequence};

/// What is read as the store is opened: the numbers in use, and the entries without their values.
#[derive(Drop)]
pub(crate) struct Found {
    pub(crate) numbers: Numbers,
    pub(crate) entries: Sequence<Kept>,
}

// Those of the names that begin with these bytes. They stand side by side, since the names are in byte order.
fn names_below<'n>(listed: &'n [Path], folder: &[u8]) -> &'n [Path]
    requires { IsInOrder listed.now }
    ensures { AreBelow folder.now listed.now result.now }
{
    let from = listed.partition_point(|name| name.as_slice().cmp(folder).is_lt());
    let (_before, rest) = listed.split_at(from);
    let count = rest.partition_point(|name| name.as_slice().starts_with(folder));
    let (below, _behind) = rest.split_at(count);
    below
}

fn copy_names(alloc: Global, names: &[Path]) -> Result<Paths, CopyFault>
    ensures { IfOk result (λ copy. copy ≡ names.now) }
{
    let mut copies = Vec::with_capacity(alloc, names.len())?;
    for name in names {
        copies.push(name.copy()?)?;
    }
    Ok(Sequence::from_vec(copies))
}

// What is kept of the entry where these names are listed.
fn keep(alloc: Global, entry: Entry, listed: &[Path]) -> Result<Kept, CopyFault>
    requires { IsInOrder listed.now }
    ensures { IfOk result (λ kept. (files : Files) (task : List ℕ) → listed.now ≡ names files → Reads files task entry → IsKeptOf files entry kept) }
{
    let folder = generation_folder(alloc, &entry.task, entry.generation)?;
    let names = copy_names(alloc, names_below(listed, &folder))?;
    let Entry {
        task,
        input,
        generation,
        files,
        value: _,
    } = entry;
    Ok(Kept {
        task,
        input,
        generation,
        files,
        names,
    })
}

// Notes the generation of the entry that has this name, if it reads, and keeps all of it but its value.
fn read_one<S: Store>(
    alloc: Global,
    store: &mut S,
    name: &Path,
    listed: &[Path],
    numbers: &mut Numbers,
    entries: &mut Vec<Kept>,
) -> Result<(), OutFault>
    requires { IsInOrder listed.now }
    ensures read { OnOk result ((files : Files) → S.content store.old ≡ Some files → AreRead files numbers.old → AreRead files numbers.new) }
    ensures covers { OnOk result ((files : Files) (seen : List (List ℕ)) → S.content store.old ≡ Some files → AreRead files numbers.old → Covers files numbers.old seen → Covers files numbers.new (seen ++ name.now ∷ [])) }
    ensures entries { OnOk result ((files : Files) (seen : List (List ℕ)) → S.content store.old ≡ Some files → listed.now ≡ names files → IsInOrder (seen ++ name.now ∷ []) → AreKeptUnder files seen entries.old.items → AreKeptUnder files (seen ++ name.now ∷ []) entries.new.items) }
    ensures taken { numbers.new.taken ≡ numbers.old.taken }
    ensures content { S.content store.new ≡ S.content store.old }
    ensures cause { HasCause (S.faults store.old) (S.faults store.new) result }
    ensures kept { S.kept store.new ≡ S.kept store.old }
    ensures plan { S.plan store.new ≡ S.plan store.old }
{
    let Some(task) = task_of_entry(alloc, name)? else {
        return Ok(());
    };
    let Some(entry) = look(alloc, store, name, &task)? else {
        return Ok(());
    };
    numbers.open(task, entry.generation)?;
    entries.push(keep(alloc, entry, listed)?)?;
    Ok(())
}

// All entries that read.
fn read_entries<S: Store>(alloc: Global, store: &mut S, listed: &[Path]) -> Result<Found, OutFault>
    requires { IsInOrder listed.now }
    ensures opens { IfOk result (λ found. (files : Files) → S.content store.old ≡ Some files → listed.now ≡ names files → Opens files found.numbers) }
    ensures entries { IfOk result (λ found. (files : Files) → S.content store.old ≡ Some files → listed.now ≡ names files → AreKept files found.entries) }
    ensures taken { IfOk result (λ found. NoneTaken found.numbers) }
    ensures content { S.content store.new ≡ S.content store.old }
    ensures cause { HasCause (S.faults store.old) (S.faults store.new) result }
    ensures kept { S.kept store.new ≡ S.kept store.old }
    ensures plan { S.plan store.new ≡ S.plan store.old }
{
    let mut numbers = Numbers::none(alloc);
    let mut entries = Vec::new(alloc);
    for name in listed {
        read_one(alloc, store, name, listed, &mut numbers, &mut entries)?;
    }
    let entries = Sequence::from_vec(entries);
    Ok(Found { numbers, entries })
}

fn is_loose(alloc: Global, name: &Path, numbers: &Numbers) -> Result<bool, AllocError>
    ensures { IfOk result (λ loose. IsTrue loose ↔ IsLoose numbers.now name.now) }
{
    match generation_of(alloc, name)? {
        Some((task, number)) => Ok(!numbers.is_opening(&task, number)),
        None => Ok(false),
    }
}

// The names of generations that no entry publishes.
fn loose_names(alloc: Global, listed: &[Path], numbers: &Numbers) -> Result<Vec<Path>, CopyFault>
    ensures { IfOk result (λ gone. AreLoose numbers.now listed.now gone.items) }
{
    let mut gone = Vec::new(alloc);
    for name in listed {
        if is_loose(alloc, name, numbers)? {
            gone.push(name.copy()?)?;
        }
    }
    Ok(gone)
}

/// Reads all entries, and takes away the generations that none of them publishes.
pub(crate) fn open<S: Store>(alloc: Global, store: &mut S) -> Result<Found, OutFault>
    ensures ok { IfOk result (λ found. (gone : List (List ℕ)) × (S.content store.new ≡ takes_out gone (S.content store.old))
        × ((files : Files) → S.content store.old ≡ Some files → AreUnpublished files gone × Opens files found.numbers)) }
    ensures entries { IfOk result (λ found. (files : Files) → S.content store.old ≡ Some files → AreKept files found.entries) }
    ensures taken { IfOk result (λ found. NoneTaken found.numbers) }
    ensures err { OnErr result ((gone : List (List ℕ)) × LeftByRemoves gone (S.content store.old) (S.content store.new)
        × ((files : Files) → S.content store.old ≡ Some files → (name : List ℕ) → Contains gone name → IsUnpublished files name)) }
    ensures cause { HasCause (S.faults store.old) (S.faults store.new) result }
    ensures kept { S.kept store.new ≡ S.kept store.old }
    ensures plan { S.plan store.new ≡ S.plan store.old }
{
    let listed = store.list()?;
    let found = read_entries(alloc, store, &listed)?;
    let gone = loose_names(alloc, &listed, &found.numbers)?;
    remove_all(store, &gone)?;
    Ok(found)
}
