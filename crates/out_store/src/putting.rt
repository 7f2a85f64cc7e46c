//! Putting what a run gave.

ghost use Rattle.std.specs.Prelude.{◌≡◌, ◌≤◌, ◌∷◌, [], All, OnOk, OnErr, IfOk};
ghost use Rattle.out_entry.specs.Entries.{IsFileName, IsEntry, HasParts, entry_text};
ghost use Rattle.out_store.specs.Changes.{puts_in, LeftByPuts};
ghost use Rattle.out_store.specs.Faults.{HasCause};
ghost use Rattle.out_store.specs.Names.{IsTaskName, IsNumber, entry_name, log_name};
ghost use Rattle.out_store.specs.Numbers.{IsNext, Takes};
ghost use Rattle.tree_value.specs.Trees.{IsTree};
ghost use Rattle.out_store.specs.Publishing.{log_text, digests, entry_of, dest_puts, puts_of, WentBy};

use crate::fault::OutFault;
use crate::finished::Finished;
use crate::names::{entry_name, generation_name, log_name};
use crate::numbers::Numbers;
use io_traits::Store;
use out_entry::{Entry, entry_bytes};
use sha2::{Digest as Hasher, Sha256};
use std::alloc::Global;
use tree_value::{Bytes, CopyFault, Digest, FileDigests, Path, Sequence, Text, Tree};

// The log as it is put, with a line feed behind each line.
fn log_bytes(alloc: Global, lines: &[Text]) -> Result<Bytes, CopyFault>
    ensures { IfOk result (λ bytes. bytes ≡ log_text lines.now) }
{
    let mut bytes = Vec::new(alloc);
    for line in lines {
        bytes.extend_from_slice(line.as_slice())?;
        bytes.push(b'\n')?;
    }
    Ok(Bytes::from_vec(bytes))
}

// The paths of the files with the digests of their bytes.
fn digests(alloc: Global, files: &[(Path, Bytes)]) -> Result<FileDigests, CopyFault>
    ensures { IfOk result (λ found. found ≡ digests files.now) }
{
    let mut found = Vec::with_capacity(alloc, files.len())?;
    for (path, bytes) in files {
        found.push((path.copy()?, Digest::of(Sha256::digest(bytes.as_slice()))))?;
    }
    Ok(Sequence::from_vec(found))
}

// A tree is such where it is kept.
fn prove_tree(tree: &Tree)
    ensures { IsTree tree.now }
{
    let _files = tree.as_slice();
}

fn entry_of(alloc: Global, run: &Finished, number: u32) -> Result<Entry, CopyFault>
    ensures { IfOk result (λ entry. entry ≡ entry_of run.now number) }
{
    Ok(Entry {
        task: run.task.copy()?,
        input: run.input,
        generation: number,
        files: digests(alloc, run.dest.as_slice())?,
        value: run.value.copy()?,
    })
}

fn bytes_of(alloc: Global, entry: &Entry) -> Result<Bytes, CopyFault>
    requires { IsEntry entry.now }
    ensures bytes { IfOk result (λ bytes. bytes ≡ entry_text entry.now) }
    ensures parts { OnOk result (HasParts entry.now) }
{
    match entry_bytes(alloc, entry) {
        Ok(bytes) => Ok(bytes),
        Err(_fault) => Err(CopyFault::Memory),
    }
}

/// What is put behind the files of a dest: the log and the entry, each under its name.
#[derive(Drop)]
pub(crate) struct Texts {
    log_name: Path,
    log: Bytes,
    entry_name: Path,
    entry: Bytes,
}

impl Texts {
    pub(crate) fn of(alloc: Global, run: &Finished, number: u32) -> Result<Texts, CopyFault>
        requires task { IsTaskName run.now.task }
        requires number { IsNumber number }
        requires files { All IsFileName run.now.dest }
        ensures log_name { IfOk result (λ texts. texts.log_name ≡ log_name run.now.task) }
        ensures log { IfOk result (λ texts. texts.log ≡ log_text run.now.log) }
        ensures entry_name { IfOk result (λ texts. texts.entry_name ≡ entry_name run.now.task) }
        ensures entry { IfOk result (λ texts. texts.entry ≡ entry_text (entry_of run.now number)) }
        ensures parts { OnOk result (HasParts (entry_of run.now number)) }
    {
        prove_tree(&run.dest);
        let entry = entry_of(alloc, run, number)?;
        Ok(Texts {
            log_name: log_name(alloc, &run.task)?,
            log: log_bytes(alloc, run.log.as_slice())?,
            entry_name: entry_name(alloc, &run.task)?,
            entry: bytes_of(alloc, &entry)?,
        })
    }

    /// Puts the log, and then the entry.
    pub(crate) fn put<S: Store>(&self, store: &mut S) -> Result<(), OutFault>
        ensures ok { OnOk result (S.content store.new ≡ puts_in ((self.now.log_name, self.now.log) ∷ (self.now.entry_name, self.now.entry) ∷ []) (S.content store.old)) }
        ensures err { OnErr result (LeftByPuts ((self.now.log_name, self.now.log) ∷ (self.now.entry_name, self.now.entry) ∷ []) (S.content store.old) (S.content store.new)) }
        ensures cause { HasCause (S.faults store.old) (S.faults store.new) result }
        ensures kept { S.kept store.new ≡ S.kept store.old }
        ensures plan { S.plan store.new ≡ S.plan store.old }
    {
        store.put(&self.log_name, &self.log)?;
        store.put(&self.entry_name, &self.entry)?;
        Ok(())
    }
}

/// Puts the files of a dest under the number, in the order of the list.
pub(crate) fn put_dest<S: Store>(
    alloc: Global,
    store: &mut S,
    task: &Text,
    number: u32,
    files: &[(Path, Bytes)],
) -> Result<(), OutFault>
    requires task { IsTaskName task.now }
    requires number { IsNumber number }
    requires files { All IsFileName files.now }
    ensures ok { OnOk result (S.content store.new ≡ puts_in (dest_puts task.now number files.now) (S.content store.old)) }
    ensures err { OnErr result (LeftByPuts (dest_puts task.now number files.now) (S.content store.old) (S.content store.new)) }
    ensures cause { HasCause (S.faults store.old) (S.faults store.new) result }
    ensures kept { S.kept store.new ≡ S.kept store.old }
    ensures plan { S.plan store.new ≡ S.plan store.old }
{
    for (path, bytes) in files {
        let name = generation_name(alloc, task, number, path)?;
        store.put(&name, bytes)?;
    }
    Ok(())
}

/// Puts the files of the run's dest, the log and the entry.
fn put_run<S: Store>(
    alloc: Global,
    store: &mut S,
    run: &Finished,
    number: u32,
    texts: &Texts,
) -> Result<(), OutFault>
    requires task { IsTaskName run.now.task }
    requires number { IsNumber number }
    requires files { All IsFileName run.now.dest }
    requires log_name { texts.now.log_name ≡ log_name run.now.task }
    requires log { texts.now.log ≡ log_text run.now.log }
    requires entry_name { texts.now.entry_name ≡ entry_name run.now.task }
    requires entry { texts.now.entry ≡ entry_text (entry_of run.now number) }
    ensures ok { OnOk result (S.content store.new ≡ puts_in (puts_of run.now number) (S.content store.old)) }
    ensures err { OnErr result (LeftByPuts (puts_of run.now number) (S.content store.old) (S.content store.new)) }
    ensures cause { HasCause (S.faults store.old) (S.faults store.new) result }
    ensures kept { S.kept store.new ≡ S.kept store.old }
    ensures plan { S.plan store.new ≡ S.plan store.old }
{
    put_dest(alloc, store, &run.task, number, run.dest.as_slice())?;
    texts.put(store)?;
    Ok(())
}

/// Takes the next number, and puts what the run gave under it.
pub(crate) fn put_next<S: Store>(
    alloc: Global,
    store: &mut S,
    numbers: &mut Numbers,
    run: &Finished,
) -> Result<u32, OutFault>
    requires task { IsTaskName run.now.task }
    requires files { All IsFileName run.now.dest }
    ensures next { IfOk result (IsNext numbers.old run.now.task) }
    ensures taken { IfOk result (λ number. Takes numbers.old run.now.task number numbers.new) }
    ensures ok { IfOk result (λ number. S.content store.new ≡ puts_in (puts_of run.now number) (S.content store.old)) }
    ensures went { WentBy run.now numbers.old numbers.new (S.content store.old) (S.content store.new) }
    ensures cause { HasCause (S.faults store.old) (S.faults store.new) result }
    ensures kept { S.kept store.new ≡ S.kept store.old }
    ensures plan { S.plan store.new ≡ S.plan store.old }
{
    let number = numbers.take(&run.task)?;
    let texts = Texts::of(alloc, run, number)?;
    put_run(alloc, store, run, number, &texts)?;
    Ok(number)
}
