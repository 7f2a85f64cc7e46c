//! Taking a task: its entry is reused, or it is run and what the run gave is published.

ghost use Rattle.std.specs.Prelude.{◌≡◌, ◌≢◌, ◌++◌, ◌∷◌, [], ℕ, ℤ, IfOk, IfSome, IsNone, MatchResult, OnOk, OnErr, FitsSigned};
ghost use Rattle.std.specs.Int.{w32};
ghost use Rattle.value_text.specs.Short.{as_short, int};
ghost use Rattle.out_store.specs.Faults.{HasCause};
ghost use Rattle.out_store.specs.Generations.{Reads};
ghost use Rattle.out_store.specs.Names.{IsTaskName};
ghost use Rattle.out_store.specs.Publishing.{LeftByPublish};
ghost use Rattle.out_store.specs.Standing.{row_of};
ghost use Rattle.mill_top.specs.declared.takes.FoundEntry.{FoundEntry};
ghost use Rattle.mill_top.specs.Scratch.{result_of, value_of};
ghost use Rattle.mill_top.specs.Takes.{Why, IsNew};
ghost use Rattle.mill_top.specs.Leaving.{finished_by};
ghost use Rattle.mill_top.specs.Walks.{HasNext, IsPut, IsJobStep, LeavesStanding};

use crate::outcome::{Outcome, run};
use crate::takes::{FoundEntry, Takes};
use crate::task_file::Body;
use io_traits::Store;
use out_entry::Entry;
use out_store::{Finished, Out, OutFault};
use std::alloc::Global;
use tree_value::{CopyFault, Digest, Text, Tree, Value};

/// A task that is to be taken: its name, its input hash, its body, and the value of the body's input, if it has one.
#[derive(Drop)]
pub struct Job {
    pub task: Text,
    pub input: Digest,
    pub body: Body,
    pub given: Option<i32>,
}

// The int that a value is.
fn int_of(value: &Value) -> Option<i32>
    ensures some { IfSome result (λ number. as_short value.now ≡ int number) }
    ensures fits { IfSome result (FitsSigned w32) }
    ensures none { IsNone result → (number : ℤ) → as_short value.now ≢ int number }
{
    match value {
        Value::Int(number) => Some(*number),
        Value::Null
        | Value::Bool(_)
        | Value::Long(_)
        | Value::Text(_)
        | Value::List(_)
        | Value::Ref(_) => None,
    }
}

// A tree without files.
fn no_files(alloc: Global) -> Tree
    ensures { result ≡ [] }
{
    match Tree::of(alloc, Vec::new(alloc)) {
        Ok(tree) => tree,
        Err(_) => unreachable!(),
    }
}

// What the run of the task with this outcome gave.
fn finish(alloc: Global, job: &Job, outcome: Outcome) -> Result<Finished, CopyFault>
    ensures { IfOk result (λ finished. finished ≡ finished_by job.now.task job.now.input outcome) }
{
    let Outcome::Returns(value, log) = outcome;
    Ok(Finished {
        task: job.task.copy()?,
        input: job.input,
        value: Value::Int(value),
        dest: no_files(alloc),
        log,
    })
}

// The outcome of a run is published.
fn keep<S: Store>(
    alloc: Global,
    job: &Job,
    outcome: Outcome,
    out: &mut Out<S>,
) -> Result<u32, OutFault>
    requires { IsTaskName job.now.task }
    ensures ok { IfOk result (IsPut (finished_by job.now.task job.now.input outcome) out.old.numbers
        out.new.numbers (S.content out.old.store) (S.content out.new.store)) }
    ensures err { OnErr result (LeftByPublish (finished_by job.now.task job.now.input outcome)
        out.old.numbers out.new.numbers (S.content out.old.store) (S.content out.new.store)) }
    ensures rows { LeavesStanding out.old.numbers out.new.numbers (S.content out.old.store)
        (S.content out.new.store) (row_of (finished_by job.now.task job.now.input outcome) ∷ []) }
    ensures cause { HasCause (S.faults out.old.store) (S.faults out.new.store) result }
    ensures kept { S.kept out.new.store ≡ S.kept out.old.store }
    ensures plan { S.plan out.new.store ≡ S.plan out.old.store }
{
    let finished = finish(alloc, job, outcome)?;
    out.publish(&finished)
}

// The task is run.
fn run_task<S: Store>(
    alloc: Global,
    job: &Job,
    found: FoundEntry,
    out: &mut Out<S>,
    takes: &mut Takes,
) -> Result<i32, OutFault>
    requires named { IsTaskName job.now.task }
    requires is_new { IsNew found }
    requires why { IfSome (S.content out.old.store)
        (λ files. Why files job.now.task job.now.input found) }
    requires next { HasNext out.old.numbers (S.content out.old.store) job.now.task }
    ensures fits { IfOk result (FitsSigned w32) }
    ensures step { IsJobStep job.now out.old.numbers out.new.numbers (S.content out.old.store)
        (S.content out.new.store) result takes.old takes.new }
    ensures cause { HasCause (S.faults out.old.store) (S.faults out.new.store) result }
    ensures kept { S.kept out.new.store ≡ S.kept out.old.store }
    ensures plan { S.plan out.new.store ≡ S.plan out.old.store }
{
    takes.push(job.task.copy()?, found)?;
    let outcome = run(alloc, job.body, job.given);
    let value = outcome.value();
    keep(alloc, job, outcome, out)?;
    Ok(value)
}

// The value of the task's entry is reused.
fn reuse(job: &Job, value: i32, takes: &mut Takes) -> Result<i32, OutFault>
    ensures fits { IfOk result (FitsSigned w32) }
    ensures value { IfOk result (λ reused. reused ≡ value) }
    ensures ok { OnOk result
        (takes.new ≡ takes.old ++ (job.now.task, FoundEntry.Same job.now.input) ∷ []) }
    ensures err { OnErr result (takes.new ≡ takes.old) }
    ensures only_memory { result ≡ Err OutFault.Fault → ⊥ }
{
    takes.push(job.task.copy()?, FoundEntry::Same(job.input))?;
    Ok(value)
}

// The task has an entry that reads.
fn take_over<S: Store>(
    alloc: Global,
    job: &Job,
    entry: &Entry,
    out: &mut Out<S>,
    takes: &mut Takes,
) -> Result<i32, OutFault>
    requires named { IsTaskName job.now.task }
    requires reads { IfSome (S.content out.old.store)
        (λ files. Reads files job.now.task entry.now) }
    requires next { HasNext out.old.numbers (S.content out.old.store) job.now.task }
    ensures fits { IfOk result (FitsSigned w32) }
    ensures step { IsJobStep job.now out.old.numbers out.new.numbers (S.content out.old.store)
        (S.content out.new.store) result takes.old takes.new }
    ensures cause { HasCause (S.faults out.old.store) (S.faults out.new.store) result }
    ensures kept { S.kept out.new.store ≡ S.kept out.old.store }
    ensures plan { S.plan out.new.store ≡ S.plan out.old.store }
{
    if entry.input == job.input {
        match int_of(&entry.value) {
            Some(value) => reuse(job, value, takes),
            None => run_task(alloc, job, FoundEntry::Missing, out, takes),
        }
    } else {
        run_task(alloc, job, FoundEntry::Other(entry.input), out, takes)
    }
}

/// Takes a task: its value is that of its entry, where this has the task's input hash, or else that of its run.
pub fn take<S: Store>(
    alloc: Global,
    job: &Job,
    out: &mut Out<S>,
    takes: &mut Takes,
) -> Result<i32, OutFault>
    requires named { IsTaskName job.now.task }
    requires next { HasNext out.old.numbers (S.content out.old.store) job.now.task }
    ensures fits { IfOk result (FitsSigned w32) }
    ensures step { IsJobStep job.now out.old.numbers out.new.numbers (S.content out.old.store)
        (S.content out.new.store) result takes.old takes.new }
    ensures cause { HasCause (S.faults out.old.store) (S.faults out.new.store) result }
    ensures kept { S.kept out.new.store ≡ S.kept out.old.store }
    ensures plan { S.plan out.new.store ≡ S.plan out.old.store }
{
    match out.entry(&job.task)? {
        Some(entry) => take_over(alloc, job, &entry, out, takes),
        None => run_task(alloc, job, FoundEntry::Missing, out, takes),
    }
}
