//! Evaluating a plan: its tasks are taken one after another.

ghost use Rattle.std.specs.Prelude.{◌≡◌, ◌≢◌, ◌≤◌, ◌++◌, ◌∷◌, [], ℕ, ℤ, List, Some, None, IfOk, IfSome, OnOk, OnErr, option_to_list, FitsSigned};
ghost use Rattle.std.specs.Int.{w32};
ghost use Rattle.out_store.specs.Faults.{HasCause};
ghost use Rattle.mill_top.specs.Chains.{IsChain};
ghost use Rattle.mill_top.specs.Graphs.{task_in, task_name, plan};
ghost use Rattle.mill_top.specs.Inputs.{input_hash, IsDigested};
ghost use Rattle.mill_top.specs.Replies.{refusal};
ghost use Rattle.mill_top.specs.Walks.{HasNext, IsReady, IsFileStep, IsWalked, IsStopped};
ghost use Rattle.mill_top.specs.Answers.{IsAnswerOfLoaded, IsEvaluation, StandsForMore};
ghost use Rattle.mill_top.specs.Words.{asked};

use crate::inputs::input_hash;
use crate::recorded::Record;
use crate::reply::Reply;
use crate::takes::Takes;
use crate::taking::{Job, take};
use crate::task_file::TaskFile;
use io_traits::Store;
use out_store::{Out, OutFault};
use std::alloc::Global;
use tree_value::{CopyFault, Text, TextFault};

/// A reply, and the tasks that were taken for it.
#[derive(Drop)]
pub struct Taken {
    pub reply: Reply,
    pub takes: Takes,
}

impl Taken {
    /// A reply for which no task was taken.
    pub fn none(alloc: Global, reply: Reply) -> Taken
        ensures { result ≡ record { reply = reply; takes = [] } }
    {
        Taken {
            reply,
            takes: Takes::none(alloc),
        }
    }
}

// The reply where the store refused a call.
pub(crate) fn store_reply(fault: OutFault) -> Reply
    ensures reply { IsEvaluation result }
    ensures cause { result ≡ Reply.StoreFault → fault ≡ OutFault.Fault }
    ensures no_value { (value : ℤ) → result ≢ Reply.Value value }
{
    match fault {
        OutFault::Fault => Reply::StoreFault,
        OutFault::Memory => Reply::Memory,
    }
}

// The name of a file's task.
fn task_name(alloc: Global, file: TaskFile) -> Result<Text, CopyFault>
    requires low { 97 ≤ file.task }
    requires high { file.task ≤ 122 }
    ensures { IfOk result (λ name. name ≡ task_name file) }
{
    match Text::of(alloc, &[file.task]) {
        Ok(name) => Ok(name),
        Err(TextFault::Memory) => Err(CopyFault::Memory),
        Err(TextFault::BadText) => unreachable!(),
    }
}

fn prepare(
    alloc: Global,
    inputs: &Record,
    file: TaskFile,
    given: Option<i32>,
) -> Result<Job, CopyFault>
    requires known { task_in inputs.now.files (task_name file) ≡ Some file }
    requires low { 97 ≤ file.task }
    requires high { file.task ≤ 122 }
    ensures task { IfOk result (λ job. job.task ≡ task_name file) }
    ensures input { IfOk result (λ job. job.input
        ≡ input_hash inputs.now (task_name file) (option_to_list given)) }
    ensures body { IfOk result (λ job. job.body ≡ file.body) }
    ensures given { IfOk result (λ job. job.given ≡ given) }
    ensures digested { OnOk result (IsDigested inputs.now (task_name file) (option_to_list given)) }
{
    Ok(Job {
        task: task_name(alloc, file)?,
        input: input_hash(alloc, inputs, file, given)?,
        body: file.body,
        given,
    })
}

// The file's task is taken, given the value of its input.
fn take_file<S: Store>(
    alloc: Global,
    inputs: &Record,
    file: TaskFile,
    given: Option<i32>,
    out: &mut Out<S>,
    takes: &mut Takes,
) -> Result<i32, OutFault>
    requires known { task_in inputs.now.files (task_name file) ≡ Some file }
    requires low { 97 ≤ file.task }
    requires high { file.task ≤ 122 }
    requires next { HasNext out.old.numbers (S.content out.old.store) (task_name file) }
    ensures fits { IfOk result (FitsSigned w32) }
    ensures step { IsFileStep inputs.now file given out.old.numbers out.new.numbers
        (S.content out.old.store) (S.content out.new.store) result takes.old takes.new }
    ensures cause { HasCause (S.faults out.old.store) (S.faults out.new.store) result }
    ensures kept { S.kept out.new.store ≡ S.kept out.old.store }
    ensures plan { S.plan out.new.store ≡ S.plan out.old.store }
{
    let job = prepare(alloc, inputs, file, given)?;
    take(alloc, &job, out, takes)
}

// Each task is given the value of the one before it.
fn take_all<S: Store>(
    alloc: Global,
    inputs: &Record,
    plan: &[TaskFile],
    out: &mut Out<S>,
    takes: &mut Takes,
) -> Result<Option<i32>, OutFault>
    requires chain { IsChain inputs.now.files [] plan.now }
    requires empty { takes.old ≡ [] }
    requires ready { IsReady out.old.numbers (S.content out.old.store) }
    ensures fits { IfOk result (λ value. IfSome value (FitsSigned w32)) }
    ensures ok { IfOk result (λ value. IsWalked inputs.now plan.now out.old.numbers out.new.numbers
        (S.content out.old.store) (S.content out.new.store) takes.new [] value) }
    ensures err { OnErr result (IsStopped inputs.now plan.now out.old.numbers out.new.numbers
        (S.content out.old.store) (S.content out.new.store) takes.new) }
    ensures cause { HasCause (S.faults out.old.store) (S.faults out.new.store) result }
    ensures kept { S.kept out.new.store ≡ S.kept out.old.store }
    ensures plan { S.plan out.new.store ≡ S.plan out.old.store }
{
    let mut given = None;
    for file in plan {
        given = Some(take_file(alloc, inputs, *file, given, out, takes)?);
    }
    Ok(given)
}

/// Takes the tasks of a plan over its record.
pub fn evaluate<S: Store>(
    alloc: Global,
    inputs: &Record,
    task: &Text,
    planned: &[TaskFile],
    out: &mut Out<S>,
) -> Taken
    requires asks { asked inputs.now.words ≡ Some task.now }
    requires accepted { refusal inputs.now task.now ≡ None }
    requires is_plan { planned.now ≡ plan inputs.now.files task.now }
    requires ready { IsReady out.old.numbers (S.content out.old.store) }
    ensures answer { IsAnswerOfLoaded inputs.now task.now
        (S.faults out.old.store) (S.faults out.new.store) out.old.numbers
        (S.content out.old.store) (S.content out.new.store) result.reply result.takes }
    ensures stands { StandsForMore inputs.now result.takes
        (S.content out.old.store) (S.content out.new.store) }
    ensures later { S.faults out.old.store ≤ S.faults out.new.store }
    ensures kept { S.kept out.new.store ≡ S.kept out.old.store }
    ensures plan { S.plan out.new.store ≡ S.plan out.old.store }
{
    let mut takes = Takes::none(alloc);
    match take_all(alloc, inputs, planned, out, &mut takes) {
        Ok(Some(value)) => Taken {
            reply: Reply::Value(value),
            takes,
        },
        Ok(None) => unreachable!(),
        Err(fault) => Taken {
            reply: store_reply(fault),
            takes,
        },
    }
}
