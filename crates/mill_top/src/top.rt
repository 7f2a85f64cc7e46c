//! The top call.

ghost use Rattle.std.specs.Prelude.{◌≡◌, ◌⊎◌, ◌≤◌, [], false, Some, None, IfOk, IfErr, IfSome, IsSome, IsNone, OnOk};
ghost use Rattle.io_traits.specs.Causes.{Rose, HasCause};
ghost use Rattle.mill_top.specs.Graphs.{refusal_of_build, named, plan, plan_in};
ghost use Rattle.mill_top.specs.Words.{asked, explains};
ghost use Rattle.mill_top.specs.Replies.{build_reply, refusal, printed, IsSent, Shown};
ghost use Rattle.mill_top.specs.Walks.{IsReady};
ghost use Rattle.mill_top.specs.Answers.{IsUnlessMemory, IsRecordOf, IsUnfound, IsUnread, IsAnswer, IsAnswerOfLoaded, IsAnswerTo, StandsForMore, StandsForMoreIfRead};
ghost use Rattle.mill_top.specs.Commands.{device, devices, command, IsCommand};

use crate::build_fault::BuildFault;
use crate::evaluating::{Taken, evaluate, store_reply};
use crate::graph::{Graph, graph_of};
use crate::loading::load;
use crate::printing::printed;
use crate::reading::read_files;
use crate::recorded::{Record, Variables, Words};
use crate::reply::Reply;
use crate::sending::send;
use crate::takes::Takes;
use crate::task_file::TaskFile;
use crate::words::{asked, explains};
use io_traits::{IoFault, Sink, Store, Workspace};
use out_store::Out;
use std::alloc::Global;
use tree_value::Text;

/// What a command ends with: its status, the reply that was shown, the tasks that were taken, the record that was
/// read, if any, and the devices.
#[derive(Drop)]
pub struct Told<S, W, K> {
    pub status: u8,
    pub reply: Reply,
    pub takes: Takes,
    pub inputs: Option<Record>,
    pub store: S,
    pub workspace: W,
    pub sink: K,
}

// The reply to a command, the tasks that were taken, the record, and the store.
#[derive(Drop)]
struct Answer<S> {
    reply: Reply,
    takes: Takes,
    inputs: Option<Record>,
    store: S,
}

fn build_reply(fault: BuildFault) -> Reply
    ensures { result ≡ build_reply fault }
{
    if fault.wants_memory() {
        Reply::Memory
    } else {
        Reply::Build(fault)
    }
}

fn no_task(task: &Text) -> Reply
    ensures { IsUnlessMemory result (Reply.NoTask task.now) }
{
    match task.copy() {
        Ok(task) => Reply::NoTask(task),
        Err(_) => Reply::Memory,
    }
}

// The plan of a task of the graph, or that there is no such task.
fn plan_of(alloc: Global, graph: &Graph, task: &Text) -> Result<Vec<TaskFile>, Reply>
    ensures known { OnOk result (IsSome (named graph.now task.now)) }
    ensures plan { IfOk result (λ planned. planned.items ≡ plan_in graph.now task.now) }
    ensures err { IfErr result (λ reply. (reply ≡ Reply.Memory)
        ⊎ ((named graph.now task.now ≡ None) × (reply ≡ Reply.NoTask task.now))) }
{
    match graph.plan(alloc, task) {
        Ok(Some(plan)) => Ok(plan),
        Ok(None) => Err(no_task(task)),
        Err(_) => Err(Reply::Memory),
    }
}

// The plan of the task, or why the record is refused.
fn choose(alloc: Global, inputs: &Record, task: &Text) -> Result<Vec<TaskFile>, Reply>
    ensures ok { IfOk result (λ planned. (refusal inputs.now task.now ≡ None)
        × (planned.items ≡ plan inputs.now.files task.now)) }
    ensures err { IfErr result (λ reply. (reply ≡ Reply.Memory)
        ⊎ (refusal inputs.now task.now ≡ Some reply)) }
{
    match graph_of(alloc, inputs.files.as_slice()) {
        Ok(graph) => plan_of(alloc, &graph, task),
        Err(fault) => Err(build_reply(fault)),
    }
}

// The tasks that are taken over class files that are loaded.
fn taken_of_loaded<S: Store>(alloc: Global, inputs: &Record, task: &Text, out: &mut Out<S>) -> Taken
    requires asks { asked inputs.now.words ≡ Some task.now }
    requires ready { IsReady out.old.numbers (S.content out.old.store) }
    ensures answer { IsAnswerOfLoaded inputs.now task.now
        (S.faults out.old.store) (S.faults out.new.store) out.old.numbers
        (S.content out.old.store) (S.content out.new.store) result.reply result.takes }
    ensures stands { StandsForMore inputs.now result.takes
        (S.content out.old.store) (S.content out.new.store) }
    ensures later { S.faults out.old.store ≤ S.faults out.new.store }
    ensures kept { S.kept out.new.store ≡ S.kept out.old.store }
    ensures plan { S.plan out.new.store ≡ S.plan out.old.store }
{
    match choose(alloc, inputs, task) {
        Ok(plan) => evaluate(alloc, inputs, task, plan.as_slice(), out),
        Err(reply) => Taken::none(alloc, reply),
    }
}

fn taken<S: Store>(alloc: Global, inputs: &Record, task: &Text, out: &mut Out<S>) -> Taken
    requires asks { asked inputs.now.words ≡ Some task.now }
    requires ready { IsReady out.old.numbers (S.content out.old.store) }
    ensures answer { IsAnswer inputs.now task.now
        (S.faults out.old.store) (S.faults out.new.store) out.old.numbers
        (S.content out.old.store) (S.content out.new.store) result.reply result.takes }
    ensures stands { StandsForMore inputs.now result.takes
        (S.content out.old.store) (S.content out.new.store) }
    ensures later { S.faults out.old.store ≤ S.faults out.new.store }
    ensures kept { S.kept out.new.store ≡ S.kept out.old.store }
    ensures plan { S.plan out.new.store ≡ S.plan out.old.store }
{
    match load(alloc, &inputs.files) {
        Ok(_program) => taken_of_loaded(alloc, inputs, task, out),
        Err(fault) => Taken::none(alloc, build_reply(fault)),
    }
}

fn judge<S: Store>(alloc: Global, inputs: Record, task: &Text, mut out: Out<S>) -> Answer<S>
    requires asks { asked inputs.words ≡ Some task.now }
    requires ready { IsReady out.numbers (S.content out.store) }
    ensures inputs { result.inputs ≡ Some inputs }
    ensures answer { IsAnswer inputs task.now (S.faults out.store) (S.faults result.store)
        out.numbers (S.content out.store) (S.content result.store) result.reply result.takes }
    ensures stands { StandsForMore inputs result.takes
        (S.content out.store) (S.content result.store) }
    ensures later { S.faults out.store ≤ S.faults result.store }
    ensures kept { S.kept result.store ≡ S.kept out.store }
    ensures plan { S.plan result.store ≡ S.plan out.store }
{
    let Taken { reply, takes } = taken(alloc, &inputs, task, &mut out);
    Answer {
        reply,
        takes,
        inputs: Some(inputs),
        store: out.end(),
    }
}

fn read_record<W: Workspace>(
    alloc: Global,
    words: &[Text],
    environment: &[(Text, Text)],
    moment: u64,
    workspace: &mut W,
) -> Result<Record, IoFault>
    ensures inputs { IfOk result
        (IsRecordOf words.now environment.now moment (W.content workspace.old)) }
    ensures content { W.content workspace.new ≡ W.content workspace.old }
    ensures cause { HasCause (W.faults workspace.old) (W.faults workspace.new) result }
    ensures kept { W.kept workspace.new ≡ W.kept workspace.old }
    ensures plan { W.plan workspace.new ≡ W.plan workspace.old }
{
    let files = read_files(alloc, workspace)?;
    Ok(Record {
        files,
        environment: Variables::copy_of(alloc, environment)?,
        moment,
        words: Words::copy_of(alloc, words)?,
    })
}

fn unread<S>(alloc: Global, reply: Reply, store: S) -> Answer<S>
    ensures { result ≡ record { reply = reply; takes = []; inputs = None; store = store } }
{
    Answer {
        reply,
        takes: Takes::none(alloc),
        inputs: None,
        store,
    }
}

fn workspace_reply(fault: IoFault) -> Reply
    ensures reply { IsUnlessMemory result Reply.WorkspaceFault }
    ensures cause { result ≡ Reply.WorkspaceFault → fault ≡ IoFault.Failed }
{
    match fault {
        IoFault::Failed => Reply::WorkspaceFault,
        IoFault::Memory => Reply::Memory,
    }
}

// The answer where the store is open.
fn answer_opened<S: Store, W: Workspace>(
    alloc: Global,
    task: &Text,
    words: &[Text],
    environment: &[(Text, Text)],
    moment: u64,
    out: Out<S>,
    workspace: &mut W,
) -> Answer<S>
    requires asks { asked words.now ≡ Some task.now }
    requires ready { IsReady out.numbers (S.content out.store) }
    ensures unread { IsNone result.inputs → IsUnfound (W.faults workspace.old)
        (W.faults workspace.new) (S.content out.store) (S.content result.store) result.reply
        × (result.takes ≡ []) }
    ensures inputs { IfSome result.inputs
        (IsRecordOf words.now environment.now moment (W.content workspace.old)) }
    ensures answer { IfSome result.inputs (λ inputs. IsAnswer inputs task.now (S.faults out.store)
        (S.faults result.store) out.numbers (S.content out.store) (S.content result.store)
        result.reply result.takes) }
    ensures stands { StandsForMoreIfRead result.inputs result.takes
        (S.content out.store) (S.content result.store) }
    ensures workspace { W.content workspace.new ≡ W.content workspace.old }
    ensures store_later { S.faults out.store ≤ S.faults result.store }
    ensures workspace_later { W.faults workspace.old ≤ W.faults workspace.new }
    ensures kept_store { S.kept result.store ≡ S.kept out.store }
    ensures kept_workspace { W.kept workspace.new ≡ W.kept workspace.old }
    ensures plan_store { S.plan result.store ≡ S.plan out.store }
    ensures plan_workspace { W.plan workspace.new ≡ W.plan workspace.old }
{
    match read_record(alloc, words, environment, moment, workspace) {
        Ok(inputs) => judge(alloc, inputs, task, out),
        Err(fault) => unread(alloc, workspace_reply(fault), out.end()),
    }
}

fn answer_words<S: Store, W: Workspace>(
    alloc: Global,
    words: &[Text],
    environment: &[(Text, Text)],
    moment: u64,
    store: S,
    workspace: &mut W,
) -> Answer<S>
    ensures unread { IsNone result.inputs → IsUnread words.now (S.faults store)
        (S.faults result.store) (W.faults workspace.old) (W.faults workspace.new)
        (S.content store) (S.content result.store) result.reply result.takes }
    ensures inputs { IfSome result.inputs
        (IsRecordOf words.now environment.now moment (W.content workspace.old)) }
    ensures answer { IfSome result.inputs (λ inputs. IsAnswerTo words.now inputs
        (S.faults store) (S.faults result.store) (S.content store) (S.content result.store)
        result.reply result.takes) }
    ensures stands { StandsForMoreIfRead result.inputs result.takes
        (S.content store) (S.content result.store) }
    ensures workspace { W.content workspace.new ≡ W.content workspace.old }
    ensures store_later { S.faults store ≤ S.faults result.store }
    ensures workspace_later { W.faults workspace.old ≤ W.faults workspace.new }
    ensures kept_store { S.kept result.store ≡ S.kept store }
    ensures kept_workspace { W.kept workspace.new ≡ W.kept workspace.old }
    ensures plan_store { S.plan result.store ≡ S.plan store }
    ensures plan_workspace { W.plan workspace.new ≡ W.plan workspace.old }
{
    let Some(task) = asked(words) else {
        return unread(alloc, Reply::WordsNotBuilt, store);
    };
    match Out::start(alloc, store) {
        Ok(out) => answer_opened(alloc, task, words, environment, moment, out, workspace),
        Err((store, fault)) => unread(alloc, store_reply(fault), store),
    }
}

// Writes the text, and gives the status, or 7 where the sink failed.
fn send_all<K: Sink>(sink: &mut K, text: &[u8], status: u8) -> u8
    ensures sent { IsSent result status (K.got sink.old) (K.got sink.new)
        (K.faults sink.old) (K.faults sink.new) text.now }
    ensures later { K.faults sink.old ≤ K.faults sink.new }
    ensures kept { K.kept sink.new ≡ K.kept sink.old }
    ensures plan { K.plan sink.new ≡ K.plan sink.old }
{
    match send(sink, text) {
        Ok(()) => status,
        Err(IoFault::Failed) => 7,
        Err(IoFault::Memory) => unreachable!(),
    }
}

// Shows the reply, or that memory is wanted.
#[tactic(auto, unfolding(crate::specs::Replies::printed))]
fn show<K: Sink>(
    alloc: Global,
    sink: &mut K,
    explains: bool,
    takes: &Takes,
    reply: Reply,
) -> (u8, Reply)
    ensures reply { IsUnlessMemory result.1 reply }
    ensures shown { Shown (K.got sink.old) (K.got sink.new)
        (printed explains takes.now result.1) result.1 result.0 }
    ensures fault { result.0 ≡ 7 → Rose (K.faults sink.old) (K.faults sink.new) }
    ensures later { K.faults sink.old ≤ K.faults sink.new }
    ensures kept { K.kept sink.new ≡ K.kept sink.old }
    ensures plan { K.plan sink.new ≡ K.plan sink.old }
{
    match printed(alloc, explains, takes, &reply) {
        Ok(text) => (send_all(sink, text.as_slice(), reply.status()), reply),
        Err(_) => (send_all(sink, b"memory\n", 6), Reply::Memory),
    }
}

/// What a refusal ends with: its status, the reply that was shown, and the sink.
#[derive(Drop)]
pub struct Refused<K> {
    pub status: u8,
    pub reply: Reply,
    pub sink: K,
}

/// Shows a reply alone. Where memory is wanted for its text, the reply that is shown is that.
pub fn refuse<K: Sink>(alloc: Global, mut sink: K, reply: Reply) -> Refused<K>
    ensures reply { IsUnlessMemory result.reply reply }

    // The sink has the reply's line behind what it had, and the status is the reply's; or a front part of it, and the
    // status is 7, only where the sink's count rose.
    ensures shown { Shown (K.got sink) (K.got result.sink)
        (printed false [] result.reply) result.reply result.status }
    ensures sink_fault { result.status ≡ 7 → Rose (K.faults sink) (K.faults result.sink) }
    ensures later { K.faults sink ≤ K.faults result.sink }
    ensures kept { K.kept result.sink ≡ K.kept sink }
    ensures plan { K.plan result.sink ≡ K.plan sink }
{
    let (status, reply) = show(alloc, &mut sink, false, &Takes::none(alloc), reply);
    Refused {
        status,
        reply,
        sink,
    }
}

/// Runs one command over its devices, on this thread.
///
/// The words are `-j 1 show TASK`, or `-j 1 --explain show TASK`, which says before the value which tasks ran, and why.
/// The store is opened once the words are accepted: it loses the generations that no entry which reads publishes. The
/// workspace's class files are loaded: they are a verified program. They are small and linked files, each in its place.
/// The tasks of the plan are taken in order, each once: a task is reused where its entry reads and has its input hash;
/// otherwise it is run, and its log and then its entry are put. The reply goes to the sink.
///
/// The replies and their statuses, in the order in which they are decided: words of another form (2); the store failed
/// as it was opened (4); the workspace failed (5); a class file that is too long, what loading refuses, a class file
/// that is none that is built so far, a task that two files have, an unknown input, a cycle (3); no such task (2); the
/// store failed (4); the value (0). Memory that was wanted has 6. Where the sink fails the status is 7.
pub fn mill_one<S: Store, W: Workspace, K: Sink>(
    alloc: Global,
    words: &[Text],
    environment: &[(Text, Text)],
    moment: u64,
    store: S,
    mut workspace: W,
    mut sink: K,
) -> Told<S, W, K>
    ensures { IsCommand words.now environment.now moment
        (devices
        (device (S.content store) (S.faults store) (S.kept store) (S.plan store))
        (device (W.content workspace) (W.faults workspace) (W.kept workspace) (W.plan workspace))
        (device (K.got sink) (K.faults sink) (K.kept sink) (K.plan sink)))
        (devices
        (device (S.content result.store) (S.faults result.store)
        (S.kept result.store) (S.plan result.store))
        (device (W.content result.workspace) (W.faults result.workspace)
        (W.kept result.workspace) (W.plan result.workspace))
        (device (K.got result.sink) (K.faults result.sink)
        (K.kept result.sink) (K.plan result.sink)))
        (command result.inputs result.takes result.reply result.status) }
{
    let Answer {
        reply,
        takes,
        inputs,
        store,
    } = answer_words(alloc, words, environment, moment, store, &mut workspace);
    let (status, reply) = show(alloc, &mut sink, explains(words), &takes, reply);
    Told {
        status,
        reply,
        takes,
        inputs,
        store,
        workspace,
        sink,
    }
}
