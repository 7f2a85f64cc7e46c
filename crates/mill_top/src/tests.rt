//! The top call over devices in memory, row by row.

use crate::small_file::SMALL_TEMPLATE;
use crate::top::mill_one;
use io_traits::{Contents, Leaves, MemSink, MemStore, MemWorkspace};
use std::alloc::{AllocGlobal, Global};
use std::process::Abort;
use std::test::Fail;
use tree_value::{Bytes, Path, Text};

// The entry of the task `a`, of this value. Its input hash is by sha256sum of the input text.
const KEPT_5: &str =
    "{\"dest\":1,\"files\":[],\"input\":\"54f86bfb9a35f9cb2611c512699b1ef30f8e5c10ff34e0eb67cff30c1613775a\",\"task\":\"a\",\"value\":5,\"version\":1}";

const KEPT_6: &str =
    "{\"dest\":1,\"files\":[],\"input\":\"54f86bfb9a35f9cb2611c512699b1ef30f8e5c10ff34e0eb67cff30c1613775a\",\"task\":\"a\",\"value\":6,\"version\":1}";

// The same over the file whose opcode is 2, in the generation behind that.
const KEPT_LESS: &str =
    "{\"dest\":2,\"files\":[],\"input\":\"6e22d8743d0573375f52c324e38cd50642eb239071b88c2aa60ba8dce2c7f7f2\",\"task\":\"a\",\"value\":-1,\"version\":1}";

// No call of a device is planned to fail.
const NEVER: u64 = 0;

// One command over one class file and one entry.
#[derive(Clone, Copy)]
struct Case {
    task: &'static str,
    // The opcode of the class file's constant; any other than 2 to 8 makes it none that is built.
    opcode: u8,
    // What stands under the entry's name, if it isn't empty.
    kept: &'static str,
    // The numbers of the calls that fail.
    store_fails: u64,
    workspace_fails: u64,
    sink_fails: u64,
}

const SHOW_A: Case = Case {
    task: "a",
    opcode: 8,
    kept: "",
    store_fails: NEVER,
    workspace_fails: NEVER,
    sink_fails: NEVER,
};

// What a command has ended with.
#[derive(Drop)]
struct Seen {
    status: u8,
    printed: Bytes,
    // The task's entry, or nothing.
    kept: Bytes,
}

pub(crate) fn class_file(alloc: Global, opcode: u8) -> Result<Bytes, Fail> {
    let mut bytes = Vec::from_slice(alloc, &SMALL_TEMPLATE)?;
    if let Some(place) = bytes.get_mut(139) {
        *place = opcode;
    }
    Ok(Bytes::from_vec(bytes))
}

pub(crate) fn one_file(alloc: Global, path: &str, bytes: &Bytes) -> Result<Contents, Fail> {
    let mut contents = Contents::new(alloc);
    contents.insert(&Path::of(alloc, path.as_bytes())?, bytes)?;
    Ok(contents)
}

fn store(alloc: Global, case: &Case) -> Result<MemStore, Fail> {
    let contents = if case.kept.is_empty() {
        Contents::new(alloc)
    } else {
        one_file(
            alloc,
            "a.json",
            &Bytes::from_slice(alloc, case.kept.as_bytes())?,
        )?
    };
    let failing = vec![in alloc; (case.store_fails, Leaves::Old)]?;
    Ok(MemStore::new(alloc, contents, failing)?)
}

fn workspace(alloc: Global, case: &Case) -> Result<MemWorkspace, Fail> {
    let files = one_file(alloc, "classes/A.class", &class_file(alloc, case.opcode)?)?;
    Ok(MemWorkspace::new(alloc, files, vec![in alloc; case.workspace_fails]?)?)
}

fn sink(alloc: Global, case: &Case) -> Result<MemSink, Fail> {
    let nothing = Bytes::from_vec(Vec::new(alloc));
    Ok(MemSink::new(alloc, nothing, vec![in alloc; case.sink_fails]?)?)
}

pub(crate) fn words(alloc: Global, task: &str) -> Result<Vec<Text>, Fail> {
    let mut words = Vec::new(alloc);
    for word in ["-j", "1", "show", task] {
        words.push(Text::of(alloc, word.as_bytes())?)?;
    }
    Ok(words)
}

// What a command leaves that tests look at.
#[derive(Drop)]
pub(crate) struct Ended {
    pub status: u8,
    pub store: MemStore,
    pub sink: MemSink,
}

// One command. It has no contract, so that what calls it is proved apart from all that `mill_one` says.
pub(crate) fn command(
    alloc: Global,
    words: &[Text],
    store: MemStore,
    workspace: MemWorkspace,
    sink: MemSink,
) -> Ended {
    let told = mill_one(alloc, words, &[], 0, store, workspace, sink);
    Ended {
        status: told.status,
        store: told.store,
        sink: told.sink,
    }
}

// The entry of `a`, or nothing.
fn kept_entry(alloc: Global, held: &Contents) -> Result<Bytes, Fail> {
    match held.get(&Path::of(alloc, b"a.json")?) {
        Some(entry) => Ok(entry.copy()?),
        None => Ok(Bytes::from_vec(Vec::new(alloc))),
    }
}

fn run(alloc: Global, case: &Case) -> Result<Seen, Fail> {
    let words = words(alloc, case.task)?;
    let store = store(alloc, case)?;
    let workspace = workspace(alloc, case)?;
    let sink = sink(alloc, case)?;
    let ended = command(alloc, words.as_slice(), store, workspace, sink);
    Ok(Seen {
        status: ended.status,
        printed: Bytes::from_slice(alloc, ended.sink.as_slice())?,
        kept: kept_entry(alloc, &ended.store.contents())?,
    })
}

// Runs each case and compares status, print and the entry afterwards.
fn judge<R: Abort + AllocGlobal>(rt: &R, cases: &[(Case, u8, &str, &str)]) -> Result<(), Fail> {
    for (case, status, printed, kept) in cases {
        let seen = run(rt.alloc(), case)?;
        assert_eq!(*rt; seen.status, *status, "status of {printed}");
        assert_eq!(*rt;
            seen.printed.as_slice(),
            printed.as_bytes(),
            "print of {printed}"
        );
        assert_eq!(*rt;
            seen.kept.as_slice(),
            kept.as_bytes(),
            "entry after {printed}"
        );
    }
    Ok(())
}

#[test]
fn prints_the_constant_and_then_what_the_entry_says(rt: HostRuntime) -> Result<(), Fail> {
    // A reuse has three calls of the store, which lists and reads at the opening, so that its fourth is planned to fail.
    let reused = Case {
        store_fails: 4,
        kept: KEPT_5,
        ..SHOW_A
    };
    judge(
        &rt,
        &[
            (SHOW_A, 0, "5\n", KEPT_5),
            (reused, 0, "5\n", KEPT_5),
            (
                Case {
                    kept: KEPT_6,
                    ..reused
                },
                0,
                "6\n",
                KEPT_6,
            ),
            (
                Case {
                    kept: "{}",
                    ..SHOW_A
                },
                0,
                "5\n",
                KEPT_5,
            ),
        ],
    )
}

#[test]
fn prints_the_least_constant_over_an_entry_of_another_file(rt: HostRuntime) -> Result<(), Fail> {
    let least = Case {
        opcode: 2,
        kept: KEPT_5,
        ..SHOW_A
    };
    judge(&rt, &[(least, 0, "-1\n", KEPT_LESS)])
}

#[test]
fn refuses_words_builds_and_tasks(rt: HostRuntime) -> Result<(), Fail> {
    judge(
        &rt,
        &[
            (
                Case {
                    task: "1",
                    ..SHOW_A
                },
                2,
                "not built: words\n",
                "",
            ),
            (
                Case {
                    opcode: 9,
                    ..SHOW_A
                },
                3,
                "build: A.a()I: bad frame at 0\n",
                "",
            ),
            (
                Case {
                    task: "b",
                    ..SHOW_A
                },
                2,
                "no task: b\n",
                "",
            ),
        ],
    )
}

#[test]
fn tells_which_device_failed(rt: HostRuntime) -> Result<(), Fail> {
    judge(
        &rt,
        &[
            (
                Case {
                    store_fails: 1,
                    ..SHOW_A
                },
                4,
                "store fault\n",
                "",
            ),
            (
                Case {
                    store_fails: 2,
                    ..SHOW_A
                },
                4,
                "store fault\n",
                "",
            ),
            (
                Case {
                    store_fails: 3,
                    ..SHOW_A
                },
                4,
                "store fault\n",
                "",
            ),
            (
                Case {
                    workspace_fails: 1,
                    ..SHOW_A
                },
                5,
                "workspace fault\n",
                "",
            ),
            (
                Case {
                    workspace_fails: 2,
                    ..SHOW_A
                },
                5,
                "workspace fault\n",
                "",
            ),
            (
                Case {
                    sink_fails: 1,
                    ..SHOW_A
                },
                7,
                "",
                KEPT_5,
            ),
        ],
    )
}
