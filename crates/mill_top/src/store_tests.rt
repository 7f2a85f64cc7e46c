//! The top call over stores that hold several files, and over stores of which each call fails once.

use crate::tests::{class_file, command, one_file, words};
use io_traits::{Contents, Leaves, MemSink, MemStore, MemWorkspace};
use std::alloc::Global;
use std::test::Fail;
use tree_value::{Bytes, Path};

// Names and texts of a store.
type Texts = &'static [(&'static str, &'static str)];

// No call of a device is planned to fail.
const NEVER: u64 = 0;

// The entry of the task `a` of value 5. Its input hash is by sha256sum of the input text.
const FIVE: &str =
    "{\"dest\":1,\"files\":[],\"input\":\"54f86bfb9a35f9cb2611c512699b1ef30f8e5c10ff34e0eb67cff30c1613775a\",\"task\":\"a\",\"value\":5,\"version\":1}";

// The entry of `a` over a class file of another constant.
const OTHER: &str =
    "{\"dest\":2,\"files\":[],\"input\":\"6e22d8743d0573375f52c324e38cd50642eb239071b88c2aa60ba8dce2c7f7f2\",\"task\":\"a\",\"value\":-1,\"version\":1}";

// A command over a class file whose task `a` is 5, the call of the store that fails, and what is then.
#[derive(Clone, Copy)]
struct Case {
    task: &'static str,
    before: Texts,
    fails: (u64, Leaves),
    workspace_fails: u64,
    status: u8,
    printed: &'static str,
    after: Texts,
}

const LOOSE: Texts = &[
    ("a.dest/g1/x", "1"),
    ("a.dest/readme", "2"),
    ("a.json", OTHER),
];

const OPENED: Texts = &[("a.dest/readme", "2"), ("a.json", OTHER)];

const SHOW_A: Case = Case {
    task: "a",
    before: LOOSE,
    fails: (NEVER, Leaves::Old),
    workspace_fails: NEVER,
    status: 0,
    printed: "5\n",
    after: &[("a.dest/readme", "2"), ("a.json", FIVE), ("a.log", "")],
};

const CASES: [Case; 6] = [
    SHOW_A,
    Case {
        task: "1",
        status: 2,
        printed: "not built: words\n",
        after: LOOSE,
        ..SHOW_A
    },
    // The listing fails, so the workspace isn't read.
    Case {
        fails: (1, Leaves::Old),
        workspace_fails: 1,
        status: 4,
        printed: "store fault\n",
        after: LOOSE,
        ..SHOW_A
    },
    Case {
        workspace_fails: 1,
        status: 5,
        printed: "workspace fault\n",
        after: OPENED,
        ..SHOW_A
    },
    Case {
        task: "b",
        status: 2,
        printed: "no task: b\n",
        after: OPENED,
        ..SHOW_A
    },
    // The put of the entry fails.
    Case {
        fails: (6, Leaves::Old),
        status: 4,
        printed: "store fault\n",
        after: &[("a.dest/readme", "2"), ("a.json", OTHER), ("a.log", "")],
        ..SHOW_A
    },
];

// A command over these files lists the store, reads the entry, removes the file of a generation that isn't published,
// reads the entry again, and puts the log and the entry.
const CALLS: u64 = 6;

// What a command has ended with.
#[derive(Drop)]
struct Seen {
    status: u8,
    printed: Bytes,
    held: Contents,
}

fn held(alloc: Global, texts: &[(&str, &str)]) -> Result<Contents, Fail> {
    let mut contents = Contents::new(alloc);
    for (name, text) in texts {
        contents.insert(
            &Path::of(alloc, name.as_bytes())?,
            &Bytes::from_slice(alloc, text.as_bytes())?,
        )?;
    }
    Ok(contents)
}

fn run(
    alloc: Global,
    task: &str,
    held: Contents,
    fails: (u64, Leaves),
    workspace_fails: u64,
) -> Result<Seen, Fail> {
    let files = one_file(alloc, "classes/A.class", &class_file(alloc, 8)?)?;
    let nothing = Bytes::from_vec(Vec::new(alloc));
    let words = words(alloc, task)?;
    let ended = command(
        alloc,
        words.as_slice(),
        MemStore::new(alloc, held, vec![in alloc; fails]?)?,
        MemWorkspace::new(alloc, files, vec![in alloc; workspace_fails]?)?,
        MemSink::new(alloc, nothing, Vec::new(alloc))?,
    );
    Ok(Seen {
        status: ended.status,
        printed: Bytes::from_slice(alloc, ended.sink.as_slice())?,
        held: ended.store.contents(),
    })
}

fn is_seen(
    alloc: Global,
    seen: &Seen,
    status: u8,
    printed: &str,
    after: &[(&str, &str)],
) -> Result<bool, Fail> {
    let expected = held(alloc, after)?;
    Ok(
        seen.status == status
            && seen.printed.as_slice() == printed.as_bytes()
            && seen.held.as_slice() == expected.as_slice(),
    )
}

fn ends_as_told(alloc: Global, case: &Case) -> Result<bool, Fail> {
    let seen = run(
        alloc,
        case.task,
        held(alloc, case.before)?,
        case.fails,
        case.workspace_fails,
    )?;
    is_seen(alloc, &seen, case.status, case.printed, case.after)
}

#[test]
fn the_store_is_opened_before_the_workspace_is_read(rt: HostRuntime) -> Result<(), Fail> {
    for case in &CASES {
        assert!(rt; ends_as_told(rt.alloc(), case)?, "after {}", case.printed);
    }
    Ok(())
}

// Whether a command whose store fails at this call says so, and the next one prints the value and leaves what is
// published alone.
fn recovers(alloc: Global, call: u64, leaves: Leaves) -> Result<bool, Fail> {
    let first = run(alloc, "a", held(alloc, LOOSE)?, (call, leaves), NEVER)?;
    let (status, printed) = if call <= CALLS {
        (4, "store fault\n")
    } else {
        (0, "5\n")
    };
    let told = first.status == status && first.printed.as_slice() == printed.as_bytes();
    let second = run(alloc, "a", first.held, (NEVER, Leaves::Old), NEVER)?;
    Ok(told && is_seen(alloc, &second, SHOW_A.status, SHOW_A.printed, SHOW_A.after)?)
}

#[test]
fn the_next_command_prints_the_value_whichever_call_failed(rt: HostRuntime) -> Result<(), Fail> {
    for call in 1..=CALLS + 1 {
        for leaves in [Leaves::Old, Leaves::New, Leaves::Nothing] {
            assert!(rt;
                recovers(rt.alloc(), call, leaves)?,
                "call {call} left {leaves:?}"
            );
        }
    }
    Ok(())
}
