//! Builds of several class files, step by step over one store.

use crate::linked_file::LINKED_TEMPLATE;
use crate::small_file::SMALL_TEMPLATE;
use crate::tests::command;
use io_traits::{Contents, MemSink, MemStore, MemWorkspace};
use std::alloc::{AllocGlobal, Global};
use std::process::Abort;
use std::test::Fail;
use tree_value::{Bytes, Path, Text};

// A class file by its free bytes.
#[derive(Clone, Copy)]
enum Form {
    Small {
        class: u8,
        task: u8,
        opcode: u8,
    },
    Linked {
        class: u8,
        task: u8,
        input: u8,
        opcode: u8,
        operation: u8,
    },
}

// A command over these class files, and what it is answered.
#[derive(Clone, Copy)]
struct Step<'a> {
    files: &'a [Form],
    words: &'static [&'static str],
    status: u8,
    printed: &'static str,
}

const SHOW_A: &[&str] = &["-j", "1", "show", "a"];

const EXPLAIN_C: &[&str] = &["-j", "1", "--explain", "show", "c"];

const A_IS_5: Form = Form::Small {
    class: b'A',
    task: b'a',
    opcode: 8,
};

const B_ADDS_5: Form = Form::Linked {
    class: b'B',
    task: b'b',
    input: b'a',
    opcode: 8,
    operation: 0x60,
};

const C_TAKES_3: Form = Form::Linked {
    class: b'C',
    task: b'c',
    input: b'a',
    opcode: 6,
    operation: 0x64,
};

const C_TWICE_B: Form = Form::Linked {
    class: b'C',
    task: b'c',
    input: b'b',
    opcode: 5,
    operation: 0x68,
};

fn set(bytes: &mut Vec<u8>, at: usize, byte: u8) {
    if let Some(place) = bytes.get_mut(at) {
        *place = byte;
    }
}

fn class_file(alloc: Global, form: &Form) -> Result<(u8, Bytes), Fail> {
    match *form {
        Form::Small {
            class,
            task,
            opcode,
        } => {
            let mut bytes = Vec::from_slice(alloc, &SMALL_TEMPLATE)?;
            set(&mut bytes, 13, class);
            set(&mut bytes, 42, task);
            set(&mut bytes, 139, opcode);
            Ok((class, Bytes::from_vec(bytes)))
        }
        Form::Linked {
            class,
            task,
            input,
            opcode,
            operation,
        } => {
            let mut bytes = Vec::from_slice(alloc, &LINKED_TEMPLATE)?;
            set(&mut bytes, 13, class);
            set(&mut bytes, 42, task);
            set(&mut bytes, 118, input);
            set(&mut bytes, 154, opcode);
            set(&mut bytes, 155, operation);
            Ok((class, Bytes::from_vec(bytes)))
        }
    }
}

fn class_path(alloc: Global, class: u8) -> Result<Path, Fail> {
    let mut path = Vec::from_slice(alloc, b"classes/")?;
    path.push(class)?;
    path.extend_from_slice(b".class")?;
    Ok(Path::of(alloc, path.as_slice())?)
}

fn workspace(alloc: Global, files: &[Form]) -> Result<MemWorkspace, Fail> {
    let mut contents = Contents::new(alloc);
    for form in files {
        let (class, bytes) = class_file(alloc, form)?;
        contents.insert(&class_path(alloc, class)?, &bytes)?;
    }
    Ok(MemWorkspace::new(alloc, contents, Vec::new(alloc))?)
}

fn words(alloc: Global, words: &[&str]) -> Result<Vec<Text>, Fail> {
    let mut texts = Vec::new(alloc);
    for word in words {
        texts.push(Text::of(alloc, word.as_bytes())?)?;
    }
    Ok(texts)
}

// What a command has ended with.
#[derive(Drop)]
struct Seen {
    status: u8,
    printed: Bytes,
    store: MemStore,
}

fn run(alloc: Global, step: &Step<'_>, store: MemStore) -> Result<Seen, Fail> {
    let words = words(alloc, step.words)?;
    let nothing = Bytes::from_vec(Vec::new(alloc));
    let ended = command(
        alloc,
        words.as_slice(),
        store,
        workspace(alloc, step.files)?,
        MemSink::new(alloc, nothing, Vec::new(alloc))?,
    );
    Ok(Seen {
        status: ended.status,
        printed: Bytes::from_slice(alloc, ended.sink.as_slice())?,
        store: ended.store,
    })
}

// Makes the steps one after another from an empty store, and gives the names that it holds at the end.
fn play<R: Abort + AllocGlobal>(rt: &R, steps: &[Step<'_>]) -> Result<Vec<Path>, Fail> {
    let alloc = rt.alloc();
    let mut store = MemStore::new(alloc, Contents::new(alloc), Vec::new(alloc))?;
    for step in steps {
        let seen = run(alloc, step, store)?;
        assert_eq!(*rt; seen.status, step.status, "status of {}", step.printed);
        assert_eq!(*rt; seen.printed.as_slice(), step.printed.as_bytes());
        store = seen.store;
    }
    Ok(store.contents().names()?)
}

#[test]
fn a_task_that_is_not_asked_for_does_not_run(rt: HostRuntime) -> Result<(), Fail> {
    let names = play(
        &rt,
        &[Step {
            files: &[A_IS_5, B_ADDS_5, C_TAKES_3],
            words: EXPLAIN_C,
            status: 0,
            printed: "a ran: missing\nc ran: missing\n2\n",
        }],
    )?;
    assert_eq!(rt; names.len(), 4);
    Ok(())
}

#[test]
fn refused_graphs_are_named(rt: HostRuntime) -> Result<(), Fail> {
    let refused = Step {
        files: &[A_IS_5, B_ADDS_5],
        words: SHOW_A,
        status: 3,
        printed: "",
    };
    play(
        &rt,
        &[
            Step {
                files: &[
                    A_IS_5,
                    B_ADDS_5,
                    Form::Small {
                        class: b'D',
                        task: b'b',
                        opcode: 8,
                    },
                ],
                printed: "build: duplicate task b\n",
                ..refused
            },
            Step {
                files: &[
                    A_IS_5,
                    C_TWICE_B,
                    Form::Linked {
                        class: b'D',
                        task: b'b',
                        input: b'c',
                        opcode: 8,
                        operation: 0x60,
                    },
                ],
                printed: "build: cycle through b\n",
                ..refused
            },
            Step {
                words: EXPLAIN_C,
                status: 2,
                printed: "no task: c\n",
                ..refused
            },
        ],
    )?;
    Ok(())
}

// Class `A` with the task `a`, which is 5, and 25 more, each of which adds 1 to the task of the letter before it.
fn chain(alloc: Global) -> Result<Vec<Form>, Fail> {
    let mut forms = Vec::new(alloc);
    forms.push(A_IS_5)?;
    let letters = b"ABCDEFGHIJKLMNOPQRSTUVWXYZ".iter();
    let tasks = b"abcdefghijklmnopqrstuvwxyz";
    for ((class, task), input) in letters.zip(tasks).skip(1).zip(tasks) {
        forms.push(Form::Linked {
            class: *class,
            task: *task,
            input: *input,
            opcode: 4,
            operation: 0x60,
        })?;
    }
    Ok(forms)
}

#[test]
fn a_chain_of_all_tasks_is_added_up(rt: HostRuntime) -> Result<(), Fail> {
    let forms = chain(rt.alloc())?;
    let names = play(
        &rt,
        &[Step {
            files: forms.as_slice(),
            words: &["-j", "1", "show", "z"],
            status: 0,
            printed: "30\n",
        }],
    )?;
    assert_eq!(rt; names.len(), 52);
    Ok(())
}
