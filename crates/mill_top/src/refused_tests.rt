//! Builds that are refused, each with its line.

use crate::build_fault::BuildFault;
use crate::small_file::{CLASS_AT, SMALL_TEMPLATE};
use crate::tests::{command, words};
use class_read::{Limit, LoadFault};
use io_traits::{Contents, MemSink, MemStore, MemWorkspace};
use std::alloc::{AllocGlobal, Global};
use std::process::Abort;
use std::test::Fail;
use tree_value::{Bytes, Path};

// A file that is the small class file but for what is said.
#[derive(Clone, Copy)]
struct Broken {
    path: &'static str,
    // Its class's name, where it isn't one byte.
    class: &'static [u8],
    // Bytes by their offsets.
    changes: &'static [(usize, u8)],
    // How many of its bytes are left.
    left: usize,
    // Bytes behind it.
    behind: &'static [u8],
}

const WHOLE: Broken = Broken {
    path: "classes/A.class",
    class: b"A",
    changes: &[],
    left: 200,
    behind: b"",
};

// Each alone in its build, with its line.
const CLASSES: [(Broken, &str); 25] = [
    (
        Broken {
            changes: &[(139, 0x0b)],
            ..WHOLE
        },
        "build: A.a()I: float used\n",
    ),
    (
        Broken {
            changes: &[(139, 0xca)],
            ..WHOLE
        },
        "build: A.a()I: bad code at 0\n",
    ),
    (
        Broken {
            changes: &[(139, 0xa7)],
            ..WHOLE
        },
        "build: A.a()I: bad code at 0\n",
    ),
    (
        Broken {
            changes: &[(139, 0x57)],
            ..WHOLE
        },
        "build: A.a()I: bad frame at 0\n",
    ),
    (
        Broken {
            changes: &[(139, 0xac)],
            ..WHOLE
        },
        "build: A.a()I: bad frame at 0\n",
    ),
    (
        Broken {
            changes: &[(140, 0x00)],
            ..WHOLE
        },
        "build: A.a()I: bad frame at 1\n",
    ),
    (
        Broken {
            changes: &[(42, b'f'), (48, b'F')],
            ..WHOLE
        },
        "build: A.f()F: float used\n",
    ),
    (
        Broken {
            changes: &[(0, 0)],
            ..WHOLE
        },
        "build: classes/A.class: bad magic\n",
    ),
    (
        Broken {
            changes: &[(7, 0x33)],
            ..WHOLE
        },
        "build: classes/A.class: bad major 51\n",
    ),
    (
        Broken { left: 9, ..WHOLE },
        "build: classes/A.class: cut short at 8\n",
    ),
    (
        Broken {
            changes: &[(9, 0x0c)],
            ..WHOLE
        },
        "build: classes/A.class: bad tag 0 at 105\n",
    ),
    (
        Broken {
            changes: &[(13, 0x80)],
            ..WHOLE
        },
        "build: classes/A.class: bad text at 10\n",
    ),
    (
        Broken {
            changes: &[(110, 0x05)],
            ..WHOLE
        },
        "build: classes/A.class: bad index at 109\n",
    ),
    (
        Broken {
            changes: &[(138, 0x00)],
            ..WHOLE
        },
        "build: classes/A.class: bad attribute at 125\n",
    ),
    (
        Broken {
            changes: &[(146, 0x07)],
            ..WHOLE
        },
        "build: classes/A.class: second attribute at 145\n",
    ),
    (
        Broken {
            changes: &[(126, 0x05)],
            ..WHOLE
        },
        "build: classes/A.class: code missing at 117\n",
    ),
    (
        Broken {
            behind: b"\0",
            ..WHOLE
        },
        "build: classes/A.class: bytes left at 164\n",
    ),
    (
        Broken {
            class: b"java/lang/String",
            ..WHOLE
        },
        "build: duplicate class java/lang/String\n",
    ),
    (
        Broken {
            changes: &[(35, b'x')],
            ..WHOLE
        },
        "build: missing super java/lang/Objecx\n",
    ),
    (
        Broken {
            changes: &[(110, 0x02)],
            ..WHOLE
        },
        "build: cyclic super A\n",
    ),
    (
        Broken {
            class: b"A\x01",
            changes: &[(139, 0x0b)],
            ..WHOLE
        },
        "build: A\\u0001.a()I: float used\n",
    ),
    (
        Broken {
            class: b"\\\x7f",
            changes: &[(139, 0x0b)],
            ..WHOLE
        },
        "build: \\\\\\u007f.a()I: float used\n",
    ),
    (
        Broken {
            path: "classes/\u{1}\\.class",
            left: 9,
            ..WHOLE
        },
        "build: classes/\\u0001\\\\.class: cut short at 8\n",
    ),
    (
        Broken {
            changes: &[(5, 1)],
            ..WHOLE
        },
        "not built: classes/A.class\n",
    ),
    (
        Broken {
            path: "classes/\u{1}\\.class",
            ..WHOLE
        },
        "not built: classes/\\u0001\\\\.class\n",
    ),
];

fn small(alloc: Global, broken: &Broken) -> Result<Bytes, Fail> {
    let mut bytes = Vec::new(alloc);
    for (at, byte) in SMALL_TEMPLATE.iter().take(broken.left).enumerate() {
        match broken.changes.iter().find(|change| change.0 == at) {
            Some(change) => bytes.push(change.1)?,
            None => bytes.push(*byte)?,
        }
    }
    bytes.extend_from_slice(broken.behind)?;
    Ok(Bytes::from_vec(bytes))
}

// The same under another class's name.
fn renamed(alloc: Global, broken: &Broken) -> Result<Bytes, Fail> {
    let mut bytes = Vec::new(alloc);
    for (at, byte) in small(alloc, broken)?.as_slice().iter().enumerate() {
        if at == CLASS_AT - 1 {
            bytes.push(u8::try_from(broken.class.len()).unwrap_or(0))?;
        } else if at == CLASS_AT && broken.class.len() != 1 {
            bytes.extend_from_slice(broken.class)?;
        } else {
            bytes.push(*byte)?;
        }
    }
    Ok(Bytes::from_vec(bytes))
}

fn told(alloc: Global, all: &[Broken]) -> Result<(u8, Bytes), Fail> {
    let mut files = Contents::new(alloc);
    for broken in all {
        files.insert(
            &Path::of(alloc, broken.path.as_bytes())?,
            &renamed(alloc, broken)?,
        )?;
    }
    let words = words(alloc, "a")?;
    let nothing = Bytes::from_vec(Vec::new(alloc));
    let ended = command(
        alloc,
        words.as_slice(),
        MemStore::new(alloc, Contents::new(alloc), Vec::new(alloc))?,
        MemWorkspace::new(alloc, files, Vec::new(alloc))?,
        MemSink::new(alloc, nothing, Vec::new(alloc))?,
    );
    Ok((
        ended.status,
        Bytes::from_slice(alloc, ended.sink.as_slice())?,
    ))
}

fn judge<R: Abort + AllocGlobal>(rt: &R, all: &[Broken], line: &str) -> Result<(), Fail> {
    let (status, printed) = told(rt.alloc(), all)?;
    assert_eq!(*rt; printed.as_slice(), line.as_bytes(), "print of {line}");
    assert_eq!(*rt; status, 3, "status of {line}");
    Ok(())
}

#[test]
fn each_broken_class_file_has_its_line(rt: HostRuntime) -> Result<(), Fail> {
    for (broken, line) in &CLASSES {
        judge(&rt, &[*broken], line)?;
    }
    Ok(())
}

#[test]
fn the_first_cause_is_told(rt: HostRuntime) -> Result<(), Fail> {
    let below = Broken {
        path: "classes/x/A.class",
        ..WHOLE
    };
    judge(&rt, &[WHOLE, below], "build: duplicate class A\n")?;
    let cut = Broken { left: 9, ..below };
    judge(
        &rt,
        &[WHOLE, cut],
        "build: classes/x/A.class: cut short at 8\n",
    )
}

#[test]
fn no_cut_class_file_is_built(rt: HostRuntime) -> Result<(), Fail> {
    for left in 0..SMALL_TEMPLATE.len() {
        let (status, _) = told(rt.alloc(), &[Broken { left, ..WHOLE }])?;
        assert_eq!(rt; status, 3, "status of {left} bytes");
    }
    Ok(())
}

#[test]
fn limits_have_their_lines(rt: HostRuntime) -> Result<(), Fail> {
    for (limit, line) in [
        (Limit::Classes, "build: too many classes: 8192"),
        (Limit::Methods, "build: too many methods: 262144"),
    ] {
        let fault = BuildFault::Load(LoadFault::TooMany(limit));
        assert_eq!(rt; fault.line(rt.alloc())?.as_slice(), line.as_bytes());
    }
    Ok(())
}
