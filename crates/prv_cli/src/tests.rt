//! Reads and writes that fail, through `plain` over files and sinks in memory.
use crate::top::plain;
use prv_explore::Quiet;
use prv_io::{MemFile, MemFiles, MemSink};
use std::alloc::Global;
use std::test::Fail;

/// What a run of the program leaves in files, sinks and status.
#[derive(Drop)]
struct Ran {
    status: u8,
    files: MemFiles,
    out: MemSink,
    err: MemSink,
}

/// Which reads fail, counted from 1, and for how many bytes the outputs have room.
#[derive(Clone, Copy)]
struct Failing {
    reads: &'static [u32],
    out_room: u32,
    err_room: u32,
}

const NONE: Failing = Failing {
    reads: &[],
    out_room: 2000,
    err_room: 1000,
};

fn file(alloc: Global, name: &str, bytes: &[u8]) -> Result<MemFile, Fail> {
    Ok(MemFile {
        name: Vec::from_slice(alloc, name.as_bytes())?,
        bytes: Vec::from_slice(alloc, bytes)?,
    })
}

/// The words of a line, with one blank between each two.
fn words_of(alloc: Global, line: &'static str) -> Result<Vec<&'static str>, Fail> {
    let mut words = Vec::new(alloc);
    if !line.is_empty() {
        for word in line.split(' ') {
            words.push(word)?;
        }
    }
    Ok(words)
}

/// Runs the program on files `old` and `new` with these bytes.
fn run(
    alloc: Global,
    line: &'static str,
    old: &[u8],
    new: &[u8],
    faults: Failing,
) -> Result<Ran, Fail> {
    let words = words_of(alloc, line)?;
    let both = vec![in alloc; file(alloc, "old", old)?, file(alloc, "new", new)?]?;
    let mut files = MemFiles::new(both, Vec::from_slice(alloc, faults.reads)?);
    let mut out = MemSink::new(alloc, faults.out_room, Vec::new(alloc))?;
    let mut err = MemSink::new(alloc, faults.err_room, Vec::new(alloc))?;
    let status = plain(
        alloc,
        words.as_slice(),
        &mut files,
        &mut out,
        &mut err,
        &mut Quiet,
    );
    Ok(Ran {
        status,
        files,
        out,
        err,
    })
}

/// Words, the file `old`, faults, the status, what the outputs take, and how many reads and writes fail.
const FAULTS: [(&str, &str, Failing, u8, &str, &str, u64, u64, u64); 9] = [
    // A file that isn't there, and reads that fail.
    (
        "point old no 5",
        SAME,
        NONE,
        5,
        "",
        "prv: read fault\n",
        1,
        0,
        0,
    ),
    (
        "point old new 5",
        SAME,
        Failing {
            reads: &[1],
            ..NONE
        },
        5,
        "",
        "prv: read fault\n",
        1,
        0,
        0,
    ),
    (
        "point old new 5",
        SAME,
        Failing {
            reads: &[2],
            ..NONE
        },
        5,
        "",
        "prv: read fault\n",
        1,
        0,
        0,
    ),
    // OLD is judged before NEW is read, a file is read once, and a command that isn't built reads none.
    (
        "point old new 5",
        "",
        Failing {
            reads: &[2],
            ..NONE
        },
        4,
        "",
        "prv: old: syntax at 0\n",
        0,
        0,
        0,
    ),
    (
        "run old 5",
        SAME,
        Failing {
            reads: &[2],
            ..NONE
        },
        0,
        "returned 5\n",
        "",
        0,
        0,
        0,
    ),
    (
        "explore old new",
        SAME,
        Failing {
            reads: &[1],
            ..NONE
        },
        3,
        "",
        "prv: later\n",
        0,
        0,
        0,
    ),
    // What was taken before a fault is a part of what is shown, and of a refusal's line.
    (
        "run old 5",
        SAME,
        Failing {
            out_room: 0,
            ..NONE
        },
        6,
        "",
        "prv: write fault\n",
        0,
        1,
        0,
    ),
    (
        "point old new 5",
        SAME,
        Failing {
            out_room: 12,
            ..NONE
        },
        6,
        "regions 2\n1 ",
        "prv: write fault\n",
        0,
        1,
        0,
    ),
    (
        "run old x",
        SAME,
        Failing {
            err_room: 3,
            ..NONE
        },
        3,
        "",
        "prv",
        0,
        0,
        1,
    ),
];

const SAME: &str = "int main(int a) { return a; }";

#[test]
fn faults(rt: HostRuntime) -> Result<(), Fail> {
    for (line, old, faults, status, out, err, reads, writes, tells) in FAULTS {
        let ran = run(rt.alloc(), line, old.as_bytes(), SAME.as_bytes(), faults)?;
        assert_eq!(rt; ran.status, status, "{line}");
        assert_eq!(rt; ran.out.bytes(), out.as_bytes(), "{line}");
        assert_eq!(rt; ran.err.bytes(), err.as_bytes(), "{line}");
        assert_eq!(rt; ran.files.faults(), reads, "{line}");
        assert_eq!(rt; ran.out.faults(), writes, "{line}");
        assert_eq!(rt; ran.err.faults(), tells, "{line}");
    }
    Ok(())
}
