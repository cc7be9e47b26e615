//! What no clause says: files as tables of bytes, so that the definition of records is seen to be the format; a crash after
//! each call of an append; and a real file, which keeps its records from one program to the next.

use crate::{AppendError, Journal};
use prv_disk::{FileDisk, MemDisk, OpenMode};
use std::alloc::Global;
use std::fs;
use std::test::Fail;

/// What a disk with these bytes is read as: its payloads, a blank behind each, or the refusal.
fn shown(alloc: Global, bytes: Vec<u8>) -> Result<String, Fail> {
    let disk = MemDisk::new(bytes, Vec::new(alloc));
    let mut text = String::new(alloc);
    match Journal::load(alloc, disk) {
        Ok((_journal, payloads)) => {
            for payload in &payloads {
                text.push_str(str::from_utf8(payload)?)?;
                text.push(' ')?;
            }
        }
        Err((error, _disk)) => write!(text, "{error}")?,
    }
    Ok(text)
}

const FILES: [(&[u8], &str); 12] = [
    (b"", ""),
    (b"\x01", ""),
    (b"\x07", ""),
    (b"\x00\x01\x00\x00\x00a\x00", ""),
    (b"\x07\x01\x00\x00\x00a\x00", ""),
    (b"\x01\x01\x00\x00\x00a\x00", "a "),
    (
        b"\x01\x00\x00\x00\x00\x01\x02\x00\x00\x00bc\x07\x01",
        " bc ",
    ),
    (b"\x01\x01\x00\x00\x00a", "damaged at 0 found 5"),
    (b"\x01\x01\x00", "damaged at 0 found 2"),
    (b"\x01\x01\x00\x00\x00a\x01", "damaged at 6 found 0"),
    (
        b"\x01\x01\x00\x00\x00a\x01\x02\x00\x00\x00b\x00",
        "damaged at 6 found 6",
    ),
    (
        b"\x01\x00\x00\x00\x00\x01\x41\x66\x03\x01\x00",
        "damaged at 5 found 5",
    ),
];

#[test]
fn records_are_those_behind_open_gates(rt: HostRuntime) -> Result<(), Fail> {
    for (file, wanted) in FILES {
        let got = shown(rt.alloc(), file.to_vec(rt.alloc())?)?;
        assert_eq!(rt; got.as_str(), wanted);
    }
    Ok(())
}

// A fresh journal takes five calls of the disk to load, and each append four.
#[test]
fn a_crash_after_each_call_leaves_the_records_before_or_with(rt: HostRuntime) -> Result<(), Fail> {
    const PICKS: [u8; 4] = [0, 1, 2, 255];
    const BEFORE: &str = "one ";
    const WITH: &str = "one two ";
    let alloc = rt.alloc();
    for (calls, wanted) in [
        (0, [BEFORE; 4]),
        (1, [BEFORE; 4]),
        (2, [BEFORE; 4]),
        (3, [BEFORE, WITH, BEFORE, BEFORE]),
        (4, [WITH; 4]),
    ] {
        let disk = MemDisk::new(Vec::new(alloc), vec![in alloc; 10 + calls]?);
        let (mut journal, payloads) = Journal::load(alloc, disk).map_err(|refused| refused.0)?;
        assert_eq!(rt; payloads.len(), 0);
        assert_eq!(rt; journal.append(b"one"), Ok(0));
        let answer = journal.append(b"two");
        assert_eq!(rt;
            answer,
            if calls < 4 {
                Err(AppendError::Device)
            } else {
                Ok(1)
            }
        );
        if calls < 4 {
            assert_eq!(rt; journal.append(b"three"), Err(AppendError::Broken));
        }
        let disk = journal.into_disk();
        for (pick, wanted) in PICKS.into_iter().zip(wanted) {
            let got = shown(alloc, disk.crash(pick)?)?;
            assert_eq!(rt; got.as_str(), wanted, "{calls} calls, {pick}");
        }
    }
    Ok(())
}

#[test]
fn a_real_file_keeps_its_records(rt: HostRuntime) -> Result<(), Fail> {
    const NAME: &str = "prv_journal_test_file";
    let alloc = rt.alloc();
    for wanted in [0, 1, 2] {
        let disk = FileDisk::open(&rt, NAME, OpenMode::Create);
        let (mut journal, payloads) = Journal::load(alloc, disk).map_err(|refused| refused.0)?;
        assert_eq!(rt; payloads.len(), wanted);
        assert_eq!(rt; journal.append(b"record"), Ok(wanted as u32));
    }
    let file = fs::read(&rt, NAME)?;
    assert_eq!(rt; file.len(), 3 * 11 + 1);
    fs::remove_file(&rt, NAME)?;
    Ok(())
}
