//! What no clause says: that a real file gives what was written to it, is locked, and is opened as its mode says; that a
//! sync is made behind the writes before it, of the file and once of its folder; and a picture of what a crash leaves.

use crate::{Disk, DiskError, FileDisk, MemDisk, OpenMode};
use std::alloc::Global;
use std::cell::RefCell;
use std::fs::{Metadata, OpenFile, Permissions};
use std::os::unix::fs::{FileExt, PermissionsExt};
use std::test::Fail;
use std::{fs, io};

#[test]
fn a_crash_leaves_what_was_synced_and_what_is_picked(rt: HostRuntime) -> Result<(), Fail> {
    let alloc = rt.alloc();
    let mut disk = MemDisk::new(b"abcd".to_vec(alloc)?, Vec::new(alloc));
    disk.write_at(1, b"XY")?;
    disk.sync()?;
    disk.write_at(3, b"123")?;
    assert_eq!(rt; disk.len()?, 6);
    assert_eq!(rt; disk.bytes(), b"aXY123".as_slice());
    for (pick, image) in [(0, "aXYd"), (1, "aXY123"), (b'#', "aXY###")] {
        assert_eq!(rt; disk.crash(pick)?.as_slice(), image.as_bytes(), "{pick}");
    }
    disk.sync()?;
    assert_eq!(rt; disk.crash(b'#')?.as_slice(), b"aXY123".as_slice());
    Ok(())
}

#[test]
fn a_real_file_gives_what_was_written_to_one_holder_at_a_time(rt: HostRuntime) -> Result<(), Fail> {
    const NAME: &str = "prv_disk_test_file";
    let mut disk = FileDisk::open(&rt, NAME, OpenMode::Create);
    assert_eq!(rt; disk.len()?, 0);
    disk.write_at(0, b"abcd")?;
    for mode in [OpenMode::Create, OpenMode::Write, OpenMode::Read] {
        assert!(rt; FileDisk::open(&rt, NAME, mode).len().is_err());
    }
    drop(disk);
    let mut disk = FileDisk::open(&rt, NAME, OpenMode::Write);
    disk.write_at(3, b"XYZ")?;
    disk.sync()?;
    assert_eq!(rt; disk.len()?, 6);
    let mut part = [0; 4];
    disk.read_at(2, &mut part)?;
    assert_eq!(rt; part, *b"cXYZ");
    assert_eq!(rt; disk.faults(), 0);
    assert_eq!(rt; disk.read_at(3, &mut part), Err(DiskError::Failed));
    assert_eq!(rt; disk.faults(), 1);
    assert_eq!(rt; fs::read(&rt, NAME)?.as_slice(), b"abcXYZ".as_slice());
    fs::remove_file(&rt, NAME)?;
    Ok(())
}

// Whether each write and each sync of this disk fails.
fn is_fixed(disk: &mut FileDisk) -> bool {
    disk.write_at(0, b"X") == Err(DiskError::Failed) && disk.sync().is_err()
}

// Whether this disk reads as an empty one.
fn is_empty(disk: &mut FileDisk) -> bool {
    disk.len() == Ok(0) && disk.read_at(0, &mut []) == Ok(())
}

#[test]
fn an_absent_file_is_read_as_an_empty_one(rt: HostRuntime) {
    const NAME: &str = "prv_disk_no_folder/file";
    for mode in [OpenMode::Write, OpenMode::Read] {
        let mut absent = FileDisk::open(&rt, NAME, mode);
        assert!(rt; is_empty(&mut absent) && is_fixed(&mut absent));
    }
    let mut refused = FileDisk::open(&rt, NAME, OpenMode::Create);
    assert!(rt; !is_empty(&mut refused) && is_fixed(&mut refused));
    assert_eq!(rt; refused.faults(), 3);
}

#[test]
fn a_file_that_no_one_may_write_can_be_read(rt: HostRuntime) -> Result<(), Fail> {
    const FOLDER: &str = "prv_disk_test_folder";
    const NAME: &str = "prv_disk_test_folder/file";
    fs::create_dir(&rt, FOLDER)?;
    fs::write(&rt, NAME, b"abcd".as_slice())?;
    fs::set_permissions(&rt, NAME, Permissions::from_mode(0o444))?;
    fs::set_permissions(&rt, FOLDER, Permissions::from_mode(0o555))?;
    let mut disk = FileDisk::open(&rt, NAME, OpenMode::Read);
    let mut part = [0; 4];
    disk.read_at(0, &mut part)?;
    assert_eq!(rt; part, *b"abcd");
    assert!(rt; is_fixed(&mut disk));
    fs::set_permissions(&rt, FOLDER, Permissions::from_mode(0o755))?;
    fs::remove_dir_all(&rt, FOLDER)?;
    Ok(())
}

#[derive(Clone, Copy, Debug, PartialEq, Eq)]
enum Call {
    Write { at: u64, count: usize },
    Sync { name: &'static str },
}

// A file that writes down its calls. It takes at most three bytes at a time.
#[derive(Drop)]
struct Logged<'a> {
    name: &'static str,
    calls: &'a RefCell<Vec<Call>>,
    syncs: bool,
}

fn note(calls: &RefCell<Vec<Call>>, call: Call) -> io::Result<()> {
    match calls.try_borrow_mut() {
        Ok(mut calls) => Ok(calls.push(call)?),
        Err(_) => Err(io::Error::from(io::ErrorKind::Other)),
    }
}

impl OpenFile for Logged<'_> {
    fn metadata(&self) -> io::Result<Metadata> {
        Ok(Metadata::of_file(0))
    }

    fn set_len(&self, _size: u64) -> io::Result<()> {
        Ok(())
    }

    fn sync_all(&self) -> io::Result<()> {
        note(self.calls, Call::Sync { name: self.name })?;
        if self.syncs {
            Ok(())
        } else {
            Err(io::Error::from(io::ErrorKind::Other))
        }
    }

    fn sync_data(&self) -> io::Result<()> {
        Ok(())
    }
}

impl FileExt for Logged<'_> {
    fn read_at(&self, _buf: &mut [u8], _offset: u64) -> io::Result<usize> {
        Ok(0)
    }

    fn write_at(&self, buf: &[u8], offset: u64) -> io::Result<usize> {
        let count = buf.len().min(3);
        note(self.calls, Call::Write { at: offset, count })?;
        Ok(count)
    }
}

// The calls of two writes of four bytes with a sync behind each, and how many of the disk's calls failed.
fn calls_of_two_syncs(
    alloc: Global,
    file_syncs: bool,
    folder_syncs: bool,
) -> Result<(Vec<Call>, u64), DiskError> {
    let calls = RefCell::new(Vec::new(alloc));
    let file = Logged {
        name: "file",
        calls: &calls,
        syncs: file_syncs,
    };
    let folder = Logged {
        name: "folder",
        calls: &calls,
        syncs: folder_syncs,
    };
    let mut disk = FileDisk::of_open_file(file, folder);
    for _ in 0..2 {
        disk.write_at(0, b"abcd")?;
        let _answer = disk.sync();
    }
    let faults = disk.faults();
    drop(disk);
    Ok((calls.into_inner(), faults))
}

#[test]
fn a_sync_is_made_behind_the_writes_before_it(rt: HostRuntime) -> Result<(), Fail> {
    const FIRST: Call = Call::Write { at: 0, count: 3 };
    const REST: Call = Call::Write { at: 3, count: 1 };
    const FILE: Call = Call::Sync { name: "file" };
    const FOLDER: Call = Call::Sync { name: "folder" };
    let alloc = rt.alloc();
    let (calls, faults) = calls_of_two_syncs(alloc, true, true)?;
    assert_eq!(rt;
        calls.as_slice(),
        [FIRST, REST, FILE, FOLDER, FIRST, REST, FILE].as_slice()
    );
    assert_eq!(rt; faults, 0);
    let (calls, faults) = calls_of_two_syncs(alloc, true, false)?;
    assert_eq!(rt;
        calls.as_slice(),
        [FIRST, REST, FILE, FOLDER, FIRST, REST, FILE, FOLDER].as_slice()
    );
    assert_eq!(rt; faults, 2);
    let (calls, faults) = calls_of_two_syncs(alloc, false, true)?;
    assert_eq!(rt;
        calls.as_slice(),
        [FIRST, REST, FILE, FIRST, REST, FILE].as_slice()
    );
    assert_eq!(rt; faults, 2);
    Ok(())
}
