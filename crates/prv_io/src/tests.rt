//! What no clause says of the adapters: that the bytes of real files and outputs are the right ones, in order, also
//! where a write is short, interrupted or refused.

use crate::{FileError, Files, HostFiles, HostSink, Sink, write_all};
use std::alloc::{AllocError, Global};
use std::test::Fail;
use std::{fs, io};

// A read, into a vector that holds something else: what it answers, and what the vector holds then.
fn read<F: Files>(
    alloc: Global,
    files: &mut F,
    name: &str,
    limit: u32,
) -> Result<(Result<(), FileError>, Vec<u8>), AllocError> {
    let mut into = b"left over".to_vec(alloc)?;
    let answer = files.read(name, limit, &mut into);
    Ok((answer, into))
}

// A writer that takes two bytes at a time. Its second write is interrupted and its fifth fails.
#[derive(Drop)]
struct Slow {
    bytes: Vec<u8>,
    writes: u32,
}

impl io::Write for Slow {
    fn write(&mut self, buf: &[u8]) -> io::Result<usize> {
        self.writes = self.writes.saturating_add(1);
        match self.writes {
            2 => Err(io::Error::from(io::ErrorKind::Interrupted)),
            5 => Err(io::Error::from(io::ErrorKind::StorageFull)),
            _ => {
                let count = buf.len().min(2);
                self.bytes.extend_from_slice(&buf[..count])?;
                Ok(count)
            }
        }
    }

    fn flush(&mut self) -> io::Result<()> {
        Ok(())
    }
}

#[test]
fn an_output_is_written_in_order_up_to_a_fault(rt: HostRuntime) -> Result<(), Fail> {
    let alloc = rt.alloc();
    let mut slow = Slow {
        bytes: Vec::new(alloc),
        writes: 0,
    };
    let mut sink = HostSink::new(&mut slow);
    assert!(rt; write_all(&mut sink, b"abcd").is_ok());
    assert_eq!(rt; sink.faults(), 0);
    assert!(rt; write_all(&mut sink, b"efgh").is_err());
    assert_eq!(rt; sink.faults(), 1);
    assert!(rt; write_all(&mut sink, b"ijk").is_ok());
    assert_eq!(rt; sink.faults(), 1);
    assert_eq!(rt; slow.bytes.as_slice(), b"abcdefijk".as_slice());
    Ok(())
}

#[test]
fn an_output_that_takes_nothing_has_failed(rt: HostRuntime) {
    let mut room = [0u8; 3];
    let mut sink = HostSink::new(room.as_mut_slice());
    assert!(rt; write_all(&mut sink, b"hello").is_err());
    assert_eq!(rt; sink.faults(), 1);
    assert_eq!(rt; sink.write(b"").ok(), Some(0));
    assert_eq!(rt; sink.faults(), 1);
    assert_eq!(rt; room, *b"hel");
}

#[test]
fn real_files_are_read_up_to_the_limit(rt: HostRuntime) -> Result<(), Fail> {
    const NAME: &str = "prv_io_test_file";
    let alloc = rt.alloc();
    fs::write(&rt, NAME, b"hello".as_slice())?;
    let mut files = HostFiles::new(&rt);
    for (name, limit, answer, bytes, faults) in [
        (NAME, 5, Ok(()), "hello", 0),
        (NAME, 4, Err(FileError::TooLong), "", 0),
        // It has no end.
        ("/dev/zero", 100_000, Err(FileError::TooLong), "", 0),
        ("prv_io_test_no_file", 5, Err(FileError::Failed), "", 1),
        // A folder can be opened, and not read.
        ("/", 5, Err(FileError::Failed), "", 2),
        (NAME, u32::MAX, Ok(()), "hello", 2),
    ] {
        let (got, into) = read(alloc, &mut files, name, limit)?;
        assert_eq!(rt; got, answer, "{name} within {limit}");
        assert_eq!(rt; into.as_slice(), bytes.as_bytes(), "{name} within {limit}");
        assert_eq!(rt; files.faults(), faults, "{name} within {limit}");
    }
    fs::remove_file(&rt, NAME)?;
    Ok(())
}
