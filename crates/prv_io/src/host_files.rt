//! The real file system behind the trait `Files`. No clause says what a file has: that the bytes are those of the file
//! is tested over real ones.
ghost use Rattle.std.specs.Prelude.{◌≡◌, ◌<◌, ◌≤◌, length, IfOk, IfSome};
ghost use Rattle.std.specs.Bool.{OnTrue, OnFalse};

use crate::{FileError, Files};
use std::io::Read;
use std::marker::Model;
use std::{fs, io, rt};

/// The files of a runtime's file system, by their paths. It tells nothing of what they have.
#[derive(Drop)]
pub struct HostFiles<R: rt::Files> {
    // What reaches the file system.
    rt: R,
    // How many reads have failed. It stands still at 2^64 - 1.
    faults: u64,
}

impl<R: rt::Files> Model for HostFiles<R> {
    ghost use Rattle.std.specs.Prelude.{ℕ};

    ghost Value = { ℕ };

    ghost view = { λ files. files.faults };
}

impl<R: rt::Files> HostFiles<R> {
    /// The files that `rt` reaches. None has been read yet.
    pub fn new(rt: R) -> HostFiles<R>
        ensures { result ≡ 0 }
    {
        HostFiles { rt, faults: 0 }
    }

    /// How many reads have failed.
    pub fn faults(&self) -> u64
        ensures { result ≡ self.now }
    {
        self.faults
    }
}

// Reads to the end, or one byte past the limit: whether that was the end.
fn read_to_limit<R: Read + Drop>(reader: R, limit: u32, into: &mut Vec<u8>) -> io::Result<bool>
    ensures within { IfOk result (λ ended. OnTrue ended (length into.new.items ≤ limit)) }
    ensures bytes { IfOk result (λ ended. OnTrue ended (IfSome (R.remaining reader) (λ told. into.new.items ≡ told))) }
    ensures longer { IfOk result (λ ended. OnFalse ended (IfSome (R.remaining reader) (λ told. limit < length told))) }
{
    into.clear();
    reader.take(u64::from(limit) + 1).read_to_end(into)?;
    Ok(into.len() <= limit as usize)
}

fn read_file<R: rt::Files>(rt: &R, name: &str, limit: u32, into: &mut Vec<u8>) -> io::Result<bool>
    ensures within { IfOk result (λ ended. OnTrue ended (length into.new.items ≤ limit)) }
{
    read_to_limit(fs::open(rt, name)?, limit, into)
}

impl<R: rt::Files> Files for HostFiles<R> {
    ghost faults = { λ files. files };

    /// A file that isn't there, or can't be opened or read, is `Failed`. Of a file that is `TooLong` one byte
    /// past the limit is read, and not the rest.
    fn read(&mut self, name: &str, limit: u32, into: &mut Vec<u8>) -> Result<(), FileError> {
        let error = match read_file(&self.rt, name, limit, into) {
            Ok(true) => return Ok(()),
            Ok(false) => FileError::TooLong,
            Err(error) if error.kind() == io::ErrorKind::OutOfMemory => FileError::Memory,
            Err(_) => {
                self.faults = self.faults.saturating_add(1);
                FileError::Failed
            }
        };
        into.clear();
        Err(error)
    }
}
