//! A file of the system as a disk holds it: how it is opened and locked, and what each call of the disk asks of it. The
//! name of a new file lasts only once its folder is synced, so the first sync is one of both.
ghost use Rattle.std.specs.Prelude.{pos, ◌≤ℤ◌, IfOk};
ghost use Rattle.std.specs.Fd.{file_raw_fd};

use std::fs::{File, OpenFile, OpenOptions};
use std::os::fd::AsRawFd;
use std::os::unix::fs::FileExt;
use std::{fs, io};

/// What a file is opened for.
#[derive(Clone, Copy, Debug, PartialEq, Eq)]
pub enum OpenMode {
    /// For reading and writing. An absent file is made empty.
    Create,
    /// For reading and writing. An absent file is not made: it is read as an empty one, and each write or sync fails.
    Write,
    /// For reading alone: each write or sync fails. An absent file is read as an empty one.
    Read,
}

/// A file as far as it could be had.
#[derive(Drop)]
pub enum HeldFile<F> {
    /// Open for reading and writing, with the folder that has its name, up to the first sync that was done.
    Writable { file: F, folder: Option<F> },
    /// Open for reading alone.
    Readable { file: F },
    /// There is no file of this name.
    Absent,
    /// It can't be opened, or another has locked it.
    Refused,
}

// The descriptors of standard input, output and error are those below this.
const STREAMS: i32 = 3;

// The same open file under a descriptor that is no standard stream's. An open takes the lowest that is free, which is one
// of theirs where one of them is closed; a duplicate never does.
fn beyond_streams(file: File) -> io::Result<File>
    ensures { IfOk result (λ file. pos 3 ≤ℤ file_raw_fd file) }
{
    if file.as_raw_fd() >= STREAMS {
        return Ok(file);
    }
    let other = file.try_clone()?;
    if other.as_raw_fd() >= STREAMS {
        return Ok(other);
    }
    Err(io::Error::from(io::ErrorKind::Other))
}

fn open_file(rt: &HostRuntime, path: &str, mode: OpenMode) -> io::Result<File>
    ensures { IfOk result (λ file. pos 3 ≤ℤ file_raw_fd file) }
{
    let mut options = OpenOptions::new();
    options
        .read(true)
        .write(mode != OpenMode::Read)
        .create(mode == OpenMode::Create);
    beyond_streams(options.open(rt, path)?)
}

// The folder that has the name of this file, behind all links.
fn open_folder(rt: &HostRuntime, path: &str) -> io::Result<File>
    ensures { IfOk result (λ folder. pos 3 ≤ℤ file_raw_fd folder) }
{
    let mut folder = fs::canonicalize(rt, path)?;
    folder.pop();
    beyond_streams(File::open(rt, folder.as_str())?)
}

fn open_locked(rt: &HostRuntime, path: &str, mode: OpenMode) -> io::Result<HeldFile<File>> {
    let file = open_file(rt, path, mode)?;
    file.try_lock()?;
    if mode == OpenMode::Read {
        return Ok(HeldFile::Readable { file });
    }
    let folder = Some(open_folder(rt, path)?);
    Ok(HeldFile::Writable { file, folder })
}

/// The file of this path, opened for what the mode asks and locked for as long as it is held.
pub fn open(rt: &HostRuntime, path: &str, mode: OpenMode) -> HeldFile<File> {
    match open_locked(rt, path, mode) {
        Ok(held) => held,
        Err(error) if error.kind() == io::ErrorKind::NotFound && mode != OpenMode::Create => {
            HeldFile::Absent
        }
        Err(_) => HeldFile::Refused,
    }
}

fn refused<T>() -> io::Result<T> {
    Err(io::Error::from(io::ErrorKind::PermissionDenied))
}

impl<F: OpenFile + FileExt + Drop> HeldFile<F> {
    /// How many bytes it has.
    pub fn len(&self) -> io::Result<u64> {
        match self {
            HeldFile::Writable { file, .. } | HeldFile::Readable { file } => {
                Ok(file.metadata()?.len())
            }
            HeldFile::Absent => Ok(0),
            HeldFile::Refused => refused(),
        }
    }

    /// Fills `into` with the bytes from `at` on.
    pub fn read_at(&self, at: u64, into: &mut [u8]) -> io::Result<()> {
        match self {
            HeldFile::Writable { file, .. } | HeldFile::Readable { file } => {
                file.read_exact_at(into, at)
            }
            HeldFile::Absent if into.is_empty() => Ok(()),
            HeldFile::Absent | HeldFile::Refused => refused(),
        }
    }

    /// Writes the piece over what stands from `at` on.
    pub fn write_at(&self, at: u64, piece: &[u8]) -> io::Result<()> {
        match self {
            HeldFile::Writable { file, .. } => file.write_all_at(piece, at),
            _ => refused(),
        }
    }

    /// Makes what was written lasting, and with the first sync that is done the file's name.
    pub fn sync(&mut self) -> io::Result<()> {
        let HeldFile::Writable { file, folder } = self else {
            return refused();
        };
        file.sync_all()?;
        if let Some(folder) = folder {
            folder.sync_all()?;
        }
        *folder = None;
        Ok(())
    }
}
