//! A real file as a disk, with a count of its faults. No clause says what a file holds, nor that a sync reaches the
//! device: that what is written is written before it is synced, and that each sync is made, is tested over a file that
//! writes down its calls, and the rest over real files.
ghost use Rattle.std.specs.Prelude.{◌≡◌, ◌≤◌, ⊤, [], OnOk, OnErr};
ghost use Rattle.prv_io.specs.Faults.{Rose};

use crate::held_file::{HeldFile, open};
use crate::{Disk, DiskError, OpenMode};
use prv_io::Failed;
use std::fs::{File, OpenFile};
use std::io;
use std::marker::Model;
use std::os::unix::fs::FileExt;

/// A file of the operating system, or of a test in its place. It tells nothing of what it holds.
#[derive(Drop)]
pub struct FileDisk<F: OpenFile + FileExt + Drop = File> {
    // The file as far as it could be had.
    held: HeldFile<F>,
    // How many calls have failed. It stands still at 2^64 - 1.
    faults: u64,
}

impl<F: OpenFile + FileExt + Drop> Model for FileDisk<F> {
    ghost use Rattle.std.specs.Prelude.{ℕ};

    ghost Value = { ℕ };

    ghost view = { λ disk. disk.faults };
}

impl FileDisk<File> {
    /// The file of this path, locked for as long as the disk lives. Each call of the disk fails where the file is locked
    /// by another, or can't be opened for what the mode asks. The file has no descriptor of a standard stream, not even
    /// where one of these is closed.
    pub fn open(rt: &HostRuntime, path: &str, mode: OpenMode) -> FileDisk<File>
        ensures { result ≡ 0 }
    {
        FileDisk {
            held: open(rt, path, mode),
            faults: 0,
        }
    }
}

impl<F: OpenFile + FileExt + Drop> FileDisk<F> {
    /// A file that is open for reading and writing, and the folder that has its name.
    pub fn of_open_file(file: F, folder: F) -> FileDisk<F>
        ensures { result ≡ 0 }
    {
        FileDisk {
            held: HeldFile::Writable {
                file,
                folder: Some(folder),
            },
            faults: 0,
        }
    }

    /// How many calls have failed.
    pub fn faults(&self) -> u64
        ensures { result ≡ self.now }
    {
        self.faults
    }
}

// Hands an answer on, and counts a fault where it is none.
fn count<T>(faults: &mut u64, answer: io::Result<T>) -> Result<T, Failed>
    ensures ok { OnOk result (faults.new ≡ faults.old) }
    ensures err { OnErr result (Rose faults.old faults.new) }
    ensures never_falls { faults.old ≤ faults.new }
{
    if answer.is_err() {
        *faults = faults.saturating_add(1);
    }
    answer.map_err(|_| Failed)
}

impl<F: OpenFile + FileExt + Drop> Disk for FileDisk<F> {
    ghost faults = { λ disk. disk };

    ghost Tells = { ⊥ };

    ghost seen = { λ _. [] };

    ghost may_leave = { λ _ _. ⊤ };

    ghost moment = { λ _. 0 };

    ghost left_since = { λ _ _ _. ⊤ };

    ghost seen_stays = { λ _. tt };

    ghost counts_now = { λ _ _ _ _ _. tt };

    ghost only_now = { λ _ _ _. tt };

    fn len(&mut self) -> Result<u64, DiskError> {
        let answer = self.held.len();
        Ok(count(&mut self.faults, answer)?)
    }

    fn read_at(&mut self, at: u64, into: &mut [u8]) -> Result<(), DiskError> {
        let answer = self.held.read_at(at, into);
        Ok(count(&mut self.faults, answer)?)
    }

    fn write_at(&mut self, at: u64, piece: &[u8]) -> Result<(), DiskError> {
        let answer = self.held.write_at(at, piece);
        Ok(count(&mut self.faults, answer)?)
    }

    fn sync(&mut self) -> Result<(), Failed> {
        let answer = self.held.sync();
        count(&mut self.faults, answer)
    }
}
