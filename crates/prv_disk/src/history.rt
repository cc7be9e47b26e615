//! What a disk in memory was made with, and its calls. Each write is kept with its bytes, so that any image that a crash
//! may leave can be made later; the calls between two writes are only counted.
ghost use Rattle.std.specs.Prelude.{◌≡◌, ◌+◌, ◌-◌, ◌^◌, ◌<◌, ◌≤◌, [], ◌∷◌, ◌++◌, length, vec_len, vec_capacity, if◌then◌else◌, IfOk, OnOk, OnErr};
ghost use Rattle.prv_disk.specs.MemDisk.{Wrote, Synced, content, crashed, quiet};

use crate::past_write::{PastWrite, leave_all, overwrite};
use crate::quiet_calls::QuietCalls;
use prv_io::Failed;
use std::alloc::AllocError;
use std::marker::Model;

/// The bytes that a disk was made with and the calls that were done since, each write with its bytes.
#[derive(Debug, Drop)]
pub struct History {
    // What the disk was made with, all of it lasting.
    start: Vec<u8>,
    // What a read gives, once something was written.
    current: Vec<u8>,
    // The writes that were done, the first of them first.
    writes: Vec<PastWrite>,
    // The calls since the last write.
    since: QuietCalls,
    // How many of the writes a sync has made lasting.
    synced: usize,
}

impl Model for History {
    ghost use Rattle.std.specs.Prelude.{[]};
    ghost use Rattle.prv_disk.specs.MemDisk.{Calls, then_quiet, then_writes, IsKept};

    ghost Value = { Calls };

    ghost view = { λ h. record { start = h.start.items; log = then_quiet h.since (then_writes h.writes.items []) } };

    ghost invariant = { λ h. IsKept h.start.items h.current.items h.writes.items h.since h.synced };
}

impl History {
    pub fn new(bytes: Vec<u8>) -> History
        ensures { result ≡ record { start = bytes.items; log = [] } }
    {
        let alloc = *bytes.allocator();
        History {
            start: bytes,
            current: Vec::new(alloc),
            writes: Vec::new(alloc),
            since: QuietCalls::NONE,
            synced: 0,
        }
    }

    /// What a read gives.
    pub fn bytes(&self) -> &[u8]
        ensures { result.now ≡ content self.now.start self.now.log }
    {
        if self.writes.is_empty() {
            &self.start
        } else {
            &self.current
        }
    }

    /// The image that a crash now leaves for this pick.
    pub fn crash(&self, pick: u8) -> Result<Vec<u8>, AllocError>
        ensures { IfOk result (λ image. image.items ≡ crashed pick self.now.start self.now.log) }
    {
        let mut image = self.start.to_vec(*self.start.allocator())?;
        let (lasting, pending) = self.writes.split_at(self.synced);
        leave_all(&mut image, 1, lasting)?;
        leave_all(&mut image, pick, pending)?;
        Ok(image)
    }

    /// Notes a call that changes nothing. `Failed` comes only where no more calls can be counted.
    pub fn pass(&mut self) -> Result<(), Failed>
        ensures ok { OnOk result (self.new ≡ record self.old { log = quiet self.old.log ∷ self.old.log }) }
        ensures err { OnErr result (self.new ≡ self.old) }
        ensures full { OnErr result (2 ^ 64 - 1 ≤ length self.old.log) }
    {
        if self.since.synced > 0 {
            self.since.synced = one_more(self.since.synced)?;
        } else {
            self.since.passed = one_more(self.since.passed)?;
        }
        Ok(())
    }

    /// Notes a sync. `Failed` comes only where no more calls can be counted.
    pub fn sync(&mut self) -> Result<(), Failed>
        ensures ok { OnOk result (self.new ≡ record self.old { log = Synced ∷ self.old.log }) }
        ensures err { OnErr result (self.new ≡ self.old) }
        ensures full { OnErr result (2 ^ 64 - 1 ≤ length self.old.log) }
    {
        self.since.synced = one_more(self.since.synced)?;
        self.synced = self.writes.len();
        Ok(())
    }

    /// Does a write. Out of memory it has done nothing.
    pub fn write(&mut self, at: u64, piece: &[u8]) -> Result<(), AllocError>
        ensures ok { OnOk result (self.new ≡ record self.old { log = Wrote at piece.now ∷ self.old.log }) }
        ensures err { OnErr result (self.new ≡ self.old) }
    {
        let alloc = *self.start.allocator();
        let bytes = piece.to_vec(alloc)?;
        self.writes.reserve(1)?;
        copy_if(self.writes.is_empty(), &self.start, &mut self.current)?;
        overwrite(&mut self.current, at, piece)?;
        let before = self.since;
        keep(&mut self.writes, PastWrite { before, at, bytes });
        self.since = QuietCalls::NONE;
        Ok(())
    }
}

fn one_more(count: u64) -> Result<u64, Failed>
    ensures ok { IfOk result (λ more. more ≡ count + 1) }
    ensures full { OnErr result (count ≡ 2 ^ 64 - 1) }
{
    count.checked_add(1).ok_or(Failed)
}

// Keeps one write more, for which there is room.
fn keep(writes: &mut Vec<PastWrite>, write: PastWrite)
    requires { vec_len writes.old < vec_capacity writes.old }
    ensures { writes.new.items ≡ writes.old.items ++ write ∷ [] }
{
    writes.push(write).unwrap();
}

// Before the first write what a read gives is copied to where it is kept from then on.
fn copy_if(is_first: bool, start: &[u8], current: &mut Vec<u8>) -> Result<(), AllocError>
    ensures ok { OnOk result (current.new.items ≡ (if is_first then start.now else current.old.items)) }
    ensures err { OnErr result (current.new.items ≡ current.old.items) }
{
    if is_first {
        *current = start.to_vec(*current.allocator())?;
    }
    Ok(())
}
