//! A disk in memory, which keeps the model of a disk exactly: for runs in which a call is to fail, or a crash to come,
//! at a given moment.
ghost use Rattle.std.specs.Prelude.{◌≡◌, ◌+◌, ◌≤◌, [], length, take, drop, ⊤, IsTrue, IsErr, IfOk, OnOk, OnErr, IsErrOf};
ghost use Rattle.prv_disk.specs.Bytes.{Torn};
ghost use Rattle.prv_disk.specs.Crashes.{Follows, NoMore};
ghost use Rattle.prv_io.specs.FaultPlan.{fresh, is_to_fail};
ghost use Rattle.prv_disk.specs.MemDisk.{content, MayLeave, LeftSince, crashed, after_quiet, after_sync, after_write, after_fault, MayFail};

use crate::history::History;
use crate::{Disk, DiskError};
use prv_io::{Failed, FaultPlan};
use std::alloc::AllocError;
use std::marker::Model;

/// A disk in memory, which tells all that it holds, and keeps its calls so that a crash can be had.
#[derive(Debug, Drop)]
pub struct MemDisk {
    // What it was made with, and the calls that were done.
    history: History,
    // All calls, and which of them are to fail.
    plan: FaultPlan,
}

impl Model for MemDisk {
    ghost use Rattle.prv_disk.specs.MemDisk.{DiskInMemory};

    ghost Value = { DiskInMemory };

    ghost view = { λ m. record { start = m.history.start; log = m.history.log; plan = m.plan } };
}

impl MemDisk {
    /// A disk that holds these bytes, all of them lasting. `fail` holds the numbers, from 1, of the calls that are
    /// to fail. A call that fails changes neither what a read gives nor what a crash may leave.
    pub fn new(bytes: Vec<u8>, fail: Vec<u32>) -> MemDisk
        ensures { result ≡ record { start = bytes.items; log = []; plan = fresh fail.items } }
    {
        MemDisk {
            history: History::new(bytes),
            plan: FaultPlan::new(fail),
        }
    }

    /// The bytes that a read gives.
    pub fn bytes(&self) -> &[u8]
        ensures { result.now ≡ content self.now.start self.now.log }
    {
        self.history.bytes()
    }

    /// How many calls have failed.
    pub fn faults(&self) -> u64
        ensures { result ≡ self.now.plan.faults }
    {
        self.plan.faults()
    }

    /// An image that a crash now may leave. For a `pick` of 0 it has none of the writes since the last sync that was
    /// done, for 1 all of them, and else all of them with the pick in the place of each of their bytes.
    #[tactic(auto, using(crate::proofs::Logs::crashed_left))]
    pub fn crash(&self, pick: u8) -> Result<Vec<u8>, AllocError>
        ensures image { IfOk result (λ image. image.items ≡ crashed pick self.now.start self.now.log) }
        ensures possible { IfOk result (λ image. MayLeave self.now.start self.now.log image.items) }
    {
        self.history.crash(pick)
    }

    // A call that changes nothing but the moment.
    fn pass(&mut self) -> Result<(), Failed>
        ensures ok { OnOk result (self.new ≡ after_quiet self.old) }
        ensures failed { OnErr result (self.new ≡ after_fault self.old) }
        ensures never_falls { self.old.plan.faults ≤ self.new.plan.faults }
        ensures told { IsTrue (is_to_fail self.old.plan) → IsErr result }
        ensures only_told { OnErr result (MayFail self.old) }
    {
        if self.plan.is_to_fail() {
            self.plan.count_call(true);
            return Err(Failed);
        }
        let answer = self.history.pass();
        self.plan.count_call(answer.is_err());
        answer
    }
}

#[tactic(auto, using(crate::proofs::Logs::stays, crate::proofs::Logs::torn_same, crate::proofs::Logs::synced_left, crate::proofs::Logs::quiet_content))]
impl Disk for MemDisk {
    ghost faults = { λ m. m.plan.faults };

    ghost Tells = { ⊤ };

    ghost seen = { λ m. content m.start m.log };

    ghost may_leave = { λ m image. MayLeave m.start m.log image };

    ghost moment = { λ m. length m.log };

    ghost left_since = { λ m t image. LeftSince m.start m.log t image };

    ghost use Rattle.prv_disk.specs.Laws.{seen_stays, counts_now, only_now};

    ghost seen_stays = { λ m. seen_stays m.start m.log };

    ghost counts_now = { λ m t image le now. counts_now m.start m.log t image now };

    ghost only_now = { λ m image left. only_now m.start m.log image left };

    fn len(&mut self) -> Result<u64, DiskError>
        ensures ok { OnOk result (self.new ≡ after_quiet self.old) }
        ensures count { IfOk result (λ n. n ≡ length (content self.old.start self.old.log)) }
        ensures failed { IsErrOf result DiskError.Failed → self.new ≡ after_fault self.old }
        ensures unchanged { IsErrOf result DiskError.Memory → self.new ≡ self.old }
        ensures never_falls { self.old.plan.faults ≤ self.new.plan.faults }
        ensures told { IsTrue (is_to_fail self.old.plan) → IsErrOf result DiskError.Failed }
        ensures only_told { IsErrOf result DiskError.Failed → MayFail self.old }
    {
        self.pass()?;
        Ok(self.bytes().len() as u64)
    }

    fn read_at(&mut self, at: u64, into: &mut [u8]) -> Result<(), DiskError>
        requires { at + length into.old ≤ length (content self.old.start self.old.log) }
        ensures ok { OnOk result (self.new ≡ after_quiet self.old) }
        ensures bytes { OnOk result (into.new ≡ take (length into.old) (drop at (content self.old.start self.old.log))) }
        ensures failed { IsErrOf result DiskError.Failed → self.new ≡ after_fault self.old }
        ensures unchanged { IsErrOf result DiskError.Memory → self.new ≡ self.old }
        ensures never_falls { self.old.plan.faults ≤ self.new.plan.faults }
        ensures told { IsTrue (is_to_fail self.old.plan) → IsErrOf result DiskError.Failed }
        ensures only_told { IsErrOf result DiskError.Failed → MayFail self.old }
    {
        self.pass()?;
        let behind = &self.bytes()[at as usize..];
        into.copy_from_slice(&behind[..into.len()]);
        Ok(())
    }

    fn write_at(&mut self, at: u64, piece: &[u8]) -> Result<(), DiskError>
        ensures ok { OnOk result (self.new ≡ after_write at piece.now self.old) }
        ensures torn { IsErrOf result DiskError.Failed → Torn at (length piece.now) (content self.old.start self.old.log) (content self.new.start self.new.log) }
        ensures crash { Follows (Torn at (length piece.now)) (MayLeave self.old.start self.old.log) (MayLeave self.new.start self.new.log) }
        ensures failed { IsErrOf result DiskError.Failed → self.new ≡ after_fault self.old }
        ensures unchanged { IsErrOf result DiskError.Memory → self.new ≡ self.old }
        ensures never_falls { self.old.plan.faults ≤ self.new.plan.faults }
        ensures told { IsTrue (is_to_fail self.old.plan) → IsErrOf result DiskError.Failed }
        ensures only_told { IsErrOf result DiskError.Failed → IsTrue (is_to_fail self.old.plan) }
    {
        if self.plan.is_to_fail() {
            self.plan.count_call(true);
            return Err(DiskError::Failed);
        }
        self.history.write(at, piece)?;
        self.plan.count_call(false);
        Ok(())
    }

    fn sync(&mut self) -> Result<(), Failed>
        ensures ok { OnOk result (self.new ≡ after_sync self.old) }
        ensures crash { NoMore (MayLeave self.old.start self.old.log) (MayLeave self.new.start self.new.log) }
        ensures failed { OnErr result (self.new ≡ after_fault self.old) }
        ensures never_falls { self.old.plan.faults ≤ self.new.plan.faults }
        ensures told { IsTrue (is_to_fail self.old.plan) → IsErr result }
        ensures only_told { OnErr result (MayFail self.old) }
    {
        if self.plan.is_to_fail() {
            self.plan.count_call(true);
            return Err(Failed);
        }
        let answer = self.history.sync();
        self.plan.count_call(answer.is_err());
        answer
    }
}
