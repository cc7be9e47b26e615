//! A journal that is open: what it was read as, and a disk to which records are appended. Each answer says what a crash,
//! now or at any earlier moment, may have left, and whether the disk's count of faults rose.
ghost use Rattle.std.specs.Prelude.{◌≡◌, ◌⊎◌, ◌+◌, ◌*◌, ◌^◌, ◌<◌, ◌≤◌, ◌↔◌, List, ℕ, length, map, true, false, IsTrue, IfOk, IfErr, OnOk, OnErr, IsErrOf, All};
ghost use Rattle.prv_disk.specs.Crashes.{AddsOnly};
ghost use Rattle.prv_io.specs.Faults.{Rose};
ghost use Rattle.prv_journal.specs.Errors.{UnlessLoadFailed, UnlessAppendFailed};
ghost use Rattle.prv_journal.specs.declared.reading.TheConstants.{MAX_PAYLOAD};
ghost use Rattle.prv_journal.specs.Records.{Payloads, records, followed_by};
ghost use Rattle.prv_journal.specs.Journals.{Has, HasBeforeOrWith, disk_after, TellsDamage};

use crate::append::append_record;
use crate::opening::open;
use crate::reading::{HEAD, MAX_PAYLOAD};
use crate::{AppendError, LoadError};
use prv_disk::{Disk, DiskError};
use std::alloc::Global;
use std::marker::Model;

/// Records on a disk, to which more can be appended.
#[derive(Drop)]
pub struct Journal<D: Disk> {
    // Where the bytes of a record are put together.
    alloc: Global,
    // What the records stand on.
    disk: D,
    // Where the first closed gate stands, from 0.
    end: u64,
    // How many records there are.
    count: u64,
    // A call of the disk failed in an append.
    is_broken: bool,
}

impl<D: Disk> Model for Journal<D> {
    ghost use Rattle.std.specs.Prelude.{◌≡◌, ◌*◌, ◌≤◌, false};
    ghost use Rattle.prv_journal.specs.Ends.{HasSettled};
    ghost use Rattle.prv_journal.specs.Journals.{OpenJournal};

    ghost Value = { OpenJournal D };

    ghost view = { λ j. record { disk = j.disk; count = j.count; is_broken = j.is_broken } };

    ghost invariant = { λ j. (j.end ≤ 17_000_005 * j.count) × (D.Tells → j.is_broken ≡ false → HasSettled (D.seen j.disk) (D.may_leave j.disk) j.end j.count) };
}

impl<D: Disk> Journal<D> {
    /// The journal on this disk, and the payloads of its records. A file of no or one byte becomes a fresh one. An
    /// `Err` gives the disk back: `Damaged` comes exactly where the records are, and `Device` where a call of the disk failed.
    pub fn load(alloc: Global, mut disk: D) -> Result<(Journal<D>, Vec<Vec<u8>>), (LoadError, D)>
        // The payloads are those of the records, all of which lasts.
        ensures payloads { IfOk result (λ opened. D.Tells → records (D.seen disk) ≡ Payloads (map (λ payload. payload.items) opened.1.items)) }
        ensures same { IfOk result (λ opened. D.Tells → Has (records (D.seen disk)) (D.seen opened.0.disk)) }
        ensures lasting { IfOk result (λ opened. D.Tells → (image : List ℕ) → D.may_leave opened.0.disk image → Has (records (D.seen disk)) image) }
        ensures count { IfOk result (λ opened. opened.0.count ≡ length opened.1.items) }
        ensures short { IfOk result (λ opened. All (λ payload. length payload.items ≤ MAX_PAYLOAD) opened.1.items) }
        ensures whole { IfOk result (λ opened. opened.0.is_broken ≡ false) }

        // A crash at any moment leaves what one might have left before, or the same records.
        ensures any_moment { D.Tells → AddsOnly (D.moment disk) (D.moment (disk_after result)) (D.left_since disk) (D.left_since (disk_after result)) (Has (records (D.seen disk))) }

        ensures damaged { IfErr result (λ refused. D.Tells → TellsDamage refused.0 (records (D.seen disk))) }

        // A fault is answered only where the disk counted one, and counted only where it is answered.
        ensures device { IfErr result (λ refused. refused.0 ≡ LoadError.Device → Rose (D.faults disk) (D.faults refused.1)) }
        ensures kept { UnlessLoadFailed result (D.faults (disk_after result) ≡ D.faults disk) }
        ensures never_falls { D.faults disk ≤ D.faults (disk_after result) }
    {
        match open(alloc, &mut disk) {
            Err(error) => Err((error, disk)),
            Ok(found) => {
                let journal = Journal {
                    alloc,
                    disk,
                    end: found.end as u64,
                    count: found.payloads.len() as u64,
                    is_broken: false,
                };
                Ok((journal, found.payloads))
            }
        }
    }

    /// Appends a record in four calls of the disk, and answers how many records there were before. Once it has
    /// answered, the record lasts. `TooLong` comes exactly for more than 17,000,000 bytes, and `Broken` exactly where an earlier
    /// append answered `Device`. After `Memory` the records are those from before.
    pub fn append(&mut self, payload: &[u8]) -> Result<u32, AppendError>
        requires { self.old.count < 2 ^ 32 }

        ensures number { IfOk result (λ number. number ≡ self.old.count) }
        ensures count { OnOk result (self.new.count ≡ self.old.count + 1) }
        ensures as_many { OnErr result (self.new.count ≡ self.old.count) }
        ensures added { OnOk result (D.Tells → Has (followed_by payload.now (records (D.seen self.old.disk))) (D.seen self.new.disk)) }
        ensures lasting { OnOk result (D.Tells → (image : List ℕ) → D.may_leave self.new.disk image → Has (followed_by payload.now (records (D.seen self.old.disk))) image) }
        ensures four_calls { OnOk result (D.Tells → D.moment self.new.disk ≡ D.moment self.old.disk + 4) }

        // A crash at any moment of the call leaves the records from before it, or these and the new one.
        ensures any_moment { D.Tells → self.old.is_broken ≡ false → (image : List ℕ) → D.left_since self.new.disk (D.moment self.old.disk) image → HasBeforeOrWith (records (D.seen self.old.disk)) payload.now image }
        ensures earlier { D.Tells → self.old.is_broken ≡ false → AddsOnly (D.moment self.old.disk) (D.moment self.new.disk) (D.left_since self.old.disk) (D.left_since self.new.disk) (HasBeforeOrWith (records (D.seen self.old.disk)) payload.now) }
        ensures memory { IsErrOf result AppendError.Memory → D.Tells → (image : List ℕ) → D.left_since self.new.disk (D.moment self.old.disk) image → Has (records (D.seen self.old.disk)) image }
        ensures earlier_memory { IsErrOf result AppendError.Memory → D.Tells → AddsOnly (D.moment self.old.disk) (D.moment self.new.disk) (D.left_since self.old.disk) (D.left_since self.new.disk) (Has (records (D.seen self.old.disk))) }
        ensures same { IsErrOf result AppendError.Memory → D.Tells → Has (records (D.seen self.old.disk)) (D.seen self.new.disk) }

        // When each error comes, and what it leaves.
        ensures unchanged { (MAX_PAYLOAD < length payload.now) ⊎ IsTrue self.old.is_broken → self.new ≡ self.old }
        ensures too_long { IsErrOf result AppendError.TooLong ↔ (MAX_PAYLOAD < length payload.now) }
        ensures broken { IsErrOf result AppendError.Broken ↔ ((length payload.now ≤ MAX_PAYLOAD) × IsTrue self.old.is_broken) }
        ensures device { IsErrOf result AppendError.Device ↔ ((self.old.is_broken ≡ false) × IsTrue self.new.is_broken) }

        // A fault is answered only where the disk counted one, and counted only where it is answered.
        ensures failed { IsErrOf result AppendError.Device → Rose (D.faults self.old.disk) (D.faults self.new.disk) }
        ensures kept { UnlessAppendFailed result (D.faults self.new.disk ≡ D.faults self.old.disk) }
        ensures never_falls { D.faults self.old.disk ≤ D.faults self.new.disk }
    {
        let end = self.end;
        if payload.len() > MAX_PAYLOAD {
            return Err(AppendError::TooLong);
        }
        if self.is_broken {
            return Err(AppendError::Broken);
        }
        match append_record(self.alloc, &mut self.disk, end, payload) {
            Ok(()) => {}
            Err(DiskError::Memory) => return Err(AppendError::Memory),
            Err(DiskError::Failed) => {
                self.is_broken = true;
                return Err(AppendError::Device);
            }
        }
        let number = self.count as u32;
        self.end = end + (HEAD + payload.len()) as u64;
        self.count += 1;
        Ok(number)
    }

    /// How many records there are. An append answers this number, and only one that is done makes it one more.
    pub fn count(&self) -> u64
        ensures { result ≡ self.now.count }
    {
        self.count
    }

    /// Whether an earlier append of this journal answered `Device`. If so, each append answers `Broken` or `TooLong`.
    pub fn is_broken(&self) -> bool
        ensures { result ≡ self.now.is_broken }
    {
        self.is_broken
    }

    /// The disk that it is on.
    pub fn into_disk(self) -> D
        ensures { result ≡ self.disk }
    {
        self.disk
    }
}
