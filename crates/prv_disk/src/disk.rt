//! A disk as those see it who keep something on it: bytes by place, a sync, and which images a crash may leave. What is
//! assumed of a device, of torn sectors and of failed syncs stands at the head of the definitions of crashes.
ghost use Rattle.std.specs.Prelude.{◌≡◌, ℕ, ◌+◌, ◌≤◌, List, length, take, drop, IfOk, OnOk, OnErr, IsErrOf};
ghost use Rattle.prv_disk.specs.declared.disk.DiskError.TheVariants.{Failed, Memory};
ghost use Rattle.prv_disk.specs.Bytes.{overwritten, Torn};
ghost use Rattle.prv_disk.specs.Crashes.{NoMore, Follows, Only, Passes};
ghost use Rattle.prv_disk.specs.Faults.{UnlessFailed};
ghost use Rattle.prv_io.specs.Faults.{Rose};

use prv_io::Failed;
use std::alloc::{AllocError, AllocFailed};
use thiserror::Error;

/// Why a call of a disk was not done.
#[derive(Clone, Copy, Debug, PartialEq, Eq, Error)]
pub enum DiskError {
    /// The call failed, and the disk counted a fault.
    #[error("the call failed")]
    Failed,
    /// Out of memory.
    #[error("out of memory")]
    Memory,
}

impl From<Failed> for DiskError {
    ghost from_gives = { λ _ e. e ≡ Failed };

    fn from(_: Failed) -> Self {
        DiskError::Failed
    }
}

impl From<AllocError> for DiskError {
    ghost from_gives = { λ _ e. e ≡ Memory };

    fn from(_: AllocError) -> Self {
        DiskError::Memory
    }
}

/// Bytes that outlast the program, by place. A disk counts its faults, and may tell what it holds and what a crash
/// may leave of it: what is said here of bytes, crashes and moments holds of one that does.
pub trait Disk {
    /// How many calls have failed, up to where the count stands still.
    ghost faults: { Self → ℕ };

    /// That a disk of this type tells what it holds.
    ghost Tells: { Type 0 };

    /// The bytes that a read gives.
    ghost seen: { Self → List ℕ };

    /// A crash now may leave this image.
    ghost may_leave: { Self → List ℕ → Type 0 };

    /// How many calls were done.
    ghost moment: { Self → ℕ };

    /// A crash at some moment since this one, during a call or between two, may have left this image.
    ghost left_since: { Self → ℕ → List ℕ → Type 0 };

    /// How many bytes there are.
    fn len(&mut self) -> Result<u64, DiskError>
        ensures count { IfOk result (λ n. Tells → n ≡ length (seen self.old)) }

        ensures seen { Tells → seen self.new ≡ seen self.old }
        ensures crash { Tells → NoMore (may_leave self.old) (may_leave self.new) }
        ensures time { Tells → Passes (moment self.old) (moment self.new) (left_since self.old) (left_since self.new) (may_leave self.new) }
        ensures counted { OnOk result (Tells → moment self.new ≡ moment self.old + 1) }

        ensures never_falls { faults self.old ≤ faults self.new }
        ensures failed { IsErrOf result DiskError.Failed → Rose (faults self.old) (faults self.new) }
        ensures kept { UnlessFailed result (faults self.new ≡ faults self.old) }
        ensures unchanged { IsErrOf result DiskError.Memory → self.new ≡ self.old };

    /// Fills `into` with the bytes from `at` on. After an `Err` it holds any bytes.
    fn read_at(&mut self, at: u64, into: &mut [u8]) -> Result<(), DiskError>
        requires { Tells → at + length into.old ≤ length (seen self.old) }
        ensures bytes { OnOk result (Tells → into.new ≡ take (length into.old) (drop at (seen self.old))) }

        ensures seen { Tells → seen self.new ≡ seen self.old }
        ensures crash { Tells → NoMore (may_leave self.old) (may_leave self.new) }
        ensures time { Tells → Passes (moment self.old) (moment self.new) (left_since self.old) (left_since self.new) (may_leave self.new) }
        ensures counted { OnOk result (Tells → moment self.new ≡ moment self.old + 1) }

        ensures never_falls { faults self.old ≤ faults self.new }
        ensures failed { IsErrOf result DiskError.Failed → Rose (faults self.old) (faults self.new) }
        ensures kept { UnlessFailed result (faults self.new ≡ faults self.old) }
        ensures unchanged { IsErrOf result DiskError.Memory → self.new ≡ self.old };

    /// Writes the piece over what stands from `at` on, and past the end. Until a sync a crash may leave any bytes
    /// in the range. A write that has failed may have left any bytes there, for reads too.
    fn write_at(&mut self, at: u64, piece: &[u8]) -> Result<(), DiskError>
        requires { Tells → at ≤ length (seen self.old) }
        ensures written { OnOk result (Tells → seen self.new ≡ overwritten (seen self.old) at piece.now) }
        ensures torn { IsErrOf result DiskError.Failed → Tells → Torn at (length piece.now) (seen self.old) (seen self.new) }

        ensures crash { Tells → Follows (Torn at (length piece.now)) (may_leave self.old) (may_leave self.new) }
        ensures time { Tells → Passes (moment self.old) (moment self.new) (left_since self.old) (left_since self.new) (may_leave self.new) }
        ensures counted { OnOk result (Tells → moment self.new ≡ moment self.old + 1) }

        ensures never_falls { faults self.old ≤ faults self.new }
        ensures failed { IsErrOf result DiskError.Failed → Rose (faults self.old) (faults self.new) }
        ensures kept { UnlessFailed result (faults self.new ≡ faults self.old) }
        ensures unchanged { IsErrOf result DiskError.Memory → self.new ≡ self.old };

    /// Makes what was written lasting: after it a crash leaves what a read gives. After a sync that has failed a
    /// crash may leave what it might have left before, and no more.
    fn sync(&mut self) -> Result<(), Failed>
        ensures lasting { OnOk result (Tells → Only (seen self.old) (may_leave self.new)) }

        ensures seen { Tells → seen self.new ≡ seen self.old }
        ensures crash { Tells → NoMore (may_leave self.old) (may_leave self.new) }
        ensures time { Tells → Passes (moment self.old) (moment self.new) (left_since self.old) (left_since self.new) (may_leave self.new) }
        ensures counted { OnOk result (Tells → moment self.new ≡ moment self.old + 1) }

        ensures never_falls { faults self.old ≤ faults self.new }
        ensures failed { OnErr result (Rose (faults self.old) (faults self.new)) }
        ensures kept { OnOk result (faults self.new ≡ faults self.old) };

    /// A program that stops leaves what it wrote: that is one of the images.
    ghost seen_stays: { (disk : Self) → may_leave disk (seen disk) };

    /// This moment is one of those since an earlier one.
    ghost counts_now: { (disk : Self) (t : ℕ) (image : List ℕ) → t ≤ moment disk → may_leave disk image → left_since disk t image };

    /// Since this moment there is no other.
    ghost only_now: { (disk : Self) (image : List ℕ) → left_since disk (moment disk) image → may_leave disk image };
}
