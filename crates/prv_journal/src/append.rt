//! How a record comes onto the disk: first the record behind the closed gate, where no reading sees it, and a sync; then
//! the one byte that opens the gate, and a sync. So at each moment a crash leaves the record whole or not at all.
ghost use Rattle.std.specs.Prelude.{◌≡◌, ◌+◌, ◌^◌, ◌<◌, ◌≤◌, [], ◌∷◌, ◌++◌, List, ℕ, length, IfOk, OnOk, IsErrOf};
ghost use Rattle.std.specs.Int.{w32, to_le_bytes};
ghost use Rattle.prv_disk.specs.Bytes.{overwritten, Torn};
ghost use Rattle.prv_disk.specs.Crashes.{Only, AddsOnly};
ghost use Rattle.prv_disk.specs.Faults.{UnlessFailed};
ghost use Rattle.prv_io.specs.Faults.{Rose};
ghost use Rattle.prv_journal.specs.declared.reading.TheConstants.{MAX_PAYLOAD};
ghost use Rattle.prv_journal.specs.Records.{Payloads};
ghost use Rattle.prv_journal.specs.Ends.{IsSettled};
ghost use Rattle.prv_journal.specs.Journals.{Has, HasOrWith};

use crate::reading::{CLOSED, OPEN};
use prv_disk::{Disk, DiskError};
use std::alloc::{AllocError, Global};

/// Writes bytes and makes them lasting.
pub fn write_lasting<D: Disk>(disk: &mut D, at: u64, piece: &[u8]) -> Result<(), DiskError>
    requires within { D.Tells → at ≤ length (D.seen disk.old) }
    requires lasting { D.Tells → Only (D.seen disk.old) (D.may_leave disk.old) }

    ensures written { OnOk result (D.Tells → D.seen disk.new ≡ overwritten (D.seen disk.old) at piece.now) }
    ensures lasting { OnOk result (D.Tells → Only (D.seen disk.new) (D.may_leave disk.new)) }
    ensures two_calls { OnOk result (D.Tells → D.moment disk.new ≡ D.moment disk.old + 2) }
    ensures any_moment { D.Tells → AddsOnly (D.moment disk.old) (D.moment disk.new) (D.left_since disk.old) (D.left_since disk.new) (Torn at (length piece.now) (D.seen disk.old)) }

    ensures unchanged { IsErrOf result DiskError.Memory → disk.new ≡ disk.old }
    ensures never_falls { D.faults disk.old ≤ D.faults disk.new }
    ensures failed { IsErrOf result DiskError.Failed → Rose (D.faults disk.old) (D.faults disk.new) }
    ensures kept { UnlessFailed result (D.faults disk.new ≡ D.faults disk.old) }
{
    disk.write_at(at, piece)?;
    disk.sync()?;
    Ok(())
}

// A record, and a closed gate behind it.
fn record_bytes(alloc: Global, payload: &[u8]) -> Result<Vec<u8>, AllocError>
    requires { length payload.now ≤ MAX_PAYLOAD }
    ensures { IfOk result (λ bytes. bytes.items ≡ to_le_bytes w32 (length payload.now) ++ payload.now ++ 0 ∷ []) }
{
    let mut bytes = Vec::with_capacity(alloc, payload.len() + 5)?;
    bytes.extend_from_slice(&(payload.len() as u32).to_le_bytes())?;
    bytes.extend_from_slice(payload)?;
    bytes.extend_from_slice(&[CLOSED])?;
    Ok(bytes)
}

/// Writes a record behind the closed gate at `end`, and opens that gate once the record is lasting.
pub fn append_record<D: Disk>(
    alloc: Global,
    disk: &mut D,
    end: u64,
    payload: &[u8],
) -> Result<(), DiskError>
    requires short { length payload.now ≤ MAX_PAYLOAD }
    requires room { end < 2 ^ 63 }
    requires settled { D.Tells → IsSettled (D.seen disk.old) (D.may_leave disk.old) end }

    ensures added { OnOk result (D.Tells → (s : IsSettled (D.seen disk.old) (D.may_leave disk.old) end) → (t : IsSettled (D.seen disk.new) (D.may_leave disk.new) (end + 5 + length payload.now)) × (t.payloads ≡ s.payloads ++ payload.now ∷ [])) }
    ensures four_calls { OnOk result (D.Tells → D.moment disk.new ≡ D.moment disk.old + 4) }
    ensures any_moment { D.Tells → (s : IsSettled (D.seen disk.old) (D.may_leave disk.old) end) → AddsOnly (D.moment disk.old) (D.moment disk.new) (D.left_since disk.old) (D.left_since disk.new) (HasOrWith s.payloads payload.now) }

    ensures same { IsErrOf result DiskError.Memory → D.Tells → (s : IsSettled (D.seen disk.old) (D.may_leave disk.old) end) → (t : IsSettled (D.seen disk.new) (D.may_leave disk.new) end) × (t.payloads ≡ s.payloads) }
    ensures memory { IsErrOf result DiskError.Memory → D.Tells → (s : IsSettled (D.seen disk.old) (D.may_leave disk.old) end) → AddsOnly (D.moment disk.old) (D.moment disk.new) (D.left_since disk.old) (D.left_since disk.new) (Has (Payloads s.payloads)) }
    ensures never_falls { D.faults disk.old ≤ D.faults disk.new }
    ensures failed { IsErrOf result DiskError.Failed → Rose (D.faults disk.old) (D.faults disk.new) }
    ensures kept { UnlessFailed result (D.faults disk.new ≡ D.faults disk.old) }
{
    let bytes = record_bytes(alloc, payload)?;
    write_lasting(disk, end + 1, &bytes)?;
    write_lasting(disk, end, &[OPEN])?;
    Ok(())
}
