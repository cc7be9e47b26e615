//! How the bytes of a disk become a journal's. All that is there is made lasting before it is read: what an earlier program
//! wrote and no sync reached would else be read as a record that a crash can still take away.
ghost use Rattle.std.specs.Prelude.{◌≡◌, ◌+◌, ◌*◌, ◌≤◌, List, ℕ, length, map, take, IfOk, IfErr, OnOk, IsErrOf, All};
ghost use Rattle.prv_disk.specs.Crashes.{Only, AddsOnly};
ghost use Rattle.prv_io.specs.Faults.{Rose};
ghost use Rattle.prv_journal.specs.Errors.{UnlessDevice};
ghost use Rattle.prv_journal.specs.declared.reading.TheConstants.{MAX_PAYLOAD};
ghost use Rattle.prv_journal.specs.Records.{Records, records};
ghost use Rattle.prv_journal.specs.Ends.{IsSettled};
ghost use Rattle.prv_journal.specs.Journals.{Has, TellsDamage};

use crate::LoadError;
use crate::append::write_lasting;
use crate::reading::{CLOSED, Found, read_records};
use prv_disk::Disk;
use std::alloc::Global;

// All the bytes of a disk, once they are lasting.
fn read_all<D: Disk>(alloc: Global, disk: &mut D) -> Result<Vec<u8>, LoadError>
    ensures bytes { IfOk result (λ bytes. D.Tells → bytes.items ≡ D.seen disk.old) }
    ensures seen { D.Tells → D.seen disk.new ≡ D.seen disk.old }
    ensures lasting { OnOk result (D.Tells → Only (D.seen disk.old) (D.may_leave disk.new)) }
    ensures any_moment { D.Tells → AddsOnly (D.moment disk.old) (D.moment disk.new) (D.left_since disk.old) (D.left_since disk.new) (λ image. image ≡ D.seen disk.old) }
    ensures never_falls { D.faults disk.old ≤ D.faults disk.new }
    ensures failed { IsErrOf result LoadError.Device → Rose (D.faults disk.old) (D.faults disk.new) }
    ensures no_fault { OnOk result (D.faults disk.new ≡ D.faults disk.old) }
    ensures kept { IfErr result (λ error. UnlessDevice error (D.faults disk.new ≡ D.faults disk.old)) }
    ensures undamaged { IfErr result (λ error. (found : Records) → TellsDamage error found) }
{
    disk.sync()?;
    let len = disk.len()?;
    let mut bytes = vec![in alloc; 0; len as usize]?;
    disk.read_at(0, &mut bytes)?;
    Ok(bytes)
}

/// Makes all of a disk lasting and reads its records. A file of no or one byte becomes a closed gate.
pub fn open<D: Disk>(alloc: Global, disk: &mut D) -> Result<Found, LoadError>
    ensures found { IfOk result (λ found. D.Tells → (s : IsSettled (D.seen disk.new) (D.may_leave disk.new) found.end) × (s.payloads ≡ map (λ payload. payload.items) found.payloads.items)) }
    ensures same { OnOk result (D.Tells → Has (records (D.seen disk.old)) (D.seen disk.new)) }
    ensures size { IfOk result (λ found. found.end ≤ 17_000_005 * length found.payloads.items) }
    ensures short { IfOk result (λ found. All (λ payload. length payload.items ≤ MAX_PAYLOAD) found.payloads.items) }
    ensures any_moment { D.Tells → AddsOnly (D.moment disk.old) (D.moment disk.new) (D.left_since disk.old) (D.left_since disk.new) (Has (records (D.seen disk.old))) }
    ensures damaged { IfErr result (λ error. D.Tells → TellsDamage error (records (D.seen disk.old))) }
    ensures never_falls { D.faults disk.old ≤ D.faults disk.new }
    ensures failed { IsErrOf result LoadError.Device → Rose (D.faults disk.old) (D.faults disk.new) }
    ensures no_fault { OnOk result (D.faults disk.new ≡ D.faults disk.old) }
    ensures kept { IfErr result (λ error. UnlessDevice error (D.faults disk.new ≡ D.faults disk.old)) }
{
    let bytes = read_all(alloc, disk)?;
    if bytes.len() > 1 {
        let found = read_records(alloc, &bytes)?;
        return Ok(found);
    }
    write_lasting(disk, 0, &[CLOSED])?;
    Ok(Found {
        payloads: Vec::new(alloc),
        end: 0,
    })
}
