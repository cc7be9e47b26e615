//! The records in the bytes of a file: from the first byte on a gate, and where it is open a record and the next gate. An
//! open gate with no whole record behind it is damage, which no crash leaves.
ghost use Rattle.std.specs.Prelude.{◌≡◌, ◌*◌, ◌<◌, ◌≤◌, false, true, length, map, IfOk, IfErr, IsErrOf, IfSome, IfNone, All};
ghost use Rattle.prv_journal.specs.Records.{records, is_whole, payload};
ghost use Rattle.prv_journal.specs.Ends.{EndsAt};
ghost use Rattle.prv_journal.specs.Journals.{TellsDamage};

use crate::LoadError;
use std::alloc::{AllocError, Global};

/// The byte of an open gate. With any other the gate is closed.
pub const OPEN: u8 = 1;

/// The byte that is written for a closed gate.
pub const CLOSED: u8 = 0;

/// A payload has at most so many bytes.
pub const MAX_PAYLOAD: usize = 17_000_000;

/// What stands before a payload: its gate, and its length in four bytes.
pub const HEAD: usize = 5;

/// What stands in a file up to its first closed gate.
#[derive(Debug, Drop)]
pub struct Found {
    /// The payloads, the first record's first.
    pub payloads: Vec<Vec<u8>>,
    /// Where the first closed gate stands, from 0.
    pub end: usize,
}

// The payload of the whole record that these bytes begin with, if they do.
fn whole_record(bytes: &[u8]) -> Option<&[u8]>
    ensures some { IfSome result (λ found. (is_whole bytes.now ≡ true) × (found.now ≡ payload bytes.now)) }
    ensures none { IfNone result (is_whole bytes.now ≡ false) }
{
    let (length, rest) = bytes.split_first_chunk::<4>()?;
    let length = u32::from_le_bytes(*length) as usize;
    if length > MAX_PAYLOAD || length >= rest.len() {
        return None;
    }
    Some(&rest[..length])
}

/// The records of a file of two bytes or more.
pub fn read_records(alloc: Global, bytes: &[u8]) -> Result<Found, LoadError>
    requires { 1 < length bytes.now }
    ensures ends { IfOk result (λ found. EndsAt bytes.now found.end (map (λ payload. payload.items) found.payloads.items)) }
    ensures size { IfOk result (λ found. found.end ≤ 17_000_005 * length found.payloads.items) }
    ensures short { IfOk result (λ found. All (λ payload. length payload.items ≤ MAX_PAYLOAD) found.payloads.items) }
    ensures damaged { IfErr result (λ error. TellsDamage error (records bytes.now)) }
    ensures no_fault { IsErrOf result LoadError.Device → ⊥ }
{
    let mut payloads = Vec::new(alloc);
    let mut end = 0;
    while bytes[end] == OPEN {
        let behind = &bytes[end + 1..];
        let Some(payload) = whole_record(behind) else {
            return Err(LoadError::Damaged {
                offset: end as u64,
                found: behind.len() as u64,
            });
        };
        payloads.push(payload.to_vec(alloc)?)?;
        end += HEAD + payload.len();
    }
    Ok(Found { payloads, end })
}
