//! Writes that were done, and what they make of the bytes before them: all of their bytes where they are lasting, and any
//! bytes in their range where a crash came before a sync.
ghost use Rattle.std.specs.Prelude.{◌≡◌, OnOk, OnErr, replicate, if◌then◌else◌, ◌==◌};
ghost use Rattle.prv_disk.specs.Bytes.{overwritten};
ghost use Rattle.prv_disk.specs.MemDisk.{picked, after_picks};

use crate::quiet_calls::QuietCalls;
use std::alloc::AllocError;
use std::marker::Model;

/// A write that was done.
#[derive(Debug, Drop)]
pub struct PastWrite {
    /// The calls between it and the write before it.
    pub before: QuietCalls,
    /// Where its first byte stands, from 0.
    pub at: u64,
    /// The bytes that it wrote.
    pub bytes: Vec<u8>,
}

impl Model for PastWrite {
    ghost use Rattle.prv_disk.specs.MemDisk.{Written};

    ghost Value = { Written };

    ghost view = { λ w. record { before = w.before; at = w.at; bytes = w.bytes.items } };
}

/// Writes the piece over what stands from `at` on, and past the end.
pub fn overwrite(file: &mut Vec<u8>, at: u64, piece: &[u8]) -> Result<(), AllocError>
    ensures ok { OnOk result (file.new.items ≡ overwritten file.old.items at piece.now) }
    ensures err { OnErr result (file.new.items ≡ file.old.items) }
{
    let at = file.len().min(at as usize);
    let inside = piece.len().min(file.len() - at);
    file.extend_from_slice(&piece[inside..])?;
    file[at..at + inside].copy_from_slice(&piece[..inside]);
    Ok(())
}

// What a crash leaves of a write that no sync made lasting: nothing for 0, all of it for 1, and else the pick in each
// of its bytes.
fn leave(file: &mut Vec<u8>, pick: u8, write: &PastWrite) -> Result<(), AllocError>
    ensures { OnOk result (file.new.items ≡ picked pick write.now.at write.now.bytes file.old.items) }
{
    match pick {
        0 => Ok(()),
        1 => overwrite(file, write.at, &write.bytes),
        _ => {
            let bytes = vec![in *file.allocator(); pick; write.bytes.len()]?;
            overwrite(file, write.at, &bytes)
        }
    }
}

/// What a crash leaves of these writes: nothing for 0, all of them for 1, and else the pick in each of their bytes.
pub fn leave_all(file: &mut Vec<u8>, pick: u8, writes: &[PastWrite]) -> Result<(), AllocError>
    ensures { OnOk result (file.new.items ≡ after_picks pick writes.now file.old.items) }
{
    for write in writes {
        leave(file, pick, write)?;
    }
    Ok(())
}
