//! What takes bytes, in order, as the program sees it: a trait, whose one call may take a part of a piece, and
//! `write_all` above it, which goes on until all is taken or a write fails.
ghost use Rattle.std.specs.Prelude.{◌≡◌, ℕ, ◌<◌, ◌≤◌, List, length, take, Option, None, IfOk, OnOk, OnErr};
ghost use Rattle.std.specs.Io.KnownBytes.{append_known};
ghost use Rattle.prv_io.specs.Faults.{Rose};
ghost use Rattle.prv_io.specs.Sink.{TakesPart};

use thiserror::Error;

/// A fault, which the object that answers it counted.
#[derive(Clone, Copy, Debug, PartialEq, Eq, Error)]
#[error("the call failed")]
pub struct Failed;

/// What takes bytes, in order. An object may tell which it has taken, and counts its faults.
pub trait Sink {
    /// How many writes have failed, up to where the count stands still.
    ghost faults: { Self → ℕ };

    /// The bytes that were taken so far, where the object tells them.
    ghost taken: { Self → Option (List ℕ) } = { λ _. None };

    /// Takes the first bytes of a piece and answers how many they are, one at least unless the piece is empty.
    /// `Failed` comes where none can be taken, and then none was.
    fn write(&mut self, piece: &[u8]) -> Result<u32, Failed>
        // A fault is answered only where one was counted, and counted only where it is answered.
        ensures never_falls { faults self.old ≤ faults self.new }
        ensures failed { OnErr result (Rose (faults self.old) (faults self.new)) }
        ensures kept { OnOk result (faults self.new ≡ faults self.old) }

        // The bytes taken are the first of the piece.
        ensures within { IfOk result (λ n. n ≤ length piece.now) }
        ensures some { IfOk result (λ n. 0 < length piece.now → 0 < n) }
        ensures taken { IfOk result (λ n. taken self.new ≡ append_known (taken self.old) (take n piece.now)) }
        ensures untaken { OnErr result (taken self.new ≡ taken self.old) };
}

/// Writes all of the bytes, in order. `Failed` comes where a write failed, and then some of the first bytes were
/// taken, but not all. It takes no memory.
pub fn write_all<O: Sink>(out: &mut O, bytes: &[u8]) -> Result<(), Failed>
    ensures never_falls { O.faults out.old ≤ O.faults out.new }
    ensures failed { OnErr result (Rose (O.faults out.old) (O.faults out.new)) }
    ensures kept { OnOk result (O.faults out.new ≡ O.faults out.old) }
    ensures taken { OnOk result (O.taken out.new ≡ append_known (O.taken out.old) bytes.now) }
    ensures part { OnErr result (TakesPart (O.taken out.old) (O.taken out.new) bytes.now) }
{
    let mut count = 0;
    while count < bytes.len() {
        count += out.write(&bytes[count..])? as usize;
    }
    Ok(())
}
