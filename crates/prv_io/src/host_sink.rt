//! A real output behind the trait `Sink`. No clause says what it has taken: that it is the bytes in order is tested
//! over writers that are slow, interrupted and full.
ghost use Rattle.std.specs.Prelude.{◌≡◌, ◌<◌, ◌≤◌, length, take, IfOk, IfSome, IfNone, OnErr};
ghost use Rattle.std.specs.Io.KnownBytes.{Appends, Keeps};

use crate::{Failed, Sink};
use std::io;
use std::io::Write;
use std::marker::Model;

/// A writer of std as a sink. It tells nothing of what it has taken.
#[derive(Drop)]
pub struct HostSink<W: Write> {
    // What the bytes go to.
    out: W,
    // How many writes have failed. It stands still at 2^64 - 1.
    faults: u64,
}

impl<W: Write> Model for HostSink<W> {
    ghost use Rattle.std.specs.Prelude.{ℕ};

    ghost Value = { ℕ };

    ghost view = { λ sink. sink.faults };
}

impl<W: Write> HostSink<W> {
    /// A sink that writes to `out`. Nothing has been written yet.
    pub fn new(out: W) -> HostSink<W>
        ensures { result ≡ 0 }
    {
        HostSink { out, faults: 0 }
    }

    /// How many writes have failed.
    pub fn faults(&self) -> u64
        ensures { result ≡ self.now }
    {
        self.faults
    }
}

// One write, begun again where a signal interrupts it.
fn write_once<W: Write>(out: &mut W, piece: &[u8]) -> io::Result<usize>
    ensures within { IfOk result (λ n. n ≤ length piece.now) }
    ensures taken { IfOk result (λ n. Appends (W.contents out.old) (W.contents out.new) (take n piece.now)) }
    ensures untaken { OnErr result (Keeps (W.contents out.old) (W.contents out.new)) }
{
    for _ in 0..u64::MAX {
        match out.write(piece) {
            Err(error) if error.kind() == io::ErrorKind::Interrupted => {}
            answer => return answer,
        }
    }
    Err(io::Error::from(io::ErrorKind::TimedOut))
}

// How many of the first bytes were taken, one at least unless the piece is empty, or none where that failed.
fn write_some<W: Write>(out: &mut W, piece: &[u8]) -> Option<u32>
    ensures within { IfSome result (λ n. n ≤ length piece.now) }
    ensures some { IfSome result (λ n. 0 < length piece.now → 0 < n) }
    ensures taken { IfSome result (λ n. Appends (W.contents out.old) (W.contents out.new) (take n piece.now)) }
    ensures untaken { IfNone result (Keeps (W.contents out.old) (W.contents out.new)) }
{
    let offered = &piece[..piece.len().min(u32::MAX as usize)];
    match write_once(out, offered) {
        Ok(count) if count > 0 || piece.is_empty() => Some(count as u32),
        _ => None,
    }
}

impl<W: Write> Sink for HostSink<W> {
    ghost faults = { λ sink. sink };

    /// Offers the writer no more than 4,294,967,295 bytes at a time.
    fn write(&mut self, piece: &[u8]) -> Result<u32, Failed> {
        let count = write_some(&mut self.out, piece);
        if count.is_none() {
            self.faults = self.faults.saturating_add(1);
        }
        count.ok_or(Failed)
    }
}
