//! The progress of an exploration, shown on a terminal.
use crate::refusal_line::{Line, push_labelled};
use prv_explore::Progress;
use std::io::{IsTerminal, Write};
use std::time::{Clock, Duration, Instant};

/// The least time between two lines, and before the first, in milliseconds.
const PAUSE: u64 = 250;

/// Empties the line that the cursor is on: a carriage return, and Erase in Line of ECMA-48, 8.3.41.
const WIPE: &str = "\r\x1b[K";

/// Shows on a terminal how far an exploration is, in one line that is written anew at most four times a second
/// and is wiped at the end. Where the clock fails or the line can't be written, less is shown.
#[derive(Drop)]
pub struct TerminalProgress<W: Write, C: Clock> {
    /// Where the line is written.
    out: W,
    /// What tells the time.
    clock: C,
    /// When it began. None where nothing is shown.
    begun: Option<Instant>,
    /// When the line that stands was written.
    written: Option<Instant>,
}

impl<W: Write + IsTerminal, C: Clock> TerminalProgress<W, C> {
    /// Progress that is shown on `out` where that is a terminal, and else nowhere.
    pub fn new(out: W, clock: C) -> TerminalProgress<W, C> {
        let begun = if out.is_terminal() {
            Instant::now(&clock).ok()
        } else {
            None
        };
        TerminalProgress {
            out,
            clock,
            begun,
            written: None,
        }
    }
}

impl<W: Write, C: Clock> Progress for TerminalProgress<W, C> {
    fn made(&mut self, settlements: u32, open: u32) {
        let Some(begun) = self.begun else { return };
        let Ok(now) = Instant::now(&self.clock) else {
            return;
        };
        let last = self.written.unwrap_or(begun);
        if now.duration_since(last) < Duration::from_millis(PAUSE) {
            return;
        }
        let line = line_of(settlements, open, now.duration_since(begun).as_secs());
        let _ = self.out.write_all(line.as_str().as_bytes());
        self.written = Some(now);
    }

    fn ended(&mut self) {
        if self.written.take().is_some() {
            let _ = self.out.write_all(WIPE.as_bytes());
        }
    }
}

/// The line of these counts, in the place of the one that stands.
fn line_of(settlements: u32, open: u32, seconds: u64) -> Line {
    let mut line = Line::new();
    line.push_str(WIPE);
    push_labelled(&mut line, "settlements ", settlements);
    push_labelled(&mut line, ", open ", open);
    push_labelled(&mut line, ", seconds ", seconds);
    line
}
