//! The last line of a report: why no more was done.
ghost use Rattle.std.specs.Prelude.{◌≡◌, ◌++◌, OnOk, codes, decimal};
ghost use Rattle.prv_text.specs.Lines.{line};
ghost use Rattle.prv_text.specs.Ends.{totals_text, ended_text, end_text};

use crate::number::push_number;
use prv_board::{Ended, Totals};
use std::alloc::AllocError;

/// What the last line of a report says.
#[derive(Clone, Copy, Debug, PartialEq, Eq)]
pub enum Last {
    /// An exploration ended.
    Ended(Ended),
    /// A journal was checked, which has so many records of settlements.
    Checked { records: u32 },
}

/// Writes the last line of a report.
pub(crate) fn push_last(out: &mut Vec<u8>, last: &Last) -> Result<(), AllocError>
    ensures { OnOk result (out.new.items ≡ out.old.items ++ line (end_text last.now)) }
{
    push_end(out, last)?;
    out.push(b'\n')?;
    Ok(())
}

fn push_end(out: &mut Vec<u8>, last: &Last) -> Result<(), AllocError>
    ensures { OnOk result (out.new.items ≡ out.old.items ++ end_text last.now) }
{
    match last {
        Last::Ended(why) => {
            out.extend_from_slice(b"end ")?;
            push_ended(out, why)
        }
        Last::Checked { records } => {
            out.extend_from_slice(b"end checked ")?;
            push_number(out, *records)
        }
    }
}

fn push_ended(out: &mut Vec<u8>, why: &Ended) -> Result<(), AllocError>
    ensures { OnOk result (out.new.items ≡ out.old.items ++ ended_text why.now) }
{
    match why {
        Ended::Done => out.extend_from_slice(b"done"),
        Ended::Full(reached) => push_totals(out, reached),
        Ended::Stop => out.extend_from_slice(b"stop"),
        Ended::Settlements { limit } => {
            out.extend_from_slice(b"settlements ")?;
            push_number(out, *limit)
        }
    }
}

/// Writes the totals that a board would have reached.
fn push_totals(out: &mut Vec<u8>, totals: &Totals) -> Result<(), AllocError>
    ensures { OnOk result (out.new.items ≡ out.old.items ++ totals_text totals.now) }
{
    out.extend_from_slice(b"full ")?;
    push_number(out, totals.entries)?;
    out.push(b' ')?;
    push_number(out, totals.numbers)?;
    out.push(b' ')?;
    push_number(out, totals.literals)
}
