//! The counts of entries by kind: those that a board keeps, and those of a list of entries.
ghost use Rattle.std.specs.Prelude.{◌≡◌, ◌<◌, ◌^◌, ◌++◌, length, OnOk, codes, decimal, map};
ghost use Rattle.prv_board.specs.Replays.{counts_of};
ghost use Rattle.prv_text.specs.Reports.{part_of, counts_text, counts_line};

use crate::number::push_number;
use itoa::Integer;
use prv_board::Counts;
use prv_model::Entry;
use std::alloc::AllocError;

/// Writes the line of the counts.
pub fn push_counts(out: &mut Vec<u8>, counts: &Counts) -> Result<(), AllocError>
    ensures { OnOk result (out.new.items ≡ out.old.items ++ counts_line counts.now) }
{
    push_counts_text(out, counts)?;
    out.push(b'\n')?;
    Ok(())
}

/// Writes the counts, without the end of their line.
fn push_counts_text(out: &mut Vec<u8>, counts: &Counts) -> Result<(), AllocError>
    ensures { OnOk result (out.new.items ≡ out.old.items ++ counts_text counts.now) }
{
    push_count(out, b"same ", counts.same)?;
    push_count(out, b" different ", counts.different)?;
    push_count(out, b" empty ", counts.empty)?;
    push_count(out, b" beyond ", counts.beyond)?;
    push_count(out, b" open ", counts.unexplored)?;
    push_count(out, b" undecided ", counts.undecided)
}

/// Writes a count behind a label.
fn push_count<I: Integer>(out: &mut Vec<u8>, label: &[u8], count: I) -> Result<(), AllocError>
    ensures { OnOk result (out.new.items ≡ out.old.items ++ (label.now ++ I.text count)) }
{
    out.extend_from_slice(label)?;
    push_number(out, count)
}

/// How many entries of a list there are of each kind, of fewer than 2^32.
pub fn count_entries(entries: &[Entry]) -> Counts
    requires { length entries.now < 2 ^ 32 }
    ensures { result ≡ counts_of (map part_of entries.now) }
{
    let mut counts = Counts::NONE;
    for entry in entries {
        counts = counts.plus(Counts::of_kind(&entry.kind));
    }
    counts
}
