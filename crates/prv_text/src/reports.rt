//! The report of a list of entries.
ghost use Rattle.std.specs.Prelude.{◌≡◌, ◌<◌, ◌^◌, ◌++◌, length, IfOk, OnOk, codes, decimal, flat_map};
ghost use Rattle.prv_text.specs.Entries.{entry_line};
ghost use Rattle.prv_text.specs.Reports.{point_report, regions_text};

use crate::counts::{count_entries, push_counts};
use crate::entry::push_entry;
use crate::number::push_number;
use prv_model::{Entry, Name};
use std::alloc::{AllocError, Global};

/// The report of the entries of a point, which are fewer than 2^32: their count, a line for each, the counts by kind,
/// and a last line.
///
/// `names` are the names of the parameters.
pub fn report_entries(
    alloc: Global,
    names: &[Name],
    entries: &[Entry],
) -> Result<Vec<u8>, AllocError>
    requires { length entries.now < 2 ^ 32 }
    ensures { IfOk result (λ text. text.items ≡ point_report names.now entries.now) }
{
    let mut out = Vec::new(alloc);
    push_numbered(&mut out, names, entries)?;
    push_counts(&mut out, &count_entries(entries))?;
    out.extend_from_slice(b"end point\n")?;
    Ok(out)
}

/// Writes the count of some entries, and a line for each.
fn push_numbered(out: &mut Vec<u8>, names: &[Name], entries: &[Entry]) -> Result<(), AllocError>
    ensures { OnOk result (out.new.items ≡ out.old.items ++ regions_text names.now entries.now) }
{
    out.extend_from_slice(b"regions ")?;
    push_number(out, entries.len())?;
    out.push(b'\n')?;
    push_entries(out, names, entries)?;
    Ok(())
}

/// Writes a line for each entry.
fn push_entries(out: &mut Vec<u8>, names: &[Name], entries: &[Entry]) -> Result<(), AllocError>
    ensures { OnOk result (out.new.items ≡ out.old.items ++ flat_map (entry_line names.now) entries.now) }
{
    for entry in entries {
        push_entry(out, names, entry)?;
    }
    Ok(())
}
