//! `point OLD NEW N..`
ghost use Rattle.std.specs.Prelude.{◌≡◌, IsErrOf, length};
ghost use Rattle.prv_io.specs.Faults.{Rose};
ghost use Rattle.prv_cli.specs.Steps.{Told, nothing};
ghost use Rattle.prv_cli.specs.Points.{point, show_point as show_point_is};
ghost use Rattle.prv_cli.specs.Answers.{Follows, UnlessRead};

use crate::pairing::load_pair;
use crate::read::fit;
use crate::refusal::Refusal;
use crate::report::Report;
use crate::status::entries_status;
use prv_io::Files;
use prv_line::TURNS;
use prv_model::{Input, Pair};
use prv_run::point_entries;
use prv_text::report_entries;
use std::alloc::Global;

/// How the versions of two files compare at an input.
pub fn compare_at<F: Files>(
    alloc: Global,
    files: &mut F,
    before: &str,
    after: &str,
    input: &Input,
) -> Result<Report, Refusal>
    ensures read_fault { IsErrOf result Refusal.Read → Rose (F.faults files.old) (F.faults files.new) }
    ensures no_read_fault { UnlessRead result (F.faults files.new ≡ F.faults files.old) }
    ensures done { Follows F.reads (F.known files.old) files.old files.new (point before.now after.now input.now) result }
{
    let pair = load_pair(alloc, files, before, after, TURNS.default)?;
    fit(input, pair.before.params)?;
    show_point(alloc, &pair, input)
}

/// The report of a pair at an input.
fn show_point(alloc: Global, pair: &Pair, input: &Input) -> Result<Report, Refusal>
    requires { length input.now ≡ pair.now.before.params }
    ensures shown { (told : Told) → show_point_is pair.now input.now told nothing result }
    ensures no_read { IsErrOf result Refusal.Read → ⊥ }
{
    let entries = point_entries(alloc, pair, input)?;
    let text = report_entries(alloc, pair.before.names.as_slice(), entries.as_slice())?;
    let status = entries_status(entries.as_slice());
    Ok(Report { text, status })
}
