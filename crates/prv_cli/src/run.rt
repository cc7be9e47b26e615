//! `run FILE N..`
ghost use Rattle.std.specs.Prelude.{◌≡◌, IsErrOf, length};
ghost use Rattle.prv_io.specs.Faults.{Rose};
ghost use Rattle.prv_cli.specs.Steps.{Told, nothing};
ghost use Rattle.prv_cli.specs.Runs.{run as run_is, show_run as show_run_is};
ghost use Rattle.prv_cli.specs.Answers.{Follows, UnlessRead};

use crate::read::{fit, load};
use crate::refusal::{Refusal, Who};
use crate::report::Report;
use crate::status::Status;
use prv_io::Files;
use prv_line::TURNS;
use prv_model::{Input, Program};
use prv_run::run;
use prv_text::outcome_text;
use std::alloc::Global;

/// What the program of a file does on an input.
pub fn run_file<F: Files>(
    alloc: Global,
    files: &mut F,
    file: &str,
    input: &Input,
) -> Result<Report, Refusal>
    ensures read_fault { IsErrOf result Refusal.Read → Rose (F.faults files.old) (F.faults files.new) }
    ensures no_read_fault { UnlessRead result (F.faults files.new ≡ F.faults files.old) }
    ensures done { Follows F.reads (F.known files.old) files.old files.new (run_is file.now input.now) result }
{
    let version = load(alloc, files, file, Who::Only)?;
    fit(input, version.program.params)?;
    show_run(alloc, &version.program, input)
}

/// The text of the outcome.
fn show_run(alloc: Global, program: &Program, input: &Input) -> Result<Report, Refusal>
    requires { length input.now ≡ program.now.params }
    ensures shown { (told : Told) → show_run_is program.now input.now told nothing result }
    ensures no_read { IsErrOf result Refusal.Read → ⊥ }
{
    let outcome = run(alloc, program, input, TURNS.default)?;
    let text = outcome_text(alloc, &outcome)?;
    Ok(Report {
        text,
        status: Status::Done,
    })
}
