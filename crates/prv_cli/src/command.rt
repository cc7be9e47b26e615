//! What the words of the command line do. Each command has a file of its own.
ghost use Rattle.std.specs.Prelude.{◌≡◌, ◌==◌, ◌&&◌, is_none, IsErrOf};
ghost use Rattle.std.specs.Option.{option_copied};
ghost use Rattle.prv_io.specs.Faults.{Rose};
ghost use Rattle.prv_line.specs.Ranges.{IsInRange};
ghost use Rattle.prv_line.specs.Views.{command_of, texts};
ghost use Rattle.prv_cli.specs.Commands.{does, says};
ghost use Rattle.prv_cli.specs.Answers.{Performs, UnlessRead, UnlessWrite};

use crate::explore::{explore_files, plan_of};
use crate::generate::explore_generated;
use crate::point::compare_at;
use crate::refusal::Refusal;
use crate::report::write_report;
use crate::run::run_file;
use crate::slice::slice_file;
use crate::status::Status;
use prv_explore::Progress;
use prv_io::{Files, Sink};
use prv_line::{Command, LineError, read_words};
use std::alloc::Global;

/// Does what the words ask for, and answers the status.
pub fn perform_words<F: Files, O: Sink, P: Progress>(
    alloc: Global,
    words: &[&str],
    files: &mut F,
    out: &mut O,
    progress: &mut P,
) -> Result<Status, Refusal>
    ensures read_fault { IsErrOf result Refusal.Read → Rose (F.faults files.old) (F.faults files.new) }
    ensures no_read_fault { UnlessRead result (F.faults files.new ≡ F.faults files.old) }
    ensures write_fault { IsErrOf result Refusal.Write → Rose (O.faults out.old) (O.faults out.new) }
    ensures no_write_fault { UnlessWrite result (O.faults out.new ≡ O.faults out.old) }
    ensures performed { Performs F.reads (F.known files.old) files.old files.new (O.taken out.old) (O.taken out.new) (says (texts words.now)) result }
{
    match read_words(alloc, words) {
        Ok(command) => perform(alloc, &command, files, out, progress),
        Err(LineError::Usage { word }) => Err(Refusal::Usage { word }),
        Err(LineError::Memory) => Err(Refusal::Memory),
    }
}

/// Does what a command asks for, and answers the status.
fn perform<F: Files, O: Sink, P: Progress>(
    alloc: Global,
    command: &Command,
    files: &mut F,
    out: &mut O,
    progress: &mut P,
) -> Result<Status, Refusal>
    requires in_range { IsInRange (command_of command.now) }
    ensures read_fault { IsErrOf result Refusal.Read → Rose (F.faults files.old) (F.faults files.new) }
    ensures no_read_fault { UnlessRead result (F.faults files.new ≡ F.faults files.old) }
    ensures write_fault { IsErrOf result Refusal.Write → Rose (O.faults out.old) (O.faults out.new) }
    ensures no_write_fault { UnlessWrite result (O.faults out.new ≡ O.faults out.old) }
    ensures performed { Performs F.reads (F.known files.old) files.old files.new (O.taken out.old) (O.taken out.new) (does (command_of command.now)) result }
{
    match command {
        Command::Run { file, input } => {
            let report = run_file(alloc, files, file, input)?;
            write_report(out, &report)
        }
        Command::Point {
            before,
            after,
            input,
        } => {
            let report = compare_at(alloc, files, before, after, input)?;
            write_report(out, &report)
        }
        Command::Slice { file, input } => {
            let report = slice_file(alloc, files, file, input)?;
            write_report(out, &report)
        }
        Command::Explore {
            before,
            after,
            turns,
            plan,
            workers,
            journal,
        } => {
            if !is_plain(*workers, journal) {
                return Err(Refusal::Later);
            }
            let report = explore_files(
                alloc,
                files,
                before,
                after,
                *turns,
                plan_of(plan),
                progress,
            )?;
            write_report(out, &report)
        }
        Command::Live { .. } => Err(Refusal::Later),
        Command::Resume { .. } => Err(Refusal::Later),
        Command::Check { .. } => Err(Refusal::Later),
        Command::Gen { number, size } => {
            let report = explore_generated(alloc, *number, *size, progress)?;
            write_report(out, &report)
        }
    }
}

/// Whether no worker is asked for, and no journal.
fn is_plain(workers: u32, journal: &Option<&str>) -> bool
    ensures { result ≡ ((workers == 0) && is_none (option_copied journal.now)) }
{
    workers == 0 && journal.is_none()
}
