//! `slice FILE N..`
ghost use Rattle.std.specs.Prelude.{◌≡◌, ◌<◌, IsErrOf, length, map, All, IfOk, IfErr};
ghost use Rattle.prv_io.specs.Faults.{Rose};
ghost use Rattle.prv_cli.specs.Steps.{Told, nothing};
ghost use Rattle.prv_pool.specs.Tables.{term_at};
ghost use Rattle.prv_cli.specs.Slices.{slice as slice_is, slice_shown, show_slice as show_slice_is};
ghost use Rattle.prv_cli.specs.Answers.{Follows, UnlessRead};

use crate::read::{fit, load};
use crate::refusal::{Bound, Refusal, Who};
use crate::report::Report;
use crate::status::Status;
use prv_general::{GeneralError, Slice, generalise};
use prv_io::Files;
use prv_line::TURNS;
use prv_model::{Input, Program};
use prv_pool::Pool;
use prv_text::slice_text;
use std::alloc::Global;

/// The bound on the nodes of the table of terms.
const NODES: u32 = 20_000;

/// The slice of the program of a file at an input: the conditions that fix what it puts out and how it ends.
pub fn slice_file<F: Files>(
    alloc: Global,
    files: &mut F,
    file: &str,
    input: &Input,
) -> Result<Report, Refusal>
    ensures read_fault { IsErrOf result Refusal.Read → Rose (F.faults files.old) (F.faults files.new) }
    ensures no_read_fault { UnlessRead result (F.faults files.new ≡ F.faults files.old) }
    ensures done { Follows F.reads (F.known files.old) files.old files.new (slice_is file.now input.now) result }
{
    let version = load(alloc, files, file, Who::Only)?;
    fit(input, version.program.params)?;
    show_slice(alloc, &version.program, input)
}

/// The text of the slice.
fn show_slice(alloc: Global, program: &Program, input: &Input) -> Result<Report, Refusal>
    requires { length input.now ≡ program.now.params }
    ensures shown { (told : Told) → show_slice_is program.now input.now told nothing result }
    ensures no_read { IsErrOf result Refusal.Read → ⊥ }
{
    let mut pool = Pool::new(alloc, NODES);
    let made = generalise(alloc, program, input, TURNS.default, &mut pool);
    let nodes = pool.len();
    prove!(nodes <= NODES);
    match made {
        Ok(slice) => show(alloc, program, &pool, &slice),
        Err(GeneralError::Wide) => Err(Refusal::Slice(Bound::Nodes)),
        Err(GeneralError::Literals) => Err(Refusal::Slice(Bound::Literals)),
        Err(GeneralError::Memory) => Err(Refusal::Memory),
    }
}

/// The report of a slice over the nodes of a table.
fn show(alloc: Global, program: &Program, pool: &Pool, slice: &Slice) -> Result<Report, Refusal>
    requires literals { All (λ n. n < length pool.now.terms) slice.now.literals }
    requires outs { All (λ n. n < length pool.now.terms) slice.now.outs }
    ensures shown { IfOk result (λ report. report ≡ slice_shown program.now (record {
      literals = map (term_at pool.now.terms) slice.now.literals;
      outs = map (term_at pool.now.terms) slice.now.outs;
      how = slice.now.how;
      marks = slice.now.marks;
    })) }
    ensures memory { IfErr result (λ why. why ≡ Refusal.Memory) }
{
    let text = slice_text(
        alloc,
        program.names.as_slice(),
        pool,
        slice.literals.as_slice(),
        slice.outs.as_slice(),
        slice.how,
        slice.marks.as_slice(),
    )?;
    Ok(Report {
        text,
        status: Status::Done,
    })
}
