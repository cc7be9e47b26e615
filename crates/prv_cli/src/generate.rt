//! `gen NUMBER SIZE`
ghost use Rattle.std.specs.Prelude.{◌≡◌, ◌≤◌, IsErrOf};
ghost use Rattle.prv_text.specs.Boards.{generated_report};
ghost use Rattle.prv_cli.specs.Steps.{Told, nothing};
ghost use Rattle.prv_cli.specs.Generates.{generate as generate_is};
ghost use Rattle.prv_cli.specs.Explores.{show_exploration};

use crate::explore::explore_pair;
use crate::pairing::pair_of_bytes;
use crate::refusal::Refusal;
use crate::report::Report;
use crate::status::board_status;
use prv_explore::{Plan, Progress};
use prv_gen::generate;
use prv_line::{LINES, SETTLEMENTS, TURNS};
use prv_model::Pair;
use prv_text::{Last, report_generated};
use std::alloc::Global;

/// How much work is done.
const PLAN: Plan = Plan {
    lines: LINES.default,
    settlements: SETTLEMENTS.default,
};

/// What is found of a generated pair over all inputs. The size is 1 to 50.
pub fn explore_generated<P: Progress>(
    alloc: Global,
    number: u32,
    size: u32,
    progress: &mut P,
) -> Result<Report, Refusal>
    requires some { 1 ≤ size }
    requires few { size ≤ 50 }
    ensures done { (told : Told) → generate_is number size told nothing result }
    ensures no_read { IsErrOf result Refusal.Read → ⊥ }
    ensures no_write { IsErrOf result Refusal.Write → ⊥ }
{
    let texts = generate(alloc, number, size)?;
    let pair = pair_of_bytes(
        alloc,
        texts.before.as_slice(),
        texts.after.as_slice(),
        TURNS.default,
    )?;
    show_generated(alloc, number, size, pair, progress)
}

/// The short report of an exploration of a generated pair.
fn show_generated<P: Progress>(
    alloc: Global,
    number: u32,
    size: u32,
    pair: Pair,
    progress: &mut P,
) -> Result<Report, Refusal>
    ensures shown { (told : Told) → show_exploration (generated_report number size) PLAN pair told nothing result }
    ensures no_read { IsErrOf result Refusal.Read → ⊥ }
    ensures no_write { IsErrOf result Refusal.Write → ⊥ }
{
    let explored = explore_pair(alloc, pair, PLAN, progress)?;
    let last = Last::Ended(explored.ended);
    let text = report_generated(alloc, number, size, &explored.board, &last)?;
    let status = board_status(&explored.board);
    Ok(Report { text, status })
}
