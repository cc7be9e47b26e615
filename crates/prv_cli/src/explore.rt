//! `explore OLD NEW`
ghost use Rattle.std.specs.Prelude.{◌≡◌, ◌≤◌, IsErrOf, IfOk};
ghost use Rattle.prv_io.specs.Faults.{Rose};
ghost use Rattle.prv_model.specs.declared.limits.TheConstants.{MAX_TURNS};
ghost use Rattle.prv_settle.specs.declared.limits.TheConstants.{MAX_LINES};
ghost use Rattle.prv_board.specs.Legality.{IsLegalBoard};
ghost use Rattle.prv_explore.specs.Explorations.{IsExploration};
ghost use Rattle.prv_text.specs.Boards.{board_report};
ghost use Rattle.prv_cli.specs.Steps.{Told, nothing};
ghost use Rattle.prv_cli.specs.Explores.{show_exploration, explore_with};
ghost use Rattle.prv_cli.specs.Answers.{Follows, UnlessRead};

use crate::pairing::load_pair;
use crate::refusal::Refusal;
use crate::report::Report;
use crate::status::board_status;
use prv_explore::{Explored, Plan, Progress, explore};
use prv_io::Files;
use prv_line as line;
use prv_model::Pair;
use prv_text::{Last, report};
use std::alloc::{AllocError, Global};
use std::sync::Arc;

/// What is found of the pair of two files over all inputs. Its turns are 1 to `MAX_TURNS`.
pub fn explore_files<F: Files, P: Progress>(
    alloc: Global,
    files: &mut F,
    before: &str,
    after: &str,
    turns: u32,
    plan: Plan,
    progress: &mut P,
) -> Result<Report, Refusal>
    requires some_turns { 1 ≤ turns }
    requires few_turns { turns ≤ MAX_TURNS }
    requires some_lines { 1 ≤ plan.lines }
    requires few_lines { plan.lines ≤ MAX_LINES }
    ensures read_fault { IsErrOf result Refusal.Read → Rose (F.faults files.old) (F.faults files.new) }
    ensures no_read_fault { UnlessRead result (F.faults files.new ≡ F.faults files.old) }
    ensures done { Follows F.reads (F.known files.old) files.old files.new (explore_with turns plan before.now after.now) result }
{
    let pair = load_pair(alloc, files, before, after, turns)?;
    show_explored(alloc, pair, plan, progress)
}

/// The report of an exploration of a pair.
fn show_explored<P: Progress>(
    alloc: Global,
    pair: Pair,
    plan: Plan,
    progress: &mut P,
) -> Result<Report, Refusal>
    requires some { 1 ≤ plan.lines }
    requires few { plan.lines ≤ MAX_LINES }
    ensures shown { (told : Told) → show_exploration board_report plan pair told nothing result }
    ensures no_read { IsErrOf result Refusal.Read → ⊥ }
{
    let explored = explore_pair(alloc, pair, plan, progress)?;
    let last = Last::Ended(explored.ended);
    let text = report(alloc, &explored.board, &last)?;
    let status = board_status(&explored.board);
    Ok(Report { text, status })
}

/// An exploration of a pair.
pub fn explore_pair<P: Progress>(
    alloc: Global,
    pair: Pair,
    plan: Plan,
    progress: &mut P,
) -> Result<Explored, AllocError>
    requires some { 1 ≤ plan.lines }
    requires few { plan.lines ≤ MAX_LINES }
    ensures explored { IfOk result (λ e. IsExploration pair plan e.board.replay e.ended) }
    ensures legal { IfOk result (λ e. IsLegalBoard e.board.replay) }
{
    explore(alloc, Arc::new(alloc, pair)?, plan, progress)
}

/// The plan of a command.
pub fn plan_of(plan: &line::Plan) -> Plan
    ensures { result ≡ record { lines = plan.now.lines; settlements = plan.now.settlements } }
{
    Plan {
        lines: plan.lines,
        settlements: plan.settlements,
    }
}
