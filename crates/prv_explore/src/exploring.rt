//! Exploring a pair: turns one after the other, until nothing is left, enough was made, or the board is full.
ghost use Rattle.std.specs.Prelude.{◌≡◌, ◌≤◌, [], IfOk, OnErr};
ghost use Rattle.std.specs.Arc.{arc_value};
ghost use Rattle.std.specs.List.{AllByRecursion};
ghost use Rattle.prv_board.specs.Legality.{IsLegalBoard};
ghost use Rattle.prv_board.specs.Replays.{unsettled};
ghost use Rattle.prv_settle.specs.Budgets.{HasBudget};
ghost use Rattle.prv_settle.specs.declared.limits.TheConstants.{MAX_LINES};
ghost use Rattle.prv_explore.specs.Explorations.{IsExplorationWithin, IsExploration, HasSupport};

use crate::plan::{BOARD_CAPS, Plan};
use crate::progress::Progress;
use crate::turn::{Turn, settle_least};
use prv_board::{Board, Ended};
use prv_model::Pair;
use prv_pool::Pool;
use prv_region::{Cond, Region};
use std::alloc::{AllocError, Global};
use std::sync::Arc;

/// What was found of a pair, and why no more was.
#[derive(Drop)]
pub struct Explored {
    /// What was found, as far as it was explored.
    pub board: Board,
    /// Why no more was.
    pub ended: Ended,
}

/// Explores a pair over all inputs: the least entry that can be worked on is settled, one after the other,
/// until none is left, the plan's settlements are made, or the board is full.
///
/// Each settlement takes time and memory of its own; the board grows by its parts. `progress` is told of each,
/// and of the end.
pub fn explore<P: Progress>(
    alloc: Global,
    pair: Arc<Pair>,
    plan: Plan,
    progress: &mut P,
) -> Result<Explored, AllocError>
    requires some { 1 ≤ plan.lines }
    requires budget { plan.lines ≤ MAX_LINES }
    ensures explored { IfOk result (λ e. IsExploration (arc_value pair) plan e.board.replay e.ended) }

    // What follows for the board, whatever was found.
    ensures legal { IfOk result (λ e. IsLegalBoard e.board.replay) }
    ensures supported { IfOk result (λ e. AllByRecursion HasSupport e.board.replay.history) }
    ensures lines { IfOk result (λ e. AllByRecursion (HasBudget plan.lines) e.board.replay.history) }
{
    let space = all_inputs(alloc)?;
    let mut board = Board::new(alloc, pair, space, BOARD_CAPS)?;
    let settled = settle_all(alloc, &mut board, plan, progress);
    progress.ended();
    let ended = settled?;
    board.is_legal();
    Ok(Explored { board, ended })
}

/// The region of all inputs, which has no literals.
pub(crate) fn all_inputs(alloc: Global) -> Result<Region, AllocError>
    ensures { IfOk result (λ region. region ≡ []) }
{
    let pool = Arc::new(alloc, Pool::new(alloc, 0))?;
    let cond = Cond::new(Arc::new(alloc, Vec::new(alloc))?);
    Ok(Region::new(pool, cond))
}

/// Settles entries of a board over all inputs until nothing is left, the plan's settlements are made, or
/// the board is full. `progress` is told of each settlement.
pub(crate) fn settle_all<P: Progress>(
    alloc: Global,
    board: &mut Board,
    plan: Plan,
    progress: &mut P,
) -> Result<Ended, AllocError>
    requires some { 1 ≤ plan.lines }
    requires budget { plan.lines ≤ MAX_LINES }
    requires fresh { board.old.replay ≡ unsettled board.old.replay.pair [] board.old.replay.caps }
    ensures explored { IfOk result (IsExplorationWithin board.old.replay.caps board.old.replay.pair plan board.new.replay) }
{
    let mut first = 0;
    for made in 0..plan.settlements {
        match settle_least(alloc, board, first, plan.lines)? {
            Turn::Made { entry } => {
                first = entry;
                progress.made(made + 1, board.counts().unexplored);
            }
            Turn::Nothing => return Ok(Ended::Done),
            Turn::Full(reached) => return Ok(Ended::Full(reached)),
        }
    }
    match board.next_claimable(first, plan.lines) {
        None => Ok(Ended::Done),
        Some(_) => Ok(Ended::Settlements {
            limit: plan.settlements,
        }),
    }
}
