//! One turn of an exploration: the least entry that can be worked on is settled, and the board takes what was found, or
//! has no room for it.
ghost use Rattle.std.specs.Prelude.{◌≡◌, ◌≤◌, [], true, IfOk, OnErr};
ghost use Rattle.std.specs.List.{AllByRecursion};
ghost use Rattle.prv_part.specs.Settlements.{IsSettlement};
ghost use Rattle.prv_board.specs.Slots.{is_claimable, part_at};
ghost use Rattle.prv_board.specs.Replays.{slots, IsReplay};
ghost use Rattle.prv_settle.specs.Settlings.{IsSettled};
ghost use Rattle.prv_settle.specs.Supported.{finding_of};
ghost use Rattle.prv_settle.specs.declared.limits.TheConstants.{MAX_LINES};
ghost use Rattle.prv_explore.specs.Turns.{NoneBelow, Turned, IsOfEntry};

use prv_board::{ApplyError, Board, Totals};
use prv_settle::{Options, Settled, settle};
use std::alloc::{AllocError, Global};
use std::sync::Arc;

/// What one turn did.
#[derive(Clone, Copy, Debug, PartialEq, Eq)]
pub enum Turn {
    /// The entry of this number was settled.
    Made { entry: u32 },
    /// No entry can be worked on.
    Nothing,
    /// An entry was settled, but the board has no room for what was found. These are the totals that would be
    /// reached.
    Full(Totals),
}

/// Settles the least entry that can be worked on with this budget, where none below `first` can be, and
/// applies what is found to the board. After an error the board is as before.
pub fn settle_least(
    alloc: Global,
    board: &mut Board,
    first: u32,
    lines: u32,
) -> Result<Turn, AllocError>
    requires some { 1 ≤ lines }
    requires budget { lines ≤ MAX_LINES }
    requires space { board.old.replay.space ≡ [] }
    requires below { NoneBelow board.old.replay first lines }
    ensures turned { IfOk result (Turned board.old.replay board.new.replay lines) }
    ensures unchanged { OnErr result (board.new.replay ≡ board.old.replay) }
{
    let Some(entry) = board.next_claimable(first, lines) else {
        return Ok(Turn::Nothing);
    };
    let settled = settle_entry(alloc, board, entry, lines)?;
    let settlement = Arc::try_clone(settled.settlement())?;
    match board.apply(settlement) {
        Ok(_) => Ok(Turn::Made { entry }),
        Err(ApplyError::Full(reached)) => Ok(Turn::Full(reached)),
        Err(ApplyError::Memory) => Err(AllocError),
        Err(ApplyError::Stranger(_)) => unreachable!(),
    }
}

/// Settles an entry that can be worked on with this budget.
fn settle_entry(alloc: Global, board: &Board, entry: u32, lines: u32) -> Result<Settled, AllocError>
    requires some { 1 ≤ lines }
    requires budget { lines ≤ MAX_LINES }
    requires space { board.now.replay.space ≡ [] }
    requires claimable { is_claimable (slots board.now.replay) entry lines ≡ true }
    ensures { IfOk result (λ s. IsOfEntry board.now.replay entry lines s.finding s.raw) }
{
    match board.entry(entry) {
        Some(part) => settle(alloc, board.pair(), entry, &part.region, Options { lines }),
        None => unreachable!(),
    }
}
