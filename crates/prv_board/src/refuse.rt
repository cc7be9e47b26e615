//! Whether a settlement applies to a board, and what the board would hold then.
ghost use Rattle.std.specs.Prelude.{◌≡◌, IfErr, OnOk};
ghost use Rattle.std.specs.List.{list_any};
ghost use Rattle.prv_board.specs.Slots.{live_parts, is_left_within as is_left_within_of, may_replace as may_replace_of};
ghost use Rattle.prv_board.specs.Replays.{slots, with_one_more, totals, counts_of, Belongs, Applies, Refuses};

use crate::board::Board;
use crate::counts::Counts;
use crate::error::{ApplyError, StrangerWhy};
use crate::totals::{Totals, literals};
use prv_model::{Kind, Reason};
use prv_part::{Part, Settlement};
use prv_region::same_region;

/// Whether a kind says that nothing was decided within this budget of lines, or within a smaller one.
fn is_left_within(kind: &Kind, budget: u32) -> bool
    ensures { result ≡ is_left_within_of budget kind.now }
{
    match kind {
        Kind::Undecided {
            reason: Reason::Lines { budget: spent },
        } => *spent <= budget,
        _ => false,
    }
}

/// Whether a part says that nothing was decided within this budget of lines, or within a smaller one.
fn has_left_within(parts: &[Part], budget: u32) -> bool
    ensures { result ≡ list_any (λ p. is_left_within_of budget p.kind) parts.now }
{
    parts.iter().any(|p| is_left_within(&p.kind, budget))
}

/// Whether parts may take the place of an entry of this kind.
fn may_replace(parts: &[Part], kind: &Kind) -> bool
    ensures { result ≡ may_replace_of parts.now kind.now }
{
    match kind {
        Kind::Unexplored => true,
        Kind::Undecided {
            reason: Reason::Lines { budget },
        } => !has_left_within(parts, *budget),
        _ => false,
    }
}

impl Board {
    /// Why a settlement does not apply, if it doesn't.
    pub(crate) fn test(&self, settlement: &Settlement) -> Result<(), ApplyError>
        ensures ok { OnOk result (Applies self.now.replay settlement.now) }
        ensures err { IfErr result (Refuses self.now.replay settlement.now) }
    {
        self.test_stranger(settlement)?;
        let reached = self.totals_with(settlement);
        if reached.fit(&self.caps()) {
            Ok(())
        } else {
            Err(ApplyError::Full(reached))
        }
    }

    /// Why a settlement does not belong to the board, if it doesn't.
    fn test_stranger(&self, settlement: &Settlement) -> Result<(), ApplyError>
        ensures ok { OnOk result (Belongs self.now.replay settlement.now) }
        ensures err { IfErr result (Refuses self.now.replay settlement.now) }
    {
        if !settlement.pair().same(self.pair()) {
            return Err(ApplyError::Stranger(StrangerWhy::Pair));
        }
        let entry = settlement.entry();
        match self.entry(entry) {
            Some(part) if may_replace(settlement.parts(), &part.kind) => {
                if same_region(self.allocator(), &part.region, settlement.region())? {
                    Ok(())
                } else {
                    Err(ApplyError::Stranger(StrangerWhy::Region { entry }))
                }
            }
            _ => Err(ApplyError::Stranger(StrangerWhy::NotLive { entry })),
        }
    }

    /// What the board would hold with one more settlement.
    pub(crate) fn totals_with(&self, settlement: &Settlement) -> Totals
        requires { Belongs self.now.replay settlement.now }
        ensures { result ≡ totals (with_one_more self.now.replay settlement.now) }
    {
        let now = self.totals();
        let parts = settlement.parts();
        let count = parts.len() as u32;
        let region = settlement.region().parts().roots.len() as u64;
        Totals {
            entries: now.entries - 1 + count,
            numbers: now.numbers + settlement.numbers() + count as u64,
            literals: now.literals - region + literals(parts),
        }
    }

    /// How many entries of each kind there would be with one more settlement.
    pub(crate) fn counts_with(&self, settlement: &Settlement) -> Counts
        requires { Belongs self.now.replay settlement.now }
        ensures { result ≡ counts_of (live_parts (slots (with_one_more self.now.replay settlement.now))) }
    {
        match self.entry(settlement.entry()) {
            Some(part) => {
                let left = self.counts().minus(Counts::of_kind(&part.kind));
                left.plus_parts(settlement.parts())
            }
            None => unreachable!(),
        }
    }
}
