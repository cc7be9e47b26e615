//! Which entries can be worked on.
ghost use Rattle.std.specs.Prelude.{◌≡◌};
ghost use Rattle.std.specs.Option.{MatchOption};
ghost use Rattle.prv_board.specs.Slots.{is_claimable, is_claimable_kind as is_claimable_kind_of, IsNextClaimable, NoneClaimable};
ghost use Rattle.prv_board.specs.Replays.{slots};

use crate::board::Board;
use prv_model::{Kind, Reason};

/// Whether an entry of this kind can be worked on with a budget of lines.
fn is_claimable_kind(kind: &Kind, budget: u32) -> bool
    ensures { result ≡ is_claimable_kind_of budget kind.now }
{
    match kind {
        Kind::Unexplored => true,
        Kind::Undecided {
            reason: Reason::Lines { budget: spent },
        } => *spent < budget,
        _ => false,
    }
}

impl Board {
    /// Whether an entry is live, and unexplored or left for want of lines with a budget below this one.
    pub fn claimable(&self, number: u32, budget: u32) -> bool
        ensures { result ≡ is_claimable (slots self.now.replay) number budget }
    {
        match self.entry(number) {
            Some(part) => is_claimable_kind(&part.kind, budget),
            None => false,
        }
    }

    /// The least number from a first one on whose entry is claimable. An exploration that asks again from
    /// the last answer on passes each number once.
    pub fn next_claimable(&self, first: u32, budget: u32) -> Option<u32>
        ensures { MatchOption result (NoneClaimable (slots self.now.replay) first budget) (IsNextClaimable (slots self.now.replay) first budget) }
    {
        for number in first..self.next_number() {
            if self.claimable(number, budget) {
                return Some(number);
            }
        }
        None
    }
}
