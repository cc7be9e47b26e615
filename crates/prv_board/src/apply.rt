//! Applying settlements. Room is made first, and then nothing can fail, so that a caller can do other work in between
//! that must not be lost.
ghost use Rattle.std.specs.Prelude.{◌≡◌, ◌+◌, ◌≤◌, ◌<◌, ◌++◌, length, IfOk, IfErr, OnOk, OnErr, slice_set, vec_len, vec_capacity};
ghost use Rattle.std.specs.Arc.{arc_value};
ghost use Rattle.prv_board.specs.Replays.{slots, with_one_more, Applies, Refuses, IsReady};
ghost use Rattle.prv_board.specs.Applying.{absorbed as absorbed_of};
ghost use Rattle.prv_board.specs.Trees.{origins_from, not_retired};

use crate::board::Board;
use crate::error::ApplyError;
use crate::tree::{Origin, Retired};
use prv_part::Settlement;
use std::alloc::AllocError;
use std::sync::Arc;

/// Adds the origins of the parts of a settlement.
fn add_origins(origins: &mut Vec<Origin>, settlement: u32, count: u32)
    requires { vec_len origins.old + count ≤ vec_capacity origins.old }
    ensures items { origins.new.items ≡ origins.old.items ++ origins_from settlement 0 count }
    ensures len { vec_len origins.new ≡ vec_len origins.old + count }
    ensures capacity { vec_capacity origins.new ≡ vec_capacity origins.old }
{
    for part in 0..count {
        origins.push_reserved(Origin::Made { settlement, part });
    }
}

/// Adds entries that aren't retired.
fn add_live(retired: &mut Vec<Option<Retired>>, count: u32)
    requires { vec_len retired.old + count ≤ vec_capacity retired.old }
    ensures items { retired.new.items ≡ retired.old.items ++ not_retired count }
    ensures len { vec_len retired.new ≡ vec_len retired.old + count }
    ensures capacity { vec_capacity retired.new ≡ vec_capacity retired.old }
{
    for _ in 0..count {
        retired.push_reserved(None);
    }
}

/// Retires an entry.
fn retire(retired: &mut Vec<Option<Retired>>, entry: usize, by: Retired)
    requires { entry < vec_len retired.old }
    ensures items { retired.new.items ≡ slice_set retired.old.items entry (Some by) }
    ensures len { vec_len retired.new ≡ vec_len retired.old }
    ensures capacity { vec_capacity retired.new ≡ vec_capacity retired.old }
{
    retired[entry] = Some(by);
}

impl Board {
    /// Applies a settlement: its entry is retired, and its parts become entries with the next numbers, the
    /// first of which is the answer. It takes time in proportion to the parts.
    ///
    /// A settlement that does not belong to the board is a `Stranger`: of another pair, or else of an entry
    /// that is not open to it, or else of another region than its entry's. One with which the board would
    /// pass a cap finds it `Full`. After an error the board is as before.
    pub fn apply(&mut self, settlement: Arc<Settlement>) -> Result<u32, ApplyError>
        ensures applies { OnOk result (Applies self.old.replay (arc_value settlement)) }
        ensures first { IfOk result (λ n. n ≡ length (slots self.old.replay)) }
        ensures applied { OnOk result (self.new.replay ≡ with_one_more self.old.replay (arc_value settlement)) }
        ensures refused { IfErr result (Refuses self.old.replay (arc_value settlement)) }
        ensures unchanged { OnErr result (self.new.replay ≡ self.old.replay) }
    {
        self.reserve_for(&settlement)?;
        Ok(self.apply_ready(settlement))
    }

    /// Applies a settlement where it applies, and else leaves the board as it is. Where memory is short, the
    /// board is as before.
    pub fn absorb(&mut self, settlement: Arc<Settlement>) -> Result<(), AllocError>
        ensures absorbed { OnOk result (self.new.replay ≡ absorbed_of self.old.replay (arc_value settlement)) }
        ensures unchanged { OnErr result (self.new.replay ≡ self.old.replay) }
    {
        match self.apply(settlement) {
            Ok(_) => Ok(()),
            Err(ApplyError::Stranger(_)) => Ok(()),
            Err(ApplyError::Full(_)) => Ok(()),
            Err(ApplyError::Memory) => Err(AllocError),
        }
    }

    /// Refuses a settlement as `apply` does, or makes the room that `apply_ready` needs.
    pub fn reserve_for(&mut self, settlement: &Settlement) -> Result<(), ApplyError>
        ensures ready { OnOk result (IsReady self.new settlement.now) }
        ensures refused { IfErr result (Refuses self.old.replay settlement.now) }
        ensures unchanged { self.new.replay ≡ self.old.replay }
    {
        self.test(settlement)?;
        self.make_room(settlement.parts().len() as u32)?;
        Ok(())
    }

    /// Makes room for a settlement of so many parts.
    pub(crate) fn make_room(&mut self, count: u32) -> Result<(), AllocError>
        ensures room { OnOk result (count ≤ self.new.spare) }
        ensures unchanged { self.new.replay ≡ self.old.replay }
    {
        if count <= self.spare {
            return Ok(());
        }
        self.origins.reserve(count as usize)?;
        self.retired.reserve(count as usize)?;
        self.settlements.reserve(1)?;
        self.spare = count;
        Ok(())
    }

    /// Applies a settlement for which room was made, without memory.
    pub fn apply_ready(&mut self, settlement: Arc<Settlement>) -> u32
        requires { IsReady self.old (arc_value settlement) }
        ensures first { result ≡ length (slots self.old.replay) }
        ensures applied { self.new.replay ≡ with_one_more self.old.replay (arc_value settlement) }
    {
        let counts = self.counts_with(&settlement);
        let totals = self.totals_with(&settlement);
        let entry = settlement.entry() as usize;
        let count = settlement.parts().len() as u32;
        let first = self.origins.len() as u32;
        let place = self.settlements.len() as u32;
        let by = Retired {
            settlement: place,
            first,
        };
        retire(&mut self.retired, entry, by);
        add_origins(&mut self.origins, place, count);
        add_live(&mut self.retired, count);
        self.settlements.push_reserved(settlement);
        self.counts = counts;
        self.totals = totals;
        self.spare = 0;
        first
    }
}
