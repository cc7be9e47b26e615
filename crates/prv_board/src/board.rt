//! The board and its readers. Entries are kept as a tree: each knows the settlement that made it, and the one
//! that retired it, so that applying and looking up cost no more than the parts that they touch.
ghost use Rattle.std.specs.Prelude.{◌≡◌, ◌≤◌, ◌<◌, ◌^◌, length, map, IfOk, IfSome};
ghost use Rattle.std.specs.Arc.{arc_value};
ghost use Rattle.std.specs.Option.{option_copied};
ghost use Rattle.prv_part.specs.Parts.{IsOver};
ghost use Rattle.prv_board.specs.Slots.{live_parts, part_at, whole};
ghost use Rattle.prv_board.specs.Replays.{AreCaps, Fits, unsettled, slots, totals, counts_of};

use crate::counts::Counts;
use crate::totals::Totals;
use crate::tree::{Origin, Retired, entry_at};
use prv_model::{Kind, Pair};
use prv_part::{Caps, Part, Settlement};
use prv_region::Region;
use sqlite_items::Items;
use std::alloc::{AllocError, Global};
use std::marker::Model;
use std::sync::Arc;

/// What is known of each input of a space: entries, each a region with what is claimed of it.
///
/// A board begins with one entry, the whole space, unexplored. A settlement retires the entry that it settles,
/// and its parts become entries with the next numbers. Whatever is applied, each input of the space lies in
/// exactly one live entry, and what an entry claims is true of every input that it holds.
#[derive(Drop)]
pub struct Board {
    /// What the lists take memory from.
    pub(crate) alloc: Global,
    /// The pair that the board is about.
    pub(crate) pair: Arc<Pair>,
    /// The most that it may hold.
    pub(crate) caps: Caps,
    /// What entry 0 says.
    pub(crate) whole: Part,
    /// The settlements that were applied, in order.
    pub(crate) settlements: Vec<Arc<Settlement>>,
    /// Where each entry comes from.
    pub(crate) origins: Vec<Origin>,
    /// Which settlement retired each entry, if one did.
    pub(crate) retired: Vec<Option<Retired>>,
    /// How many live entries there are of each kind.
    pub(crate) counts: Counts,
    /// How much it holds.
    pub(crate) totals: Totals,
    /// Room is kept for a settlement of so many parts.
    pub(crate) spare: u32,
}

impl Model for Board {
    ghost use Rattle.prv_board.specs.Replays.{BoardView, view_code};

    ghost Value = { BoardView };

    ghost coded = { view_code };

    ghost use Rattle.prv_board.specs.Kept.{seen, AreKept};

    ghost view = { seen };

    ghost invariant = { AreKept };
}

/// What is said of a region before anything is known of it.
pub(crate) fn unexplored(alloc: Global, region: Region) -> Part
    ensures { result ≡ whole region }
{
    Part {
        region,
        kind: Kind::Unexplored,
        marks: Items::new(alloc),
    }
}

impl Board {
    /// The board of a pair over a space that nothing was applied to: entry 0 is the space, unexplored. The
    /// space has at most two literals, and no more than the cap on literals.
    pub fn new(
        alloc: Global,
        pair: Arc<Pair>,
        space: Region,
        caps: Caps,
    ) -> Result<Board, AllocError>
        requires few { length space ≤ 2 }
        requires over { IsOver (arc_value pair).before.params space }
        requires caps { AreCaps caps }
        requires room { length space ≤ caps.literals }
        ensures { IfOk result (λ board. board.replay ≡ unsettled (arc_value pair) space caps) }
    {
        let literals = space.parts().roots.len() as u64;
        let whole = unexplored(alloc, space);
        let mut origins = Vec::new(alloc);
        origins.push(Origin::Space)?;
        let mut retired = Vec::new(alloc);
        retired.push(None)?;
        Ok(Board {
            alloc,
            pair,
            caps,
            counts: Counts::of_kind(&whole.kind),
            whole,
            settlements: Vec::new(alloc),
            origins,
            retired,
            totals: Totals {
                entries: 1,
                numbers: 0,
                literals,
            },
            spare: 0,
        })
    }

    /// What a live entry says; none exactly where no live entry has the number. Its region speaks of the
    /// pair's parameters alone, in at most 2^48 literals.
    pub fn entry(&self, number: u32) -> Option<&Part>
        ensures value { option_copied result ≡ part_at (slots self.now.replay) number }
        ensures known { IfSome result (λ part. IsOver self.now.replay.pair.before.params part.now.region) }
        ensures few { IfSome result (λ part. length part.now.region ≤ 2 ^ 48) }
    {
        entry_at(
            &self.whole,
            self.settlements.as_slice(),
            self.origins.as_slice(),
            self.retired.as_slice(),
            number,
        )
    }

    /// The least number that no entry has had.
    pub fn next_number(&self) -> u32
        ensures { result ≡ length (slots self.now.replay) }
    {
        self.origins.len() as u32
    }

    /// The pair that the board is about.
    pub fn pair(&self) -> &Arc<Pair>
        ensures { arc_value result.now ≡ self.now.replay.pair }
    {
        &self.pair
    }

    /// The space that the board covers. Another board may be made over it, with the same caps.
    pub fn space(&self) -> &Region
        ensures value { result.now ≡ self.now.replay.space }
        ensures few { length self.now.replay.space ≤ 2 }
        ensures over { IsOver self.now.replay.pair.before.params self.now.replay.space }
        ensures room { length self.now.replay.space ≤ self.now.replay.caps.literals }
    {
        &self.whole.region
    }

    /// The most that the board may hold.
    pub fn caps(&self) -> Caps
        ensures value { result ≡ self.now.replay.caps }
        ensures kept { AreCaps result }
    {
        self.caps
    }

    /// How much the board holds, within its caps.
    pub fn totals(&self) -> Totals
        ensures value { result ≡ totals (self.now.replay) }
        ensures fits { Fits self.now.replay.caps result }
        ensures caps { AreCaps self.now.replay.caps }
    {
        self.totals
    }

    /// The allocator that the board takes memory from.
    pub(crate) fn allocator(&self) -> Global {
        self.alloc
    }

    /// The settlements that were applied, in order. There are at most 2^31.
    pub fn history(&self) -> &[Arc<Settlement>]
        ensures value { map (λ s. arc_value s) result.now ≡ self.now.replay.history }
        ensures few { length self.now.replay.history ≤ 2 ^ 31 }
    {
        self.settlements.as_slice()
    }

    /// How many live entries there are of each kind.
    pub fn counts(&self) -> Counts
        ensures value { result ≡ counts_of (live_parts (slots self.now.replay)) }
        ensures few { length (live_parts (slots self.now.replay)) ≤ 2 ^ 30 }
    {
        self.counts
    }
}
