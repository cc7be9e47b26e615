//! From which entry an entry comes.
ghost use Rattle.std.specs.Prelude.{◌≡◌, map, option_and_then, slice_get};
ghost use Rattle.std.specs.Arc.{arc_value};
ghost use Rattle.prv_board.specs.Trees.{parent_at as parent_at_of};
ghost use Rattle.prv_board.specs.Parents.{parent_of};

use crate::board::Board;
use crate::tree::Origin;
use prv_part::Settlement;
use sqlite_items::at;
use std::sync::Arc;

/// The entry whose settlement made an entry, and the place of the part in that settlement, from 0.
#[derive(Clone, Copy, Debug, PartialEq, Eq)]
pub struct Parent {
    /// The number of the entry.
    pub entry: u32,
    /// The place of the part.
    pub part: u32,
}

/// From which entry an entry of this origin comes.
fn parent_at(settlements: &[Arc<Settlement>], origin: Origin) -> Option<Parent>
    ensures { result ≡ parent_at_of (map (λ s. arc_value s) settlements.now) origin }
{
    match origin {
        Origin::Space => None,
        Origin::Made { settlement, part } => {
            let made_by = at(settlements, settlement as usize)?;
            Some(Parent {
                entry: made_by.entry(),
                part,
            })
        }
    }
}

/// From which entry the entry of a number comes.
fn parent_in(settlements: &[Arc<Settlement>], origins: &[Origin], number: u32) -> Option<Parent>
    ensures { result ≡ option_and_then (parent_at_of (map (λ s. arc_value s) settlements.now)) (slice_get origins.now number) }
{
    match at(origins, number as usize) {
        Some(origin) => parent_at(settlements, *origin),
        None => None,
    }
}

impl Board {
    /// From which entry an entry comes; none exactly for 0 and for numbers that no entry has had.
    pub fn parent(&self, number: u32) -> Option<Parent>
        ensures { result ≡ parent_of self.now.replay.history number }
    {
        parent_in(self.settlements.as_slice(), self.origins.as_slice(), number)
    }
}
