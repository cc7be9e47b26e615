//! Where each entry comes from, and which settlement retired it. What an entry says is read from the settlement that
//! made it, so that no part is kept twice.
ghost use Rattle.std.specs.Prelude.{◌≡◌, map, option_and_then, slice_get};
ghost use Rattle.std.specs.Arc.{arc_value};
ghost use Rattle.std.specs.Option.{option_copied};
ghost use Rattle.prv_board.specs.Trees.{part_from, unless_retired};

use prv_part::{Part, Settlement};
use sqlite_items::at;
use std::sync::Arc;

/// Where an entry comes from.
#[derive(Clone, Copy, Debug, PartialEq, Eq)]
pub enum Origin {
    /// It is the space, with which a board begins.
    Space,
    /// It is a part of a settlement, by the places of both.
    Made { settlement: u32, part: u32 },
}

/// By which settlement an entry was retired, and where its parts went.
#[derive(Clone, Copy, Debug, PartialEq, Eq)]
pub struct Retired {
    /// The place of the settlement in the history.
    pub settlement: u32,
    /// The number of the entry that its first part became.
    pub first: u32,
}

/// Which settlement retired the entry of a number, if one did.
pub fn retired_by(retired: &[Option<Retired>], number: u32) -> Option<Retired>
    ensures { result ≡ option_and_then (λ by. by) (slice_get retired.now number) }
{
    match at(retired, number as usize) {
        Some(by) => *by,
        None => None,
    }
}

/// What the entry of a number says, if there is one that isn't retired.
pub fn entry_at<'a>(
    whole: &'a Part,
    settlements: &'a [Arc<Settlement>],
    origins: &'a [Origin],
    retired: &'a [Option<Retired>],
    number: u32,
) -> Option<&'a Part>
    ensures { option_copied result ≡ unless_retired whole.now (map (λ s. arc_value s) settlements.now) (slice_get origins.now number) (slice_get retired.now number) }
{
    match at(retired, number as usize) {
        Some(None) => match at(origins, number as usize) {
            Some(origin) => part_at(whole, settlements, *origin),
            None => None,
        },
        _ => None,
    }
}

/// What stands at an origin.
fn part_at<'a>(
    whole: &'a Part,
    settlements: &'a [Arc<Settlement>],
    origin: Origin,
) -> Option<&'a Part>
    ensures { option_copied result ≡ part_from whole.now (map (λ s. arc_value s) settlements.now) origin }
{
    match origin {
        Origin::Space => Some(whole),
        Origin::Made { settlement, part } => {
            let made_by = at(settlements, settlement as usize)?;
            at(made_by.parts(), part as usize)
        }
    }
}
