//! What is to be settled: the region of an entry, with a budget. The steps of settling are lent one task, which
//! keeps what they all rest on, so that none of them says it again.
ghost use Rattle.std.specs.Prelude.{◌≤◌};
ghost use Rattle.std.specs.Arc.{arc_value};
ghost use Rattle.std.proofs.Props.{props};
ghost use Rattle.prv_settle.specs.Tasks.{IsTask};
ghost use Rattle.prv_settle.specs.declared.limits.TheConstants.{MAX_LINES};

use prv_model::Pair;
use prv_region::Region;
use std::sync::Arc;

/// How a region is settled.
#[derive(Clone, Copy, Debug, PartialEq, Eq)]
pub struct Options {
    /// The budget of each search in lines of its log, from 1 to [`MAX_LINES`](crate::MAX_LINES).
    pub lines: u32,
    pub ghost some: { 1 ≤ lines },
    pub ghost budget: { lines ≤ MAX_LINES },
}

/// The region of an entry that is to be settled.
#[derive(Clone, Copy)]
pub(crate) struct Task<'a> {
    /// The two versions of the program.
    pub(crate) pair: &'a Arc<Pair>,
    /// The number of the entry.
    pub(crate) entry: u32,
    /// The entry's region.
    pub(crate) region: &'a Region,
    /// The budget of each search.
    pub(crate) options: Options,
    ghost kept: { IsTask (arc_value pair.now).before.params region.now } by { Prim.hlevel props },
}
