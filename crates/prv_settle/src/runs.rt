//! The runs of both versions at an input, as slices over one pool. All terms of a settlement are made here, in one order,
//! since their count decides whether the settlement is made at all.
ghost use Rattle.std.specs.Prelude.{◌≡◌, ◌+◌, ◌<◌, ◌≤◌, ◌||◌, [], nat_lt, true, false, length, IfOk, IfSome, MatchOption};
ghost use Rattle.std.specs.Arc.{arc_value};
ghost use Rattle.prv_model.specs.Boards.{IsInput};
ghost use Rattle.prv_model.specs.Comparison.{is_long as is_long_of, outcome_eq};
ghost use Rattle.prv_sym.specs.Calls.{Names};
ghost use Rattle.prv_settle.specs.Counts.{named, is_wide};
ghost use Rattle.prv_settle.specs.Making.{AreRuns};

use crate::equality::equality;
use crate::limits::{MAX_NODES, MORE_NODES};
use crate::task::Task;
use prv_general::{MAX_LITERALS, Slice, slice_at};
use prv_model::{Ending, Input, Pair, Verdict, compare};
use prv_pool::{Pool, PoolError};
use prv_region::{Cond, Region};
use std::alloc::{AllocError, Global};

/// The nodes of a region, of the slices of both versions at one of its inputs, and of their equality.
#[derive(Drop)]
pub(crate) struct Runs {
    /// The region's nodes.
    pub(crate) region: Cond,
    /// The slice of the old version.
    pub(crate) before: Slice,
    /// The slice of the new version.
    pub(crate) after: Slice,
    /// The node that says that both put out the same.
    pub(crate) equality: u32,
}

/// Runs both versions at an input of a region. There is no answer where the terms are too many.
pub(crate) fn run_both(
    alloc: Global,
    task: &Task<'_>,
    input: &Input,
    pool: &mut Pool,
) -> Result<Option<Runs>, AllocError>
    requires fresh { pool.old ≡ record { terms = []; max_nodes = MAX_NODES + MORE_NODES } }
    requires input { IsInput (arc_value task.now.pair.now).before.params input.now }
    ensures runs { IfOk result (λ found. MatchOption found (is_wide (arc_value task.now.pair.now) task.now.region.now input.now ≡ true)
        (λ made. (is_wide (arc_value task.now.pair.now) task.now.region.now input.now ≡ false) × AreRuns (arc_value task.now.pair.now) task.now.region.now input.now pool.new made)) }
    ensures few { IfOk result (λ found. IfSome found (λ _. length pool.new.terms ≤ MAX_NODES)) }
    ensures limit { pool.new.max_nodes ≡ pool.old.max_nodes }
{
    match make_runs(alloc, task.pair, task.region, input, pool) {
        Ok(runs) => {
            if pool.len() > MAX_NODES {
                Ok(None)
            } else {
                Ok(Some(runs))
            }
        }
        Err(PoolError::Wide) => Ok(None),
        Err(PoolError::Memory) => Err(AllocError),
    }
}

/// Makes the terms in their order.
fn make_runs(
    alloc: Global,
    pair: &Pair,
    region: &Region,
    input: &Input,
    pool: &mut Pool,
) -> Result<Runs, PoolError>
    requires { IsInput pair.now.before.params input.now }
    ensures runs { IfOk result (λ made. AreRuns pair.now region.now input.now pool.new made) }
    ensures names { Names (named pair.now region.now input.now) pool.old pool.new result }
{
    let region = region.copy_into(alloc, pool)?;
    let before = slice_at(alloc, &pair.before, input, pair.turns, pool)?;
    let after = slice_at(alloc, &pair.after, input, pair.turns, pool)?;
    let equality = equality(&before, &after, pool)?;
    Ok(Runs {
        region,
        before,
        after,
        equality,
    })
}

impl Runs {
    /// Whether a slice has more literals than it may have.
    pub(crate) fn has_many_literals(&self) -> bool
        ensures { result ≡ (nat_lt 1024 (length self.now.before.literals) || nat_lt 1024 (length self.now.after.literals)) }
    {
        self.before.literals.len() > MAX_LITERALS || self.after.literals.len() > MAX_LITERALS
    }

    /// Whether a version passes the bound on turns.
    pub(crate) fn is_beyond(&self) -> bool
        ensures { result ≡ (is_long_of self.now.before.outcome.how || is_long_of self.now.after.outcome.how) }
    {
        is_long(self.before.outcome.how) || is_long(self.after.outcome.how)
    }

    /// Whether both versions have the same outcome, where neither passes the bound on turns.
    pub(crate) fn agree(&self) -> bool
        requires { (is_long_of self.now.before.outcome.how || is_long_of self.now.after.outcome.how) ≡ false }
        ensures { result ≡ outcome_eq self.now.before.outcome self.now.after.outcome }
    {
        compare(&self.before.outcome, &self.after.outcome) == Verdict::Same
    }
}

/// Whether a run passes the bound on turns.
fn is_long(how: Ending) -> bool
    ensures { result ≡ is_long_of how }
{
    match how {
        Ending::Long => true,
        _ => false,
    }
}
