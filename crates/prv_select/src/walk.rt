//! The walk backward over the evaluations of a run that chooses those of its slice.
//!
//! It is dynamic slicing over a flat trace: one pass from the last evaluation to the first, with the set of
//! the variables whose values are needed. At the last evaluation of an `if` it judges whether the `if`
//! matters, by what the whole statement may write and whether it may leave; where it doesn't, everything is
//! passed over up to its test, which is its first evaluation.
ghost use Rattle.std.specs.Prelude.{◌≡◌, ◌≤◌, length, ℕ};
ghost use Rattle.prv_dep.specs.Tables.{row_at};
ghost use Rattle.prv_select.specs.BackwardWalks.{is_relevant as is_relevant_of, outermost as outermost_of, skips, chosen, passed_over, pass as pass_of, back};

use crate::mark_set::MarkSet;
use crate::places::{Place, Scope, place_of};
use prv_dep::Row;
use prv_run::{Event, What};
use sqlite_items::{Items, at};

/// What is known of each statement of a program, by its number: where it stands, and what it depends on.
#[derive(Clone, Copy)]
pub struct Tables<'a> {
    /// Where each statement stands.
    pub places: &'a [Place],
    /// What each statement depends on.
    pub rows: &'a [Row],
}

/// Where a walk backward along the evaluations of a run stands.
#[derive(Clone, Copy)]
pub struct Walk {
    /// The variables whose values are needed, with a bit for each.
    pub needed: u64,
    /// How many of the `if`s round the evaluation passed last the walk is in, the outermost first.
    pub entered: usize,
    /// The `if` that is passed over, of which the test hasn't come yet.
    pub skipped: Option<usize>,
    /// The marks that contribute.
    pub marks: MarkSet,
}

/// Walks backward along all evaluations of a run, and says of each whether it is kept.
pub fn walk_back(events: &[Event], tables: Tables<'_>, walk: &mut Walk, kept: &mut Items<bool>)
    requires { length kept.old ≡ length events.now }
    ensures walk { walk.new ≡ (back tables.entry.places.now tables.entry.rows.now events.now walk.old).walk }
    ensures kept { kept.new ≡ (back tables.entry.places.now tables.entry.rows.now events.now walk.old).kept }
{
    let mut left = events.len();
    while left > 0 {
        left -= 1;
        let is_kept = pass(&events[left], tables, walk);
        kept.set(left, is_kept);
    }
}

/// Passes one evaluation, and says whether it is kept.
fn pass(event: &Event, tables: Tables<'_>, walk: &mut Walk) -> bool
    ensures walk { walk.new ≡ (pass_of tables.entry.places.now tables.entry.rows.now event.now walk.old).walk }
    ensures kept { result ≡ (pass_of tables.entry.places.now tables.entry.rows.now event.now walk.old).kept }
{
    let stmt = event.stmt as usize;
    let here = place_of(tables.places, stmt);
    match skipped(here.inner, tables, walk) {
        Some(skipped) => {
            pass_over(stmt, here, skipped, walk);
            false
        }
        None => {
            let row = row(tables.rows, stmt);
            walk.entered = here.outer.depth;
            choose(event, row, here, walk)
        }
    }
}

/// Passes an evaluation inside an `if` that is passed over, which ends with its test.
fn pass_over(stmt: usize, here: Place, skipped: usize, walk: &mut Walk)
    ensures { walk.new ≡ passed_over stmt here skipped walk.old }
{
    if stmt == skipped {
        walk.entered = here.outer.depth;
        walk.skipped = None;
    } else {
        walk.skipped = Some(skipped);
    }
}

/// Passes an evaluation that no `if` hides, and says whether it is kept.
fn choose(event: &Event, row: Row, here: Place, walk: &mut Walk) -> bool
    ensures walk { walk.new ≡ (chosen event.now row here walk.old).walk }
    ensures kept { result ≡ (chosen event.now row here walk.old).kept }
{
    let sets = event.what == What::Set && event.safe;
    if sets && !is_relevant(row, walk.needed) {
        return false;
    }
    walk.needed = if sets {
        (walk.needed & !row.overwrites) | row.reads
    } else {
        walk.needed | row.reads
    };
    walk.marks = walk.marks.or(here.outer.marks);
    true
}

/// The `if` that the walk passes over at an evaluation in this scope, if it does: the outermost that isn't
/// relevant of those that it isn't in yet.
fn skipped(scope: Scope, tables: Tables<'_>, walk: &Walk) -> Option<usize>
    ensures { result ≡ skips tables.entry.places.now tables.entry.rows.now walk.now scope }
{
    match walk.skipped {
        Some(skipped) => Some(skipped),
        None => outermost(
            scope.nearest,
            scope.depth.saturating_sub(walk.entered),
            tables,
            walk.needed,
        ),
    }
}

/// The outermost `if` that isn't relevant, of so many from the nearest outward.
fn outermost(nearest: Option<usize>, count: usize, tables: Tables<'_>, needed: u64) -> Option<usize>
    ensures { result ≡ outermost_of tables.entry.places.now tables.entry.rows.now needed count nearest }
{
    let mut at = nearest;
    let mut found = None;
    for _ in 0..count {
        match at {
            None => {}
            Some(stmt) => {
                if !is_relevant(row(tables.rows, stmt), needed) {
                    found = Some(stmt);
                }
                at = place_of(tables.places, stmt).outer.nearest;
            }
        }
    }
    found
}

/// Whether a statement may leave or may write a variable that is needed.
fn is_relevant(row: Row, needed: u64) -> bool
    ensures { result ≡ is_relevant_of row needed }
{
    row.leaves || (row.writes & needed) != 0
}

/// What the statement with this number depends on; one that isn't there depends on nothing.
fn row(rows: &[Row], stmt: usize) -> Row
    ensures { result ≡ row_at rows.now stmt }
{
    match at(rows, stmt).copied() {
        None => Row {
            writes: 0,
            overwrites: 0,
            reads: 0,
            leaves: false,
        },
        Some(row) => row,
    }
}
