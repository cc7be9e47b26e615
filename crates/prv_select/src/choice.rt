//! The choice of a run's evaluations: the call that makes the tables, walks back, and answers.
ghost use Rattle.std.specs.Prelude.{◌≡◌, ℕ, ℤ, List, [], ◌∷◌, ◌++◌, ◌≤◌, IfOk, OnOk, length, filter};
ghost use Rattle.prv_dep.specs.Tables.{dependences};
ghost use Rattle.prv_run.specs.Runs.{run_of, events as events_of};
ghost use Rattle.prv_select.specs.Choices.{choose, nothing, rising, rising_below};
ghost use Rattle.prv_select.specs.MarkSets.{has_mark};

use crate::mark_set::MarkSet;
use crate::places::places;
use crate::walk::{Tables, Walk, walk_back};
use prv_dep::Writes;
use prv_model::Program;
use prv_run::Traced;
use sqlite_items::Items;
use std::alloc::{AllocError, Global};

/// Which evaluations of a run are kept, and which marks contribute.
#[derive(Debug, Drop)]
pub struct Chosen {
    /// Whether each evaluation is kept, in their order.
    pub events: Items<bool>,
    /// The marks round what is kept, in rising order.
    pub marks: Items<u8>,
}

/// Which evaluations of a run decide what it shows, and which marks stand round them.
///
/// The trace is the one that `trace` answers for this program, and `deps` is what `Writes::of` answers for
/// it. The time is in proportion to the evaluations and to the size of the program.
pub fn select(
    alloc: Global,
    program: &Program,
    trace: &Traced,
    deps: &Writes,
) -> Result<Chosen, AllocError>
    ensures events { (x : List ℤ) (turns : ℕ) → trace.now.events ≡ events_of (run_of program.now turns x) → deps.now ≡ dependences program.now →
        IfOk result (λ c. c.events ≡ (choose (run_of program.now turns x) nothing).kept) }
    ensures marks { (x : List ℤ) (turns : ℕ) → trace.now.events ≡ events_of (run_of program.now turns x) → deps.now ≡ dependences program.now →
        IfOk result (λ c. c.marks ≡ rising (choose (run_of program.now turns x) nothing).marks) }
{
    let places = places(alloc, program.body.as_slice())?;
    let mut kept = none_kept(alloc, trace.events.len())?;
    let mut walk = Walk {
        needed: 0,
        entered: 0,
        skipped: None,
        marks: MarkSet::none(),
    };
    let tables = Tables {
        places: places.as_slice(),
        rows: deps.rows(),
    };
    walk_back(trace.events.as_slice(), tables, &mut walk, &mut kept);
    Ok(Chosen {
        events: kept,
        marks: marks_below(alloc, walk.marks, 256)?,
    })
}

/// So many evaluations, of which none is kept.
fn none_kept(alloc: Global, count: usize) -> Result<Items<bool>, AllocError>
    ensures { IfOk result (λ kept. length kept ≡ count) }
{
    let mut kept = Items::new(alloc);
    for _ in 0..count {
        kept.push(false)?;
    }
    Ok(kept)
}

/// The marks of a set below this number, in rising order.
fn marks_below(alloc: Global, marks: MarkSet, count: u16) -> Result<Items<u8>, AllocError>
    requires { count ≤ 256 }
    ensures { IfOk result (λ rising. rising ≡ rising_below (λ m. has_mark marks m) count) }
{
    let mut rising = Items::new(alloc);
    for mark in 0..count {
        push_mark(marks, mark as u8, &mut rising)?;
    }
    Ok(rising)
}

/// Pushes a mark, if it is in a set.
fn push_mark(marks: MarkSet, mark: u8, rising: &mut Items<u8>) -> Result<(), AllocError>
    ensures { OnOk result (rising.new ≡ rising.old ++ filter (λ m. has_mark marks m) (mark ∷ [])) }
{
    if marks.has(mark) {
        rising.push(mark)?;
    }
    Ok(())
}
