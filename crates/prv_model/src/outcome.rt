//! What a run shows: the words that it put out and how it ended. Two versions agree on an input exactly where
//! these are equal as wholes, so this type is all that a comparison can see of a run.
ghost use Rattle.std.specs.Prelude.{◌≡◌, ◌↔◌, IsTrue};

use crate::verdict::same_outcome;
use sqlite_items::Items;

/// How a run ends.
#[derive(Clone, Copy, Debug, PartialEq, Eq)]
pub enum Ending {
    /// By `return`, or at the end of `main`.
    Returned,
    /// By a zero divisor that was evaluated.
    Fault,
    /// By an assertion whose value was 0.
    Assert,
    /// By a loop that wanted a turn when none was left.
    Long,
}

/// What a run shows: the words that it put out, and how it ended.
///
/// Where it returned, the returned word is the last of `outs`.
#[derive(Debug, Drop)]
pub struct Outcome {
    /// The words put out, in order, with the returned one last.
    pub outs: Items<i32>,
    /// How the run ended.
    pub how: Ending,
}

impl Outcome {
    /// Whether both are one outcome: the same words in the same order, and the same ending. Two long runs
    /// may be one.
    pub fn same(&self, other: &Outcome) -> bool
        ensures { IsTrue result ↔ (self.now ≡ other.now) }
    {
        same_outcome(self, other)
    }
}
