//! An entry of a board: a region, as terms, with what is claimed of it. A kind carries its own evidence where
//! it has one: the sample of a difference, or the reason why nothing was decided.
ghost use Rattle.std.specs.Prelude.{◌≡◌, IfOk};

use crate::input::Input;
use crate::term::Term;
use sqlite_items::Items;
use std::alloc::{AllocError, Global};

/// Why nothing was decided about a region.
#[derive(Clone, Copy, Debug, PartialEq, Eq)]
pub enum Reason {
    /// The solver made all the lines of its budget.
    Lines { budget: u32 },
    /// The log, of so many lines, would have passed the limit on its numbers.
    Numbers { lines: u32 },
    /// The formula would cost so many clauses, which is past the limit.
    Clauses { count: u64 },
    /// The terms are more than the limit on nodes.
    Wide,
    /// A slice has more literals than the limit.
    Literals,
}

/// What is claimed of every input of a region.
#[derive(Debug, Drop)]
pub enum Kind {
    /// Both versions end alike.
    Same,
    /// Both versions end differently; the sample is one of the region's inputs.
    Different { sample: Input },
    /// No input lies in the region.
    Empty,
    /// Some version passes the bound on turns.
    Beyond,
    /// Nothing: the region wasn't explored yet.
    Unexplored,
    /// Nothing, for this reason.
    Undecided { reason: Reason },
}

impl Kind {
    /// The same kind once more.
    pub fn copy(&self, alloc: Global) -> Result<Kind, AllocError>
        ensures { IfOk result (λ kind. kind ≡ self.now) }
    {
        Ok(match self {
            Kind::Same => Kind::Same,
            Kind::Different { sample } => Kind::Different {
                sample: sample.copy(alloc)?,
            },
            Kind::Empty => Kind::Empty,
            Kind::Beyond => Kind::Beyond,
            Kind::Unexplored => Kind::Unexplored,
            Kind::Undecided { reason } => Kind::Undecided { reason: *reason },
        })
    }
}

/// A region with what is claimed of it: the inputs on which each of the terms is nonzero.
#[derive(Debug, Drop)]
pub struct Entry {
    /// Its number. An entry that is cut up is gone, and its parts have numbers of their own.
    pub number: u32,
    /// The terms that are nonzero on the inputs of its region.
    pub terms: Items<Term>,
    /// What is claimed of each of them.
    pub kind: Kind,
    /// The marks of the changed statements that contribute to the claim, in rising order.
    pub marks: Items<u8>,
}
