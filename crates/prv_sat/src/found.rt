//! What the solver answers.
use prv_check::{Line, Log};

/// What the solver found of a formula.
#[derive(Debug, Drop)]
pub enum Found {
    /// Values of the variables, in order, that satisfy the formula.
    Values(Vec<bool>),
    /// A log that the checker accepts: no values satisfy the formula.
    Refuted(Log),
    /// The budget was spent on the lines of this log. Where `next` is none, it has all the lines;
    /// else that line would bring it past the numbers.
    Spent { log: Log, next: Option<Line> },
}
