//! What is told of a run: each evaluation of an expression, by the number of its statement.
use prv_model::Outcome;
use sqlite_items::Items;

/// What an expression is evaluated for.
#[derive(Clone, Copy, Debug, PartialEq, Eq)]
pub enum What {
    /// To give a variable its value.
    Set,
    /// To be put out.
    Out,
    /// To be asserted.
    Assert,
    /// To be returned.
    Return,
    /// To decide between branches, or whether a loop goes on.
    Test,
}

/// One evaluation of an expression in a run.
#[derive(Clone, Copy, Debug, PartialEq, Eq)]
pub struct Event {
    /// The number of the statement that has the expression: its place among the program's statements in
    /// text order, from 0. Each statement inside another counts, and `main`'s own block doesn't.
    pub stmt: u32,
    /// What the expression was evaluated for.
    pub what: What,
    /// The value; 0 where the evaluation was a fault.
    pub value: i32,
    /// Whether the evaluation was no fault.
    pub safe: bool,
}

/// What was evaluated in a run, in order, and what the run shows.
#[derive(Debug, Drop)]
pub struct Traced {
    /// The evaluations, in their order.
    pub events: Items<Event>,
    /// What the run shows.
    pub outcome: Outcome,
}
