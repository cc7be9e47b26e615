//! The record of a settlement before anybody has checked it: what a shape has is in its fields, and
//! which of them stand together the table of shapes says.
use prv_check::{Line, Log};
use prv_model::{Input, Reason};
use prv_part::Shape;

/// The record of a settlement, which need not be one that a board supports.
#[derive(Drop)]
pub struct Raw {
    /// The number of the entry that it settles.
    pub entry: u32,
    /// What its region is found to be.
    pub shape: Shape,
    /// The input that was run.
    pub member: Option<Input>,
    /// What is shown beside it.
    pub other: RawOther,
    /// What it proves itself by.
    pub proof: Proof,
}

/// What a record shows beside the input that was run.
#[derive(Drop)]
pub enum RawOther {
    /// Nothing.
    None,
    /// An input of the second part.
    Member(Input),
    /// Why a part is left undecided.
    Reason(Reason),
}

/// What a record proves itself by.
#[derive(Drop)]
pub enum Proof {
    /// Nothing: the claims stand by themselves.
    None,
    /// A log that refutes a formula.
    Log(Log),
    /// A log on which a budget was spent, and the line that would bring it past the numbers.
    Spent { log: Log, next: Option<Line> },
}
