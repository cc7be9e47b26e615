//! What a search says of a condition. The search for an input of a region and that for an input of the other half of a
//! partition have the same answers, and differ in what is made of them.

use prv_check::Log;
use prv_model::{Input, Reason};
use prv_record::Proof;

/// What was found of a condition.
#[derive(Drop)]
pub enum Answer {
    /// An input that meets it.
    Held(Input),
    /// A log that refutes its formula: no input meets it.
    Refuted(Log),
    /// Neither, for this reason, with what proves the reason.
    Undecided(Reason, Proof),
}
