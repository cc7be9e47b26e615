//! What is wrong with a line or a log: one enum for each test, whose answer a caller may print.
use std::alloc::AllocError;
use thiserror::Error;

/// What is wrong with a line, in the order of the tests: the first that fails is told.
#[derive(Clone, Copy, Debug, PartialEq, Eq, Error)]
pub enum LineWhy {
    /// A literal is 0, or its variable is past those of the formula.
    #[error("a literal is of no variable of the formula")]
    BadLiteral,
    /// A literal stands in the line twice.
    #[error("a literal stands in the line twice")]
    Repeat,
    /// A literal and its negation stand in the line.
    #[error("a literal and its negation stand in the line")]
    Tautology,
    /// The line has no hint.
    #[error("the line has no hint")]
    NoHints,
    /// A hint is the number of no earlier clause.
    #[error("a hint is no earlier clause")]
    BadHint,
    /// A hint before the last doesn't have exactly one literal that isn't false.
    #[error("a hint before the last is not unit")]
    NotUnit,
    /// The last hint has a literal that isn't false.
    #[error("the last hint is not false")]
    NotFalse,
    /// The line is empty, or contains an earlier line or a clause of the formula.
    #[error("the line contains an earlier clause")]
    Contains,
    /// A literal of the line stands in no hint, or what a hint makes true is not used later.
    #[error("the line has a literal or a hint that it does not use")]
    Loose,
    /// The log doesn't end with the empty line.
    #[error("the log does not end with the empty line")]
    NoEmpty,
}

/// Why a log is not accepted.
#[derive(Clone, Copy, Debug, PartialEq, Eq, Error)]
pub enum CheckError {
    /// The first bad line, from 0, and the first test that it fails. For [`LineWhy::NoEmpty`] it is
    /// the count of lines.
    #[error("line {line}: {why}")]
    Refused { line: u32, why: LineWhy },
    /// Memory ran out.
    #[error("out of memory")]
    Memory,
}

impl From<AllocError> for CheckError {
    ghost use Rattle.std.specs.Prelude.{◌≡◌};
    ghost use Rattle.prv_check.specs.declared.fault.CheckError.TheVariants.{Memory};

    ghost from_gives = { λ _ e. e ≡ Memory };

    fn from(_error: AllocError) -> CheckError {
        CheckError::Memory
    }
}

/// Why a log doesn't refute a formula as a proof is to.
#[derive(Clone, Copy, Debug, PartialEq, Eq, Error)]
pub enum RefutationError {
    /// The first line, from 0, that doesn't follow or names a clause twice.
    #[error("line {line} does not follow from different clauses")]
    BadLine { line: u32 },
    /// Each line is good, and the log doesn't end with the empty line.
    #[error("the log does not end with the empty line")]
    NoEmpty,
    /// Memory ran out.
    #[error("out of memory")]
    Memory,
}

impl From<AllocError> for RefutationError {
    ghost use Rattle.std.specs.Prelude.{◌≡◌};
    ghost use Rattle.prv_check.specs.declared.fault.RefutationError.TheVariants.{Memory};

    ghost from_gives = { λ _ e. e ≡ Memory };

    fn from(_error: AllocError) -> RefutationError {
        RefutationError::Memory
    }
}

/// Why no budget was spent on the lines of a log.
#[derive(Clone, Copy, Debug, PartialEq, Eq, Error)]
pub enum SpentError {
    /// The first line, from 0, that doesn't follow, isn't fresh or names a clause twice. For the line
    /// past the budget it is the count of the log's lines.
    #[error("line {line} is not worth its numbers")]
    BadLine { line: u32 },
    /// Memory ran out.
    #[error("out of memory")]
    Memory,
}

impl From<AllocError> for SpentError {
    ghost use Rattle.std.specs.Prelude.{◌≡◌};
    ghost use Rattle.prv_check.specs.declared.fault.SpentError.TheVariants.{Memory};

    ghost from_gives = { λ _ e. e ≡ Memory };

    fn from(_error: AllocError) -> SpentError {
        SpentError::Memory
    }
}
