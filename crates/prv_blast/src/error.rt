//! Why a condition has no formula: it would cost too many clauses, and the count is told, since it is a reason
//! that a report shows.
use std::alloc::AllocError;
use thiserror::Error;

/// Why a condition has no formula.
#[derive(Clone, Copy, Debug, PartialEq, Eq, Error)]
pub enum BlastError {
    /// The condition's cost, which passes the limit on clauses.
    #[error("the condition costs {count} clauses, which is more than the limit")]
    Clauses { count: u64 },
    /// Want of memory.
    #[error("out of memory")]
    Memory,
}

impl From<AllocError> for BlastError {
    ghost use Rattle.std.specs.Prelude.{◌≡◌};
    ghost use Rattle.prv_blast.specs.declared.error.BlastError.TheVariants.{Memory};

    ghost from_gives = { λ _ e. e ≡ Memory };

    fn from(_: AllocError) -> BlastError {
        BlastError::Memory
    }
}
