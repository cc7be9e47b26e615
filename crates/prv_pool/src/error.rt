//! Why a pool makes no term: it is full, or memory ran out.
use std::alloc::AllocError;
use thiserror::Error;

/// Why a pool did not make a term.
#[derive(Clone, Copy, Debug, PartialEq, Eq, Error)]
pub enum PoolError {
    /// A term that is needed is new, and the pool has as many nodes as it may have.
    #[error("the terms are more than the limit on nodes")]
    Wide,
    /// Want of memory.
    #[error("out of memory")]
    Memory,
}

impl From<AllocError> for PoolError {
    ghost use Rattle.std.specs.Prelude.{◌≡◌};
    ghost use Rattle.prv_pool.specs.declared.error.PoolError.TheVariants.{Memory};

    ghost from_gives = { λ _ e. e ≡ Memory };

    fn from(_: AllocError) -> PoolError {
        PoolError::Memory
    }
}
