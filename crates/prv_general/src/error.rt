//! Why no slice was made, and how the refusals of a pool and of the allocator become such answers.
use prv_pool::PoolError;
use std::alloc::AllocError;
use thiserror::Error;

/// Why no slice was made.
#[derive(Clone, Copy, Debug, PartialEq, Eq, Error)]
pub enum GeneralError {
    /// The pool has no room for the terms of the slice.
    #[error("the terms are more than the limit on nodes")]
    Wide,
    /// The slice has more than 1,024 literals.
    #[error("the literals are more than 1024")]
    Literals,
    /// Want of memory.
    #[error("out of memory")]
    Memory,
}

impl From<AllocError> for GeneralError {
    ghost use Rattle.std.specs.Prelude.{◌≡◌};
    ghost use Rattle.prv_general.specs.declared.error.GeneralError.TheVariants.{Memory};

    ghost from_gives = { λ _ e. e ≡ Memory };

    fn from(_: AllocError) -> GeneralError {
        GeneralError::Memory
    }
}

impl From<PoolError> for GeneralError {
    ghost use Rattle.std.specs.Prelude.{◌≡◌};
    ghost use Rattle.prv_general.specs.Answers.{passed_on};

    ghost from_gives = { λ refused e. e ≡ passed_on refused };

    fn from(refused: PoolError) -> GeneralError {
        match refused {
            PoolError::Wide => GeneralError::Wide,
            PoolError::Memory => GeneralError::Memory,
        }
    }
}
