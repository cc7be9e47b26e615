//! Why a file has no tokens, and where.
use std::alloc::{AllocError, AllocFailed};
use thiserror::Error;

/// Why a text has no tokens.
#[derive(Clone, Copy, Debug, PartialEq, Eq)]
pub enum LexWhy {
    /// The file has more than 65,536 bytes.
    Long,
    /// A byte that begins no token, blank or comment.
    Byte,
    /// A number above 2147483647, or one of several digits that begins with 0.
    Number,
    /// A name of more than 63 bytes.
    NameLong,
    /// A `/*` that no `*/` follows.
    Comment,
}

/// What keeps a file from being read.
#[derive(Debug, Drop, Error)]
pub enum LexError {
    /// The first thing in the text that can't be read, or `Long` at 65536.
    #[error("{why:?} at {place}")]
    Refused { place: u32, why: LexWhy },
    /// Memory ran out.
    #[error("out of memory")]
    Memory,
}

impl From<AllocError> for LexError {
    ghost use Rattle.std.specs.Prelude.{◌≡◌};
    ghost use Rattle.prv_lex.specs.declared.error.LexError.TheVariants.{Memory};

    ghost from_gives = { λ _ e. e ≡ Memory };

    fn from(_e: AllocError) -> LexError {
        LexError::Memory
    }
}

impl<T: Drop> From<AllocFailed<T>> for LexError {
    ghost use Rattle.std.specs.Prelude.{◌≡◌};
    ghost use Rattle.prv_lex.specs.declared.error.LexError.TheVariants.{Memory};

    ghost from_gives = { λ _ e. e ≡ Memory };

    fn from(_e: AllocFailed<T>) -> LexError {
        LexError::Memory
    }
}
