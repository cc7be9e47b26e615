//! The one refusal of a command line: the number of its first bad word.
use std::alloc::AllocError;
use thiserror::Error;

/// What keeps words from being read.
#[derive(Debug, Drop, Error)]
pub enum LineError {
    /// The words read as no command. `word` is the number of the first word such that the words up to and
    /// with it begin no readable list, or the count of words where the list is only too short. The
    /// command has the number 0.
    #[error("usage: word {word}")]
    Usage { word: u32 },
    /// Memory ran out.
    #[error("out of memory")]
    Memory,
}

impl From<AllocError> for LineError {
    ghost use Rattle.std.specs.Prelude.{◌≡◌};
    ghost use Rattle.prv_line.specs.declared.error.LineError.TheVariants.{Memory};

    ghost from_gives = { λ _ e. e ≡ Memory };

    fn from(_e: AllocError) -> LineError {
        LineError::Memory
    }
}
