//! Why a board does not take a settlement: it belongs to another board, or a cap would be passed.
use crate::totals::Totals;
use std::alloc::AllocError;
use thiserror::Error;

/// Why a settlement does not belong to a board.
#[derive(Clone, Copy, Debug, PartialEq, Eq, Error)]
pub enum StrangerWhy {
    /// It is of another pair.
    #[error("the settlement is of another pair")]
    Pair,
    /// Its entry is not live, or nothing that it finds would be new there.
    #[error("entry {entry} is not open to the settlement")]
    NotLive { entry: u32 },
    /// Its region is not that of its entry.
    #[error("the settlement's region is not that of entry {entry}")]
    Region { entry: u32 },
    /// Nobody was given its entry to settle. A board never answers so.
    #[error("entry {entry} was not handed out")]
    NotOut { entry: u32 },
    /// It is of another entry than the one that was given. A board never answers so.
    #[error("the settlement is of entry {found}, and entry {given} was given")]
    Entry { found: u32, given: u32 },
}

/// Why a board did not take a settlement.
#[derive(Clone, Copy, Debug, PartialEq, Eq, Error)]
pub enum ApplyError {
    /// The settlement does not belong to the board.
    #[error("{0}")]
    Stranger(StrangerWhy),
    /// A cap would be passed. These are the totals that would be reached.
    #[error("the board is full: {0}")]
    Full(Totals),
    /// Want of memory.
    #[error("out of memory")]
    Memory,
}

impl From<AllocError> for ApplyError {
    ghost use Rattle.std.specs.Prelude.{◌≡◌};
    ghost use Rattle.prv_board.specs.declared.error.ApplyError.TheVariants.{Memory};

    ghost from_gives = { λ _ e. e ≡ Memory };

    fn from(_: AllocError) -> ApplyError {
        ApplyError::Memory
    }
}
