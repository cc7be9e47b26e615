//! Why a journal was not opened, or a record not appended. A fault of the disk is told apart from want of memory, since
//! after the one nobody knows what the disk holds, and after the other it holds what it held.
ghost use Rattle.std.specs.Prelude.{◌≡◌};
ghost use Rattle.prv_journal.specs.declared.error.LoadError.TheVariants.{Device, Memory};

use prv_disk::DiskError;
use prv_io::Failed;
use std::alloc::{AllocError, AllocFailed};
use thiserror::Error;

/// Why a journal was not opened.
#[derive(Clone, Copy, Debug, PartialEq, Eq, Error)]
pub enum LoadError {
    /// A call of the disk failed, and the disk counted it.
    #[error("the disk has failed")]
    Device,
    /// The first open gate that has no whole record behind it.
    #[error("damaged at {offset} found {found}")]
    Damaged {
        /// Where the gate stands, from 0.
        offset: u64,
        /// How many bytes stand behind it.
        found: u64,
    },
    /// Out of memory.
    #[error("out of memory")]
    Memory,
}

/// Why a record was not appended.
#[derive(Clone, Copy, Debug, PartialEq, Eq, Error)]
pub enum AppendError {
    /// The payload has more than 17,000,000 bytes.
    #[error("the record is too long")]
    TooLong,
    /// A call of the disk failed in an earlier append of this journal.
    #[error("the journal is broken")]
    Broken,
    /// A call of the disk failed, and the disk counted it. The record is there or it isn't.
    #[error("the disk has failed")]
    Device,
    /// Out of memory. The record isn't there.
    #[error("out of memory")]
    Memory,
}

impl From<Failed> for LoadError {
    ghost from_gives = { λ _ e. e ≡ Device };

    fn from(_: Failed) -> Self {
        LoadError::Device
    }
}

impl From<AllocError> for LoadError {
    ghost from_gives = { λ _ e. e ≡ Memory };

    fn from(_: AllocError) -> Self {
        LoadError::Memory
    }
}

impl<T: Drop> From<AllocFailed<T>> for LoadError {
    ghost from_gives = { λ _ e. e ≡ Memory };

    fn from(_: AllocFailed<T>) -> Self {
        LoadError::Memory
    }
}

impl From<DiskError> for LoadError {
    ghost use Rattle.prv_journal.specs.Errors.{load_error};

    ghost from_gives = { λ error e. e ≡ load_error error };

    fn from(error: DiskError) -> Self {
        match error {
            DiskError::Failed => LoadError::Device,
            DiskError::Memory => LoadError::Memory,
        }
    }
}
