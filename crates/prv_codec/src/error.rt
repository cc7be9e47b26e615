//! Why a field could not be read.
ghost use Rattle.std.specs.Prelude.{◌≡◌};
ghost use Rattle.prv_codec.specs.declared.error.ReadError.TheVariants.{Memory};

use std::alloc::{AllocError, AllocFailed};

/// Why a field is not read from the front of some bytes.
#[derive(Clone, Copy, Debug, PartialEq, Eq)]
pub enum ReadError {
    /// Memory ran out.
    Memory,
    /// No field goes on with the byte that has so many bytes from it to the end, itself among them;
    /// with 0 the bytes are only too short.
    Bad { left: usize },
}

impl From<AllocError> for ReadError {
    ghost from_gives = { λ _ e. e ≡ Memory };

    fn from(_error: AllocError) -> ReadError {
        ReadError::Memory
    }
}

impl<T: Drop> From<AllocFailed<T>> for ReadError {
    ghost from_gives = { λ _ e. e ≡ Memory };

    fn from(_error: AllocFailed<T>) -> ReadError {
        ReadError::Memory
    }
}
