//! Why bytes are no payload.
use thiserror::Error;

/// Why a payload is not decoded.
#[derive(Clone, Copy, Debug, PartialEq, Eq, Error)]
pub enum DecodeError {
    /// The bytes are no payload. No payload goes on with the byte at this offset; at the count of
    /// bytes, they are only too short.
    #[error("no payload goes on at byte {offset}")]
    Bad { offset: u32 },
    /// Memory ran out.
    #[error("out of memory")]
    Memory,
}
