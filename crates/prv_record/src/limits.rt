//! The limits of payloads.

/// The most bytes of a payload.
pub const MAX_PAYLOAD: u64 = 17_000_000;
