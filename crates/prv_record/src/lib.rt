//! Records of settlements, as a journal keeps them: what can't be worked out again from the board, which
//! is the inputs that were found and the logs. And the payload that a journal begins with, which names
//! the pair.
#![tactic(auto)]

mod content;
mod error;
mod fields;
mod law;
mod limits;
mod pair;
mod payload;
mod raw;
#[cfg(test)]
mod tests;

pub use error::DecodeError;
pub use law::{payloads_have_this_length, payloads_of_small_logs_have_at_most_this_length};
pub use limits::MAX_PAYLOAD;
pub use pair::{RawPair, decode_pair, encode_pair};
pub use payload::{decode, encode};
pub use prv_codec::Form;
pub use raw::{Proof, Raw, RawOther};
