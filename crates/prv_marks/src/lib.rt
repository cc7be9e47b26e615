//! From two versions to the pair that is compared, or to what keeps them from being one.
//!
//! `pair` is the one entry. It takes no memory.
#![tactic(auto)]

mod difference;
mod error;
mod marks;
mod pairing;

pub use error::{PairError, Side};
pub use pairing::pair;
