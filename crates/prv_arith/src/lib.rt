//! The operators of terms as circuits on words of 32 bits.
//!
//! Each circuit is a definition over lists of bits, the highest bit first, and the code makes exactly it:
//! what it gives in the models of the formula is proved of the definition.
#![tactic(auto)]

mod operators;
mod orders;
mod pairs;
mod products;
mod quotients;
mod shifts;
mod sums;
mod words;

pub use pairs::PairGate;
pub use words::{Word, word_op, word_pick};

#[cfg(test)]
mod tests;
