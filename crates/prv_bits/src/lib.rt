//! Numbers and words of bits: sums, products, quotients, shifts and comparisons as functions on lists of
//! bits, the highest bit first.
//!
//! The functions stand in `specs/` in the form in which circuits are built, a gate a step. What they are
//! worth is said here by laws, each the contract of a function that does nothing.
#![tactic(auto)]

mod numbers;
mod operators;
mod orders;
mod products;
mod quotients;
mod shifts;
mod sums;

pub use numbers::{one_list, words};
pub use operators::{choices, values};
pub use orders::comparisons;
pub use products::rows;
pub use quotients::{division, leading_zeros};
pub use shifts::stages;
pub use sums::{adder, negatives};
