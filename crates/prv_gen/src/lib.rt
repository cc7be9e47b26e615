//! Pairs of texts for trials, made from a number.
//!
//! Each pair has as many tests of one parameter as its size says, so that an exploration has that many
//! ways to follow, and the versions differ exactly where both parameters are equal.
#![tactic(auto)]

mod draws;
mod pairs;
#[cfg(test)]
mod tests;

pub use pairs::{Texts, generate};
