//! Conditions on words become formulas on bits, in both directions: an input meets the condition exactly
//! where the formula has a model whose first variables are the input's bits.
//!
//! The formula is a function of the list of the condition's literals as trees. Each distinct subterm is
//! one circuit, made where the subterm is first met, and each literal is asserted in its turn.
#![tactic(auto)]

mod cost;
mod encoder;
mod error;
mod formula;
mod laws;
mod order;
#[cfg(test)]
mod tests;

pub use error::BlastError;
pub use formula::{Blasted, MAX_CLAUSES, blast};
pub use laws::{formulas_stand_for_conditions, param_count_is_least};
