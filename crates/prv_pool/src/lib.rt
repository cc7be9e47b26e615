//! A table of distinct folded terms.
//!
//! Each distinct term is one node, whose operands are nodes before it, so that shared subterms are kept
//! once. What a term folds to and by which terms a call makes the table grow is said in `specs/`.
#![tactic(auto)]

mod calls;
mod compare;
mod error;
mod folded;
mod folding;
mod laws;
mod node;
mod nodes;
mod pool;
#[cfg(test)]
mod tests;

pub use error::PoolError;
pub use laws::{
    folded_terms_are_fixed, folding_gives_folded_terms, folding_keeps_values, foldings_are_terms,
    negation_of_a_negation, negations_and_truths,
};
pub use node::Node;
pub use pool::Pool;
