//! The terms that the evaluations of a run have over the parameters, and the terms of their safety.
//!
//! Each evaluation has two nodes of a pool: one for its value, and one that is 1 on the inputs on which
//! the expression has a value and 0 elsewhere.
#![tactic(auto)]

mod evaluations;
mod expressions;
mod laws;
mod operators;
mod statements;
mod symbol_nodes;
#[cfg(test)]
mod tests;

pub use evaluations::{Symbols, terms};
pub use expressions::symbol;
pub use laws::symbols_say_what_is_evaluated;
pub use symbol_nodes::{Slot, SymbolNodes};
