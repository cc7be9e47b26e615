//! A clause-learning solver that writes its log (Marques-Silva, Sakallah, 1996; Eén, Sörensson,
//! 2003). It answers a model of a formula, or a log that refutes it, or that a budget of lines and
//! numbers was spent, with a log that shows so.
#![tactic(auto)]

mod analysis;
mod found;
mod heap;
mod jumps;
mod learn;
mod marks;
mod minimize;
mod order;
mod restart;
mod search;
mod solver;
#[cfg(test)]
mod tests;

pub use found::Found;
pub use solver::{solve, solve_from};
