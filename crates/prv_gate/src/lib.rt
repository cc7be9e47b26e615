//! Circuits of gates that become formulas: each gate adds clauses that fix its output, a gate that
//! was made before is made once, and what is known of a bit is used in place of it.
#![tactic(auto)]

mod assert;
mod bit;
mod builder;
mod define;
mod folding;
mod gate;
mod gates;
mod majority;
mod mux;
mod occurrences;
mod propagate;
mod propagator;
#[cfg(test)]
mod tests;

pub use bit::Bit;
pub use builder::Builder;
pub use gate::Gate;
