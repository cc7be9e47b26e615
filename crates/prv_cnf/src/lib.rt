//! Propositional formulas: literals, clauses, and formulas in conjunctive normal form, with the
//! values that satisfy them. A contract sees a clause as the list of its literals, and a formula as
//! the count of its variables and the list of its clauses.
#![tactic(auto)]

mod clauses;
mod formula;
mod literal;
#[cfg(test)]
mod tests;

pub use clauses::Clause;
pub use formula::{Cnf, MAX_VARS};
pub use literal::Lit;
