//! A checker for logs of derived clauses, in the manner of LRAT: each line of a log names the
//! clauses that its clause follows from by unit propagation. A formula with an accepted log has no
//! model, and whoever made the log needs no trust.
#![tactic(auto)]

mod assignment;
mod checker;
mod containment;
mod distinct;
mod fault;
mod flags;
mod fresh;
mod index;
mod known;
mod law;
mod lean;
mod line;
mod log;
mod propagate;
mod refutation;
mod signature;
mod slices;
mod spent;
mod tables;
#[cfg(test)]
mod tests;
mod work;

pub use checker::check;
pub use fault::{CheckError, LineWhy, RefutationError, SpentError};
pub use fresh::check_fresh;
pub use law::{
    accepted_has_no_model, accepted_log_is_bounded, ample_budget_is_not_spent,
    learnt_log_is_bounded, line_is_bounded,
};
pub use log::{Line, Log};
pub use refutation::check_refutation;
pub use spent::check_spent;
pub use work::{Work, check_line, prepare};
