//! What each statement of a program depends on: what it may write, what it overwrites, whether it may leave,
//! and what its expression reads.
//!
//! A table is made once for a program, and answers each question by one look.
#![tactic(auto)]

mod expressions;
mod laws;
mod writes;

pub use laws::overwritten_is_written;
pub use writes::{Row, Writes};
