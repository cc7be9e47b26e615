//! The texts that are shown: of terms, entries, reports, outcomes and slices. Each call that writes adds to a vector.
//!
//! The text of a term is made with a limit, never whole and then cut: a few shared nodes can stand for a text of
//! gigabytes. Each text is a function of `specs/`, and each call gives just that text.
#![tactic(auto)]

mod board;
mod counts;
mod entry;
mod last;
mod literals;
mod node;
mod number;
mod outcome;
mod pieces;
mod reports;
mod slice;
mod term;
#[cfg(test)]
mod tests;

pub use board::{report, report_generated};
pub use counts::{count_entries, push_counts};
pub use entry::{push_entry, push_marks};
pub use last::Last;
pub use node::push_node;
pub use number::push_number;
pub use outcome::outcome_text;
pub use reports::report_entries;
pub use slice::slice_text;
pub use term::{push_literal, push_term};
