//! Which evaluations of a run its slice keeps: the definitions, what holds of them, and the walk that
//! chooses.
#![tactic(auto)]

mod choice;
mod laws;
mod mark_set;
mod places;
mod walk;

pub use choice::{Chosen, select};
pub use laws::one_flag_each;
