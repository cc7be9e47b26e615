//! Concrete runs: what a program does on an input, what is evaluated on the way, and what a pair does at a point.
#![tactic(auto)]

mod evaluate;
mod event;
mod execute;
mod points;
mod record;
mod runs;
mod sizes;

pub use event::{Event, Traced, What};
pub use points::point_entries;
pub use runs::{run, trace};
