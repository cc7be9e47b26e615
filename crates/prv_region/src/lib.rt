//! Regions: conditions over a table of terms, which inputs they hold, and whether two of them are one.
//!
//! A region shares its table, and is seen as the list of its terms, whatever numbers these have there. Where
//! terms of one table are to stand in another, they are copied, and keep what they say of each input.
#![tactic(auto)]

mod copy;
mod holds;
mod numbers;
mod region;
mod same;
#[cfg(test)]
mod tests;

pub use holds::Scratch;
pub use region::{Cond, MAX_REGION_NODES, Parts, Region};
pub use same::same_region;
