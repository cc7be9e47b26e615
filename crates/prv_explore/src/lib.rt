//! Exploring a pair over all inputs: the least entry that can be worked on is settled, and then the next.
//!
//! `explore` is the one entry. It goes on until nothing is left to be worked on, its settlements are made,
//! or the board is full. Whatever it found until then, the board is legal.
#![tactic(auto)]

mod exploring;
mod plan;
mod progress;
#[cfg(test)]
mod tests;
mod turn;

pub use exploring::{Explored, explore};
pub use plan::{BOARD_CAPS, Plan};
pub use progress::{Progress, Quiet};
