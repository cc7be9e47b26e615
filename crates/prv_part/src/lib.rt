//! What the region of an entry is found to be: the parts that it is cut into, and what each claims.
//!
//! A settlement keeps that it is true: each input of its region lies in exactly one of its parts, and what
//! a part claims holds of every input in it.
#![tactic(auto)]

mod holder;
mod laws;
mod part;
mod settlement;
mod shape;
#[cfg(test)]
mod tests;

pub use laws::{
    partitions_hold_their_input, parts_are_over_parameters, parts_are_true,
    parts_cover_their_region, rests_cover_a_region,
};
pub use part::{Caps, Part};
pub use settlement::Settlement;
pub use shape::Shape;
