//! The slice of a run: conditions on the inputs, as nodes of a pool, on which a program puts out the
//! values of these terms and ends in this way.
#![tactic(auto)]

mod error;
mod laws;
mod literals;
mod outs;
mod slice;
#[cfg(test)]
mod tests;

pub use error::GeneralError;
pub use laws::{slice_fixes_outcome, slice_holds_its_input, slice_is_over_parameters};
pub use slice::{MAX_LITERALS, Slice, generalise, slice_at};
