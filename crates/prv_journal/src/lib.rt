//! A journal on a disk: records that are appended one at a time, each of which is there or not there after a crash,
//! and is there once the append was answered.
#![tactic(auto)]

mod append;
mod error;
mod journal;
mod opening;
mod reading;
#[cfg(test)]
mod tests;

pub use error::{AppendError, LoadError};
pub use journal::Journal;
