//! What is known of each input of a space: entries, each a region with a claim.
//!
//! A settlement retires the entry that it settles, and its parts become entries with the next numbers. Whatever
//! is applied, each input of the space lies in exactly one live entry, and what an entry claims is true of
//! every input that it holds.
#![tactic(auto)]

mod apply;
mod board;
mod claim;
mod copy;
mod counts;
mod ended;
mod error;
mod find;
mod laws;
mod legal;
mod parent;
mod path;
mod prefix;
mod refuse;
#[cfg(test)]
mod tests;
mod totals;
mod tree;

pub use board::Board;
pub use counts::Counts;
pub use ended::Ended;
pub use error::{ApplyError, StrangerWhy};
pub use laws::applying_is_decided;
pub use parent::Parent;
pub use totals::Totals;
