//! From the bytes of a file to its version of a program, or to the first reason why it gives none.
//!
//! `read_version` is the one entry. Which version a file gives, and why one is refused, is said in `specs/`
//! over the definitions of lexer, parser and names; the laws of these definitions are the contracts of `laws`.
#![tactic(auto)]

mod error;
mod laws;
mod read;

pub use error::VersionError;
pub use laws::{one_reason, one_version, version_or_refusal};
pub use read::read_version;
