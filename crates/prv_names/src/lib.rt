//! From a tree to its program: each name becomes the number of the variable that it stands for.
//!
//! `check` is the one entry. What a program says of its names, which of it is wrong and what its version
//! is, is said in `specs/`.
#![tactic(auto)]

mod checker;
mod count;
mod error;
mod marks;
mod names;
mod number;
mod said;
mod say;
mod scopes;
mod version;

pub use checker::check;
pub use error::{NameError, What};
pub use version::{MarkAt, Version};
