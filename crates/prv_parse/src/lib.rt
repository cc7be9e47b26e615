//! From the tokens of a file to its tree, or to the first place at which the text can be no program.
//!
//! `parse` is the one entry. Which tokens are a program, and of which tree, is said in `specs/Grammar.antt` as a
//! table of rules, one for each production; the readers here are written by hand, and proved to be those of the
//! table, construct by construct.
#![tactic(auto)]

mod block;
mod cursor;
mod error;
mod expression;
mod fixed;
mod laws;
mod main_function;
mod mark;
mod operators;
mod parser;
mod part;
mod program;
mod reader;
mod statement;
mod stop;
mod tree;

pub use error::ParseError;
pub use laws::{one_refusal, one_tree, tree_or_refusal};
pub use parser::parse;
pub use program::Tree;
pub use prv_rule::{Skel, SkelItem};
pub use tree::{ExprTree, Ident, Mark, StmtTree};
