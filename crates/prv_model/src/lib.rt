//! Programs, words and terms, and the definitions that the whole workspace cites.
//!
//! The types are plain data. What a program does on an input, what value a term has and when a list
//! of entries is legal is said in `specs/`, over lists and numbers alone.
#![tactic(auto)]

mod arithmetic;
mod boards;
mod entry;
mod expr;
mod input;
mod laws;
mod limits;
mod name;
mod op;
mod order;
mod outcome;
mod program;
mod same;
mod stmt;
mod term;
#[cfg(test)]
mod tests;
mod verdict;
mod wellformed;

pub use arithmetic::apply;
pub use boards::places;
pub use entry::{Entry, Kind, Reason};
pub use expr::Expr;
pub use input::Input;
pub use laws::{one_verdict, term_has_a_word, terms_are_ordered};
pub use limits::{
    MAX_FILE, MAX_NAME, MAX_OPEN, MAX_OPERATORS, MAX_PARAMS, MAX_STMTS, MAX_TURNS, MAX_VARS,
};
pub use name::Name;
pub use op::{BinOp, TermOp, UnOp};
pub use outcome::{Ending, Outcome};
pub use program::{Pair, Program};
pub use stmt::Stmt;
pub use term::{Term, holds, total, value_of};
pub use verdict::{Verdict, compare};
