//! Expressions as trees over numbered variables. They are what is left of a text once names are resolved, so no
//! expression of a program can name a variable that isn't there.
use crate::op::{BinOp, UnOp};
use sqlite_items::Boxed;

/// An expression over a program's variables.
#[derive(Debug, Drop)]
pub enum Expr {
    Num(i32),
    /// A variable, by its number.
    Var(u8),
    Un(UnOp, Boxed<Expr>),
    Bin(BinOp, Boxed<Expr>, Boxed<Expr>),
    /// `a ? b : c`.
    Pick(Boxed<Expr>, Boxed<Expr>, Boxed<Expr>),
}
