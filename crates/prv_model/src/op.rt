//! Operators: of expressions as they are written, and the fewer ones of terms. `a > b` is written and means the
//! term `b < a`; `&&` and `||` choose what is evaluated, which a term, having a value on every input, need not
//! do.

/// An operator on one word.
#[derive(Clone, Copy, Debug, PartialEq, Eq)]
pub enum UnOp {
    /// `-a`, which wraps.
    Neg,
    /// `!a`: 1 where the word is 0, else 0.
    Not,
    /// `~a`: every bit flipped.
    Flip,
}

/// An operator on two operands of an expression, in the order in which the language lists them.
#[derive(Clone, Copy, Debug, PartialEq, Eq)]
pub enum BinOp {
    Add,
    Sub,
    Mul,
    Div,
    Rem,
    Shl,
    Shr,
    And,
    Or,
    Xor,
    Lt,
    Le,
    Gt,
    Ge,
    Eq,
    Ne,
    /// `&&`, whose second operand is evaluated only where the first is nonzero.
    AndAlso,
    /// `||`, whose second operand is evaluated only where the first is 0.
    OrElse,
}

/// An operator of a term, which has a value on every two words.
#[derive(Clone, Copy, Debug, PartialEq, Eq, Hash)]
pub enum TermOp {
    Add,
    Sub,
    Mul,
    Div,
    Rem,
    Shl,
    Shr,
    And,
    Or,
    Xor,
    Lt,
    Le,
    Eq,
    Ne,
}
