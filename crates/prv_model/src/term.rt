//! Terms over the parameters, and their values. A term is total (a division by 0 is 0), so a condition made of
//! terms has a truth value on every input; whether a run would have faulted there is said by a term of its own.
ghost use Rattle.std.specs.Prelude.{◌≡◌};
ghost use Rattle.prv_model.specs.Terms.{term_value, holds as holds_of, bin_op as bin_op_of, total as total_of};

use crate::arithmetic::apply;
use crate::op::{BinOp, TermOp};
use sqlite_items::{Boxed, at};

/// A term over the parameters, which has a value on every input.
#[derive(Debug, Drop)]
pub enum Term {
    /// A parameter, by its number.
    Param(u8),
    Op(TermOp, Boxed<Term>, Boxed<Term>),
    /// The second where the first is nonzero, else the third.
    Pick(Boxed<Term>, Boxed<Term>, Boxed<Term>),
    Num(i32),
}

/// The value of a term on an input's words; a parameter past them is 0.
///
/// It goes over the term as a tree, and so takes time in proportion to it.
pub fn value_of(term: &Term, words: &[i32]) -> i32
    ensures { result ≡ term_value term.now words.now }
{
    match term {
        Term::Param(k) => at(words, *k as usize).copied().unwrap_or(0),
        Term::Op(op, a, b) => total(*op, value_of(a.get(), words), value_of(b.get(), words)),
        Term::Pick(test, chosen, other) => {
            if value_of(test.get(), words) == 0 {
                value_of(other.get(), words)
            } else {
                value_of(chosen.get(), words)
            }
        }
        Term::Num(n) => *n,
    }
}

/// Whether each of the terms is nonzero on an input's words: whether the region of these terms holds it.
pub fn holds(terms: &[Term], words: &[i32]) -> bool
    ensures { result ≡ holds_of terms.now words.now }
{
    terms.iter().all(|term| value_of(term, words) != 0)
}

/// A term's operator on two words: that of the program, and 0 for a division by 0.
pub fn total(op: TermOp, a: i32, b: i32) -> i32
    ensures { result ≡ total_of op a b }
{
    apply(bin_op(op), a, b).unwrap_or(0)
}

fn bin_op(op: TermOp) -> BinOp
    ensures { result ≡ bin_op_of op }
{
    match op {
        TermOp::Add => BinOp::Add,
        TermOp::Sub => BinOp::Sub,
        TermOp::Mul => BinOp::Mul,
        TermOp::Div => BinOp::Div,
        TermOp::Rem => BinOp::Rem,
        TermOp::Shl => BinOp::Shl,
        TermOp::Shr => BinOp::Shr,
        TermOp::And => BinOp::And,
        TermOp::Or => BinOp::Or,
        TermOp::Xor => BinOp::Xor,
        TermOp::Lt => BinOp::Lt,
        TermOp::Le => BinOp::Le,
        TermOp::Eq => BinOp::Eq,
        TermOp::Ne => BinOp::Ne,
    }
}
