//! The total order of terms. Folding puts the operands of a commutative operator into this order, so that `a *
//! b` and `b * a` are one term.
ghost use Rattle.std.specs.Prelude.{◌≡◌, ◌↔◌, IsTrue};
ghost use Rattle.prv_model.specs.TermOrder.{term_cmp, rank, op_rank};
ghost use Rattle.prv_model.specs.declared.term.Term.{out-Term};

use crate::op::TermOp;
use crate::term::Term;
use sqlite_items::Boxed;
use std::cmp::Ordering;

impl Term {
    /// The order of terms: by constructor, with parameters first and numbers last, then by number or by
    /// the operands from left to right.
    pub fn order(&self, other: &Term) -> Ordering
        ensures { result ≡ term_cmp self.now other.now }
    {
        match (self, other) {
            (Term::Param(j), Term::Param(k)) => (*j).cmp(k),
            (Term::Op(o, a, b), Term::Op(p, x, y)) => o
                .rank()
                .cmp(&p.rank())
                .then(a.get().order(x.get()).then(b.get().order(y.get()))),
            (Term::Pick(t, a, b), Term::Pick(u, x, y)) => t
                .get()
                .order(u.get())
                .then(a.get().order(x.get()).then(b.get().order(y.get()))),
            (Term::Num(m), Term::Num(n)) => (*m).cmp(n),
            _ => place(self).cmp(&place(other)),
        }
    }

    /// Whether two terms are one.
    pub fn same(&self, other: &Term) -> bool
        ensures { IsTrue result ↔ (self.now ≡ other.now) }
    {
        self.order(other) == Ordering::Equal
    }
}

/// Where a term's constructor stands in the order.
fn place(term: &Term) -> u8
    ensures { result ≡ rank (out-Term term.now) }
{
    match term {
        Term::Param(_) => 0,
        Term::Op(op, _, _) => op.rank(),
        Term::Pick(_, _, _) => 15,
        Term::Num(_) => 16,
    }
}

impl TermOp {
    /// Where an operator stands among the constructors in the order of terms, from 1 to 14.
    pub fn rank(self) -> u8
        ensures { result ≡ op_rank self }
    {
        match self {
            TermOp::Add => 1,
            TermOp::Sub => 2,
            TermOp::Mul => 3,
            TermOp::Div => 4,
            TermOp::Rem => 5,
            TermOp::Shl => 6,
            TermOp::Shr => 7,
            TermOp::And => 8,
            TermOp::Or => 9,
            TermOp::Xor => 10,
            TermOp::Lt => 11,
            TermOp::Le => 12,
            TermOp::Eq => 13,
            TermOp::Ne => 14,
        }
    }
}
