//! What an expression reads, and whether its evaluation may fault.
//!
//! A set of variables is a word with a bit for each, since a program has at most 64 of them. Whether a
//! division may fault is judged by its divisor's form alone: only a nonzero numeral is known not to be 0.
ghost use Rattle.std.specs.Prelude.{◌≡◌};
ghost use Rattle.prv_dep.specs.Dependences.{vars as vars_of, may_fault as may_fault_of, divisions, divides as divides_of};
ghost use Rattle.prv_dep.specs.Tables.{bit as bit_of, mask};

use prv_model::{BinOp, Expr};

/// The bit of a variable; one past 64 has none.
pub fn bit(var: u8) -> u64
    ensures { result ≡ bit_of var }
{
    if var < 64 { 1 << var } else { 0 }
}

/// The variables of an expression, a bit for each.
pub fn vars(expr: &Expr) -> u64
    ensures { result ≡ mask (vars_of expr.now) }
{
    match expr {
        Expr::Num(_) => 0,
        Expr::Var(v) => bit(*v),
        Expr::Un(_, a) => vars(a.get()),
        Expr::Bin(_, a, b) => vars(a.get()) | vars(b.get()),
        Expr::Pick(test, chosen, other) => {
            vars(test.get()) | (vars(chosen.get()) | vars(other.get()))
        }
    }
}

/// Whether the evaluation of an expression may fault: whether it divides by what isn't a nonzero numeral.
pub fn may_fault(expr: &Expr) -> bool
    ensures { result ≡ may_fault_of expr.now }
{
    match expr {
        Expr::Num(_) => false,
        Expr::Var(_) => false,
        Expr::Un(_, a) => may_fault(a.get()),
        Expr::Bin(op, a, b) => {
            may_fault(a.get()) || may_fault(b.get()) || (divides(*op) && !is_nonzero(b.get()))
        }
        Expr::Pick(test, chosen, other) => {
            may_fault(test.get()) || may_fault(chosen.get()) || may_fault(other.get())
        }
    }
}

fn divides(op: BinOp) -> bool
    ensures { result ≡ divides_of op }
{
    match op {
        BinOp::Div => true,
        BinOp::Rem => true,
        _ => false,
    }
}

/// Whether an expression is a numeral that isn't 0.
fn is_nonzero(expr: &Expr) -> bool
    ensures { result ≡ (divisions expr.now).nonzero }
{
    match expr {
        Expr::Num(n) => *n != 0,
        Expr::Var(_) => false,
        Expr::Un(_, _) => false,
        Expr::Bin(_, _, _) => false,
        Expr::Pick(_, _, _) => false,
    }
}
