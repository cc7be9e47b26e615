//! The value of an expression in a state: a recursion over the tree, with the faults of divisions.
ghost use Rattle.std.specs.Prelude.{◌≡◌, neg_ℤ};
ghost use Rattle.std.specs.Option.{option_map};
ghost use Rattle.prv_model.specs.Words.{truth as truth_of, unary as unary_of, wrap};
ghost use Rattle.prv_model.specs.Expressions.{value};

use prv_model::{BinOp, Expr, UnOp, apply};
use sqlite_items::at;

/// The value of an expression in a state, or none where its evaluation is a fault.
pub fn evaluate(expr: &Expr, state: &[i32]) -> Option<i32>
    ensures { result ≡ value expr.now state.now }
{
    match expr {
        Expr::Num(n) => Some(*n),
        Expr::Var(v) => at(state, *v as usize).copied(),
        Expr::Un(op, a) => unary(*op, evaluate(a.get(), state)),
        Expr::Bin(op, a, b) => match evaluate(a.get(), state) {
            None => None,
            Some(left) => match op {
                BinOp::AndAlso => if left == 0 {
                    Some(0)
                } else {
                    truth(evaluate(b.get(), state))
                },
                BinOp::OrElse => if left == 0 {
                    truth(evaluate(b.get(), state))
                } else {
                    Some(1)
                },
                _ => match evaluate(b.get(), state) {
                    None => None,
                    Some(right) => apply(*op, left, right),
                },
            },
        },
        Expr::Pick(test, chosen, other) => match evaluate(test.get(), state) {
            None => None,
            Some(n) => if n == 0 {
                evaluate(other.get(), state)
            } else {
                evaluate(chosen.get(), state)
            },
        },
    }
}

/// 1 for a nonzero word, and 0 for 0.
fn truth(word: Option<i32>) -> Option<i32>
    ensures { result ≡ option_map truth_of word }
{
    match word {
        None => None,
        Some(n) => if n == 0 { Some(0) } else { Some(1) },
    }
}

/// An operator on one word, where there is one.
fn unary(op: UnOp, word: Option<i32>) -> Option<i32>
    ensures { result ≡ option_map (unary_of op) word }
{
    match word {
        None => None,
        Some(n) => Some(match op {
            UnOp::Neg => negate(n),
            UnOp::Not => if n == 0 { 1 } else { 0 },
            UnOp::Flip => !n,
        }),
    }
}

/// `-n`, which wraps.
fn negate(n: i32) -> i32
    ensures { result ≡ wrap (neg_ℤ n) }
{
    n.wrapping_neg()
}
