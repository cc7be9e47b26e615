//! The operators of the language on two words. Everything that runs a program or evaluates a constant calls
//! `apply`, so the edges (wrapping, division by 0, shift amounts) are decided in this one place.
ghost use Rattle.std.specs.Prelude.{◌≡◌};
ghost use Rattle.prv_model.specs.Words.{binary, amount as amount_of, flag as flag_of};

use crate::op::BinOp;

/// The value of an operator on two evaluated words; none exactly for `/` and `%` by 0.
///
/// `+`, `-` and `*` wrap, and so does `MIN / -1`. Division truncates toward zero (ISO/IEC 9899:1999,
/// 6.5.5). A shift takes the low five bits of its amount, and `>>` keeps the sign.
pub fn apply(op: BinOp, a: i32, b: i32) -> Option<i32>
    ensures { result ≡ binary op a b }
{
    match op {
        BinOp::Add => Some(a.wrapping_add(b)),
        BinOp::Sub => Some(a.wrapping_sub(b)),
        BinOp::Mul => Some(a.wrapping_mul(b)),
        BinOp::Div => divide(a, b),
        BinOp::Rem => remainder(a, b),
        BinOp::Shl => Some(a.wrapping_shl(amount(b))),
        BinOp::Shr => Some(a.wrapping_shr(amount(b))),
        BinOp::And => Some(a & b),
        BinOp::Or => Some(a | b),
        BinOp::Xor => Some(a ^ b),
        BinOp::Lt => Some(flag(a < b)),
        BinOp::Le => Some(flag(a <= b)),
        BinOp::Gt => Some(flag(b < a)),
        BinOp::Ge => Some(flag(b <= a)),
        BinOp::Eq => Some(flag(a == b)),
        BinOp::Ne => Some(flag(a != b)),
        BinOp::AndAlso => Some(flag(a != 0 && b != 0)),
        BinOp::OrElse => Some(flag(a != 0 || b != 0)),
    }
}

/// 1 for true, and 0 for false.
fn flag(holds: bool) -> i32
    ensures { result ≡ flag_of holds }
{
    if holds { 1 } else { 0 }
}

/// The low five bits of a shift's amount.
fn amount(n: i32) -> u32
    ensures { result ≡ amount_of n }
{
    n.cast_unsigned() % 32
}

fn divide(a: i32, b: i32) -> Option<i32>
    ensures { result ≡ binary BinOp.Div a b }
{
    if b == 0 {
        None
    } else {
        Some(a.wrapping_div(b))
    }
}

fn remainder(a: i32, b: i32) -> Option<i32>
    ensures { result ≡ binary BinOp.Rem a b }
{
    if b == 0 {
        None
    } else {
        Some(a.wrapping_rem(b))
    }
}
