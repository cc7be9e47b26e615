//! Which symbols are operators, and how tightly each binds: C's table, for the parser's levels.

ghost use Rattle.std.specs.Prelude.{◌≡◌};
ghost use Rattle.prv_rule.specs.Operators.{unary_of, binary_of};
ghost use Rattle.prv_parse.specs.Operators.{precedence as precedence_of};

use prv_lex::Sym;
use prv_model::{BinOp, UnOp};

/// The operator that a symbol is before one operand.
pub fn unary(sym: Sym) -> Option<UnOp>
    ensures { result ≡ unary_of sym }
{
    match sym {
        Sym::Minus => Some(UnOp::Neg),
        Sym::Bang => Some(UnOp::Not),
        Sym::Tilde => Some(UnOp::Flip),
        _ => None,
    }
}

/// The operator that a symbol is between two operands.
pub fn binary(sym: Sym) -> Option<BinOp>
    ensures { result ≡ binary_of sym }
{
    match sym {
        Sym::Star => Some(BinOp::Mul),
        Sym::Slash => Some(BinOp::Div),
        Sym::Percent => Some(BinOp::Rem),
        Sym::Plus => Some(BinOp::Add),
        Sym::Minus => Some(BinOp::Sub),
        Sym::ShiftLeft => Some(BinOp::Shl),
        Sym::ShiftRight => Some(BinOp::Shr),
        Sym::Less => Some(BinOp::Lt),
        Sym::LessEqual => Some(BinOp::Le),
        Sym::Greater => Some(BinOp::Gt),
        Sym::GreaterEqual => Some(BinOp::Ge),
        Sym::EqualEqual => Some(BinOp::Eq),
        Sym::NotEqual => Some(BinOp::Ne),
        Sym::Ampersand => Some(BinOp::And),
        Sym::Caret => Some(BinOp::Xor),
        Sym::Bar => Some(BinOp::Or),
        Sym::AndAnd => Some(BinOp::AndAlso),
        Sym::BarBar => Some(BinOp::OrElse),
        _ => None,
    }
}

/// How loosely an operator between two operands binds: 1 for the tightest, 10 for the loosest (ISO/IEC
/// 9899:1999, 6.5.5 to 6.5.14).
pub fn precedence(op: BinOp) -> u32
    ensures { result ≡ precedence_of op }
{
    match op {
        BinOp::Mul | BinOp::Div | BinOp::Rem => 1,
        BinOp::Add | BinOp::Sub => 2,
        BinOp::Shl | BinOp::Shr => 3,
        BinOp::Lt | BinOp::Le | BinOp::Gt | BinOp::Ge => 4,
        BinOp::Eq | BinOp::Ne => 5,
        BinOp::And => 6,
        BinOp::Xor => 7,
        BinOp::Or => 8,
        BinOp::AndAlso => 9,
        BinOp::OrElse => 10,
    }
}
