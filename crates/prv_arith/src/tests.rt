//! Operators at the edges of words, as circuits of constants.
ghost use Rattle.std.specs.Prelude.{ℕ};
ghost use Rattle.prv_arith.specs.Lists.{AllBits};

use crate::words::{Word, word_op, word_pick};
use prv_gate::{Bit, Builder};
use prv_model::TermOp;
use std::alloc::AllocError;
use std::process::Abort;

const MIN: i32 = -2147483648;

const MAX: i32 = 2147483647;

/// The word of constant bits.
fn constant(value: i32) -> Word
    ensures { (n : ℕ) → AllBits n result.bits }
{
    let number = u32::from_be_bytes(value.to_be_bytes());
    let mut bits = [Bit::False; 32];
    for i in 0..32 {
        let bit = Bit::from((number >> (31 - i)) & 1 == 1);
        bits[i] = bit;
    }
    Word { bits }
}

/// The word of an operator on constants, which takes no variable.
fn value(
    rt: &impl Abort,
    builder: &mut Builder,
    op: TermOp,
    a: i32,
    b: i32,
) -> Result<Word, AllocError> {
    let vars = builder.vars();
    assert!(rt; vars == 0);
    word_op(builder, op, &constant(a), &constant(b))
}

/// A choice between constants.
fn choice(
    rt: &impl Abort,
    builder: &mut Builder,
    c: i32,
    a: i32,
    b: i32,
) -> Result<Word, AllocError> {
    let vars = builder.vars();
    assert!(rt; vars == 0);
    word_pick(builder, &constant(c), &constant(a), &constant(b))
}

/// Total values at the edges, worked out by another program.
#[test]
fn words_at_the_edges(rt: HostRuntime) -> Result<(), AllocError> {
    let mut builder = Builder::new(rt.alloc(), 0);
    for (op, a, b, want) in [
        (TermOp::Add, MAX, 1, MIN),
        (TermOp::Add, MIN, MIN, 0),
        (TermOp::Sub, MIN, 1, MAX),
        (TermOp::Sub, 12345, -12345, 24690),
        (TermOp::Mul, MIN, -1, MIN),
        (TermOp::Mul, 12345, -12345, -152399025),
        (TermOp::Div, MIN, -1, MIN),
        (TermOp::Div, -7, 2, -3),
        (TermOp::Div, 7, -2, -3),
        (TermOp::Div, MIN, MIN, 1),
        (TermOp::Div, 5, 0, 0),
        (TermOp::Rem, MIN, -1, 0),
        (TermOp::Rem, -7, 2, -1),
        (TermOp::Rem, 7, -2, 1),
        (TermOp::Rem, 5, 0, 0),
        (TermOp::Shl, 1, 31, MIN),
        (TermOp::Shl, 1, 33, 2),
        (TermOp::Shr, -8, 33, -4),
        (TermOp::Shr, MIN, -1, -1),
        (TermOp::And, -7, 2, 0),
        (TermOp::Or, -8, 5, -3),
        (TermOp::Xor, -1, MAX, MIN),
        (TermOp::Lt, MIN, MAX, 1),
        (TermOp::Lt, 1, -1, 0),
        (TermOp::Le, 3, 3, 1),
        (TermOp::Le, 0, -1, 0),
        (TermOp::Eq, MIN, MIN, 1),
        (TermOp::Ne, MIN, MAX, 1),
    ] {
        let word = value(&rt, &mut builder, op, a, b)?;
        assert!(rt; word.bits == constant(want).bits, "{op:?} of {a} and {b}");
    }
    for (c, want) in [(0, -5), (1, 7), (MIN, 7)] {
        let word = choice(&rt, &mut builder, c, 7, -5)?;
        assert!(rt; word.bits == constant(want).bits, "the choice by {c}");
    }
    Ok(())
}
