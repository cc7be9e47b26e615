//! The operators of terms on the bits of words.
ghost use Rattle.std.specs.Prelude.{◌≡◌, length, IfOk};
ghost use Rattle.prv_gate.specs.Bits.{IsBit};
ghost use Rattle.prv_gate.specs.Circuits.{opposite};
ghost use Rattle.prv_gate.specs.declared.bit.Bit.TheVariants.{True};
ghost use Rattle.prv_bits.specs.Places.{low};
ghost use Rattle.prv_arith.specs.Lists.{IsReady, opposites, top_bit};
ghost use Rattle.prv_arith.specs.Pairs.{IsPairGate, paired};
ghost use Rattle.prv_arith.specs.Sums.{added};
ghost use Rattle.prv_arith.specs.Orders.{signed_less as signed_less_run, unlike as unlike_run};
ghost use Rattle.prv_arith.specs.Shifts.{shifted_up, shifted_down};
ghost use Rattle.prv_arith.specs.Costs.{op_cost};
ghost use Rattle.prv_arith.specs.Words.{flag_word, op_bits};

use crate::orders::{flag, signed_less, unlike};
use crate::pairs::{PairGate, pair};
use crate::products::times;
use crate::quotients::{signed_quotient, signed_remainder};
use crate::shifts::{shift_down, shift_up};
use crate::sums::{add, flip};
use prv_gate::{Bit, Builder};
use prv_model::TermOp;
use std::alloc::AllocError;

/// The sum of two words and a carry.
fn plus(
    builder: &mut Builder,
    carry: Bit,
    xs: &[Bit; 32],
    ys: &[Bit; 32],
) -> Result<[Bit; 32], AllocError>
    requires inside { IsBit builder.old.formula.vars carry }
    requires ready { IsReady 500 builder.old xs.now ys.now }
    ensures { IfOk result (λ out. record { out = out; circuit = builder.new } ≡ added carry xs.now ys.now builder.old) }
{
    let mut out = [Bit::False; 32];
    add(builder, carry, xs, ys, &mut out)?;
    Ok(out)
}

/// The difference of two words.
fn minus(builder: &mut Builder, xs: &[Bit; 32], ys: &[Bit; 32]) -> Result<[Bit; 32], AllocError>
    requires { IsReady 500 builder.old xs.now ys.now }
    ensures { IfOk result (λ out. record { out = out; circuit = builder.new } ≡ added True xs.now (opposites ys.now) builder.old) }
{
    let mut flipped = [Bit::False; 32];
    flip(ys, &mut flipped);
    let out = plus(builder, Bit::True, xs, &flipped)?;
    Ok(out)
}

/// The first word as many places up as the lowest five bits of the second say.
fn shifted_left(
    builder: &mut Builder,
    xs: &[Bit; 32],
    ys: &[Bit; 32],
) -> Result<[Bit; 32], AllocError>
    requires { IsReady 700 builder.old xs.now ys.now }
    ensures { IfOk result (λ out. record { out = out; circuit = builder.new } ≡ shifted_up (low 5 ys.now) xs.now builder.old) }
{
    let out = shift_up(builder, &ys[27..], xs)?;
    Ok(out)
}

/// The first word as many places down as the lowest five bits of the second say, with its sign before.
fn shifted_right(
    builder: &mut Builder,
    xs: &[Bit; 32],
    ys: &[Bit; 32],
) -> Result<[Bit; 32], AllocError>
    requires { IsReady 700 builder.old xs.now ys.now }
    ensures { IfOk result (λ out. record { out = out; circuit = builder.new } ≡ shifted_down (top_bit xs.now) (low 5 ys.now) xs.now builder.old) }
{
    let out = shift_down(builder, xs[0], &ys[27..], xs)?;
    Ok(out)
}

/// The gate on the bits at each place of two words.
fn each_place(
    builder: &mut Builder,
    gate: PairGate,
    xs: &[Bit; 32],
    ys: &[Bit; 32],
) -> Result<[Bit; 32], AllocError>
    requires inside { IsPairGate builder.old.formula.vars gate }
    requires ready { IsReady 128 builder.old xs.now ys.now }
    ensures { IfOk result (λ out. record { out = out; circuit = builder.new } ≡ paired gate xs.now ys.now builder.old) }
{
    let mut out = [Bit::False; 32];
    pair(builder, gate, xs, ys, &mut out)?;
    Ok(out)
}

/// Whether the first word is less, as a word.
fn is_less(builder: &mut Builder, xs: &[Bit; 32], ys: &[Bit; 32]) -> Result<[Bit; 32], AllocError>
    requires { IsReady 500 builder.old xs.now ys.now }
    ensures { IfOk result (λ out. record { out = out; circuit = builder.new } ≡ flag_word (length xs.now) (signed_less_run xs.now ys.now builder.old)) }
{
    let less = signed_less(builder, xs, ys)?;
    Ok(flag(less))
}

/// Whether the second word isn't less, as a word.
fn is_at_most(
    builder: &mut Builder,
    xs: &[Bit; 32],
    ys: &[Bit; 32],
) -> Result<[Bit; 32], AllocError>
    requires { IsReady 500 builder.old xs.now ys.now }
    ensures { IfOk result (λ out. record { out = out; circuit = builder.new } ≡ flag_word (length xs.now) (opposite (signed_less_run ys.now xs.now builder.old))) }
{
    let greater = signed_less(builder, ys, xs)?;
    Ok(flag(greater.negated()))
}

/// Whether the words differ, as a word.
fn differs(builder: &mut Builder, xs: &[Bit; 32], ys: &[Bit; 32]) -> Result<[Bit; 32], AllocError>
    requires { IsReady 256 builder.old xs.now ys.now }
    ensures { IfOk result (λ out. record { out = out; circuit = builder.new } ≡ flag_word (length xs.now) (unlike_run xs.now ys.now builder.old)) }
{
    let differ = unlike(builder, xs, ys)?;
    Ok(flag(differ))
}

/// Whether the words are equal, as a word.
fn is_equal(builder: &mut Builder, xs: &[Bit; 32], ys: &[Bit; 32]) -> Result<[Bit; 32], AllocError>
    requires { IsReady 256 builder.old xs.now ys.now }
    ensures { IfOk result (λ out. record { out = out; circuit = builder.new } ≡ flag_word (length xs.now) (opposite (unlike_run xs.now ys.now builder.old))) }
{
    let differ = unlike(builder, xs, ys)?;
    Ok(flag(differ.negated()))
}

/// The bits of an operator's value.
#[tactic(auto, unfolding(crate::specs::Words::op_bits))]
pub(crate) fn operate(
    builder: &mut Builder,
    op: TermOp,
    xs: &[Bit; 32],
    ys: &[Bit; 32],
) -> Result<[Bit; 32], AllocError>
    requires { IsReady (op_cost op) builder.old xs.now ys.now }
    ensures { IfOk result (λ out. record { out = out; circuit = builder.new } ≡ op_bits op xs.now ys.now builder.old) }
{
    match op {
        TermOp::Add => plus(builder, Bit::False, xs, ys),
        TermOp::Sub => minus(builder, xs, ys),
        TermOp::Mul => times(builder, xs, ys),
        TermOp::Div => signed_quotient(builder, xs, ys),
        TermOp::Rem => signed_remainder(builder, xs, ys),
        TermOp::Shl => shifted_left(builder, xs, ys),
        TermOp::Shr => shifted_right(builder, xs, ys),
        TermOp::And => each_place(builder, PairGate::And, xs, ys),
        TermOp::Or => each_place(builder, PairGate::Or, xs, ys),
        TermOp::Xor => each_place(builder, PairGate::Xor, xs, ys),
        TermOp::Lt => is_less(builder, xs, ys),
        TermOp::Le => is_at_most(builder, xs, ys),
        TermOp::Eq => is_equal(builder, xs, ys),
        TermOp::Ne => differs(builder, xs, ys),
    }
}
