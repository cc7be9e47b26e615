//! Comparisons by one choice a place from the lowest up, without a sum.
ghost use Rattle.std.specs.Prelude.{◌≡◌, ◌+◌, ◌*◌, ◌<◌, ◌≤◌, length, IfOk, OnOk};
ghost use Rattle.prv_gate.specs.Bits.{IsBit, bit_value};
ghost use Rattle.prv_gate.specs.Growth.{Gives};
ghost use Rattle.prv_bits.specs.Orders.{below, signed_below, differ};
ghost use Rattle.prv_arith.specs.Lists.{values, IsReady};
ghost use Rattle.prv_arith.specs.Orders.{less as less_run, signed_less as signed_less_run, unlike as unlike_run, flag as flag_of};

use crate::pairs::{PairGate, pair, some};
use prv_gate::{Bit, Builder};
use std::alloc::AllocError;

/// Whether the first is less, as numbers.
fn less(builder: &mut Builder, xs: &[Bit], ys: &[Bit]) -> Result<Bit, AllocError>
    requires ready { IsReady (8 * length xs.now) builder.old xs.now ys.now }
    requires width { length ys.now ≡ length xs.now }
    ensures run { IfOk result (λ out. record { out = out; circuit = builder.new } ≡ less_run xs.now ys.now builder.old) }
    ensures gives { IfOk result (λ out. Gives IsBit bit_value (8 * length xs.now) builder.old (record { out = out; circuit = builder.new }) (λ v. below (values v xs.now) (values v ys.now))) }
{
    let mut is_less = Bit::False;
    for i in (0..xs.len()).rev() {
        let differ = builder.xor(xs[i], ys[i])?;
        is_less = builder.mux(differ, ys[i], is_less)?;
    }
    Ok(is_less)
}

/// Whether the first is less, as words: their sign bits are exchanged.
pub(crate) fn signed_less(builder: &mut Builder, xs: &[Bit], ys: &[Bit]) -> Result<Bit, AllocError>
    requires ready { IsReady (8 * length xs.now) builder.old xs.now ys.now }
    requires width { length ys.now ≡ length xs.now }
    requires some { 0 < length xs.now }
    ensures run { IfOk result (λ out. record { out = out; circuit = builder.new } ≡ signed_less_run xs.now ys.now builder.old) }
    ensures gives { IfOk result (λ out. Gives IsBit bit_value (8 * length xs.now) builder.old (record { out = out; circuit = builder.new }) (λ v. signed_below (values v xs.now) (values v ys.now))) }
{
    let lower = less(builder, &xs[1..], &ys[1..])?;
    let differ = builder.xor(ys[0], xs[0])?;
    let is_less = builder.mux(differ, xs[0], lower)?;
    Ok(is_less)
}

/// Whether the two differ.
pub(crate) fn unlike(
    builder: &mut Builder,
    xs: &[Bit; 32],
    ys: &[Bit; 32],
) -> Result<Bit, AllocError>
    requires ready { IsReady (7 * length xs.now) builder.old xs.now ys.now }
    ensures run { IfOk result (λ out. record { out = out; circuit = builder.new } ≡ unlike_run xs.now ys.now builder.old) }
    ensures gives { IfOk result (λ out. Gives IsBit bit_value (7 * length xs.now) builder.old (record { out = out; circuit = builder.new }) (λ v. differ (values v xs.now) (values v ys.now))) }
{
    let mut places = [Bit::False; 32];
    pair(builder, PairGate::Xor, xs, ys, &mut places)?;
    let differ = some(builder, Bit::False, &places)?;
    Ok(differ)
}

/// A word of which the lowest bit alone may be set.
pub(crate) fn flag(bit: Bit) -> [Bit; 32]
    ensures { result ≡ flag_of 32 bit }
{
    let mut bits = [Bit::False; 32];
    bits[31] = bit;
    bits
}
