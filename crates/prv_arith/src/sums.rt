//! Sums by a full adder at each place from the lowest up, and negatives.
ghost use Rattle.std.specs.Prelude.{◌≡◌, ◌+◌, ◌*◌, ◌<◌, ◌≤◌, length, map, IfOk, OnOk};
ghost use Rattle.prv_cnf.specs.declared.formula.TheConstants.{MAX_VARS};
ghost use Rattle.prv_gate.specs.Bits.{IsBit, bit_value};
ghost use Rattle.prv_gate.specs.Growth.{Gives};
ghost use Rattle.prv_bits.specs.Sums.{carry as carry_of, add as add_bits, negate_if, magnitude as magnitude_of};
ghost use Rattle.prv_arith.specs.Lists.{AllBits, values, opposites, AreCarried, carried_values, IsReady};
ghost use Rattle.prv_arith.specs.Sums.{summed, added, negated, magnitude as magnitude_run};

use crate::pairs::{PairGate, pair};
use prv_gate::{Bit, Builder};
use std::alloc::AllocError;

/// The sum in as many bits, and what is carried out of the highest place.
pub(crate) fn sum(
    builder: &mut Builder,
    carry: Bit,
    xs: &[Bit],
    ys: &[Bit],
    out: &mut [Bit],
) -> Result<Bit, AllocError>
    requires inside { IsBit builder.old.formula.vars carry }
    requires ready { IsReady (14 * length xs.now) builder.old xs.now ys.now }
    requires width { length ys.now ≡ length xs.now }
    requires space { length out.old ≡ length xs.now }
    ensures run { IfOk result (λ c. record { out = (c, out.new); circuit = builder.new } ≡ summed carry xs.now ys.now builder.old) }
    ensures gives { IfOk result (λ c. Gives AreCarried carried_values (14 * length xs.now) builder.old (record { out = (c, out.new); circuit = builder.new }) (λ v. (carry_of (bit_value v carry) (values v xs.now) (values v ys.now), add_bits (bit_value v carry) (values v xs.now) (values v ys.now)))) }
{
    let mut carried = carry;
    for i in (0..xs.len()).rev() {
        let (low, high) = builder.full_adder(xs[i], ys[i], carried)?;
        out[i] = low;
        carried = high;
    }
    Ok(carried)
}

/// The sum in as many bits, with no carry out of the highest place.
pub(crate) fn add(
    builder: &mut Builder,
    carry: Bit,
    xs: &[Bit],
    ys: &[Bit],
    out: &mut [Bit],
) -> Result<(), AllocError>
    requires inside { IsBit builder.old.formula.vars carry }
    requires ready { IsReady (14 * length xs.now) builder.old xs.now ys.now }
    requires width { length ys.now ≡ length xs.now }
    requires space { length out.old ≡ length xs.now }
    requires some { 0 < length xs.now }
    ensures { OnOk result (record { out = out.new; circuit = builder.new } ≡ added carry xs.now ys.now builder.old) }
{
    let carried = sum(builder, carry, &xs[1..], &ys[1..], &mut out[1..])?;
    let differ = builder.xor(xs[0], ys[0])?;
    out[0] = builder.xor(differ, carried)?;
    Ok(())
}

/// Every bit the other way.
pub(crate) fn flip(bits: &[Bit], out: &mut [Bit])
    requires inside { AllBits MAX_VARS bits.now }
    requires space { length out.old ≡ length bits.now }
    ensures { out.new ≡ opposites bits.now }
{
    for i in (0..bits.len()).rev() {
        out[i] = bits[i].negated();
    }
}

/// The negative where c is true, else the bits.
pub(crate) fn negate(
    builder: &mut Builder,
    c: Bit,
    bits: &[Bit; 32],
) -> Result<[Bit; 32], AllocError>
    requires inside { IsBit builder.old.formula.vars c }
    requires ready { IsReady (18 * length bits.now) builder.old bits.now bits.now }
    ensures run { IfOk result (λ out. record { out = out; circuit = builder.new } ≡ negated c bits.now builder.old) }
    ensures gives { IfOk result (λ out. Gives AllBits values (18 * length bits.now) builder.old (record { out = out; circuit = builder.new }) (λ v. negate_if (bit_value v c) (values v bits.now))) }
{
    let mut flipped = [Bit::False; 32];
    let selectors = [c; 32];
    pair(builder, PairGate::Xor, &selectors, bits, &mut flipped)?;
    let zeros = [Bit::False; 32];
    let mut out = [Bit::False; 32];
    add(builder, c, &flipped, &zeros, &mut out)?;
    Ok(out)
}

/// How far a word is from 0.
pub(crate) fn magnitude(builder: &mut Builder, bits: &[Bit; 32]) -> Result<[Bit; 32], AllocError>
    requires ready { IsReady (18 * length bits.now) builder.old bits.now bits.now }
    ensures run { IfOk result (λ out. record { out = out; circuit = builder.new } ≡ magnitude_run bits.now builder.old) }
    ensures gives { IfOk result (λ out. Gives AllBits values (18 * length bits.now) builder.old (record { out = out; circuit = builder.new }) (λ v. magnitude_of (values v bits.now))) }
{
    negate(builder, bits[0], bits)
}
