//! Quotients and remainders by restoring division, in which bits known to be unset are left out.
ghost use Rattle.std.specs.Prelude.{◌≡◌, ◌∷◌, [], ◌++◌, take, drop, replicate, ◌+◌, ◌-◌, ◌*◌, ◌<◌, ◌≤◌, length, min, map, IfOk, OnOk, List, slice_range};
ghost use Rattle.prv_cnf.specs.declared.formula.TheConstants.{MAX_VARS};
ghost use Rattle.prv_gate.specs.Bits.{IsBit, bit_value};
ghost use Rattle.prv_gate.specs.Growth.{Grows};
ghost use Rattle.prv_gate.specs.declared.bit.Bit.TheVariants.{False};
ghost use Rattle.prv_bits.specs.Places.{padded};
ghost use Rattle.prv_bits.specs.Quotients.{fits as fits_of, reduce};
ghost use Rattle.prv_arith.specs.declared.pairs.PairGate.TheVariants.{And};
ghost use Rattle.prv_arith.specs.Pairs.{paired};
ghost use Rattle.prv_arith.specs.Lists.{AllBits, values, opposites as opposites_of, leading as leading_of, AreCarried, carried_values, IsReady};
ghost use Rattle.prv_arith.specs.Quotients.{fitting as fitting_run, divided_step, trimmed_step as trimmed_step_run, divided_on, divided, masked, signed_division as signed_division_run, signed_quotient as signed_quotient_run, signed_remainder as signed_remainder_run};

use crate::pairs::{PairGate, or, pair, some};
use crate::sums::{flip, magnitude, negate, sum};
use prv_gate::{Bit, Builder};
use std::alloc::AllocError;

/// How many of the highest bits are known to be unset.
fn leading(builder: &Builder, bits: &[Bit]) -> usize
    requires { AllBits builder.now.formula.vars bits.now }
    ensures value { result ≡ leading_of builder.now.known bits.now }
    ensures bound { result ≤ length bits.now }
{
    for (i, bit) in bits.iter().enumerate() {
        match builder.known(*bit) {
            Bit::False => {}
            Bit::True => return i,
            Bit::Lit(_) => return i,
        }
    }
    bits.len()
}

/// Whether the divisor fits into what is left, by the carry of the difference of their low bits.
fn fitting(
    builder: &mut Builder,
    divisor: &[Bit],
    rest: &[Bit],
    carry: Bit,
) -> Result<Bit, AllocError>
    requires inside { IsBit builder.old.formula.vars carry }
    requires ready { IsReady (3 * (length rest.now - length divisor.now) + 3 * (length divisor.now - length rest.now) + 6) builder.old divisor.now rest.now }
    ensures { IfOk result (λ out. record { out = out; circuit = builder.new } ≡ fitting_run divisor.now rest.now carry builder.old) }
{
    let over = some(
        builder,
        Bit::False,
        &rest[..rest.len().saturating_sub(divisor.len())],
    )?;
    let above = some(
        builder,
        Bit::False,
        &divisor[..divisor.len().saturating_sub(rest.len())],
    )?;
    let within = builder.and(above.negated(), carry)?;
    let fits = or(builder, over, within)?;
    Ok(fits)
}

/// Takes the divisor off what is left where it fits, in no more bits than the divisor has, and answers
/// whether it did. The second list holds the divisor's opposite bits, the third the difference.
fn divide_step(
    builder: &mut Builder,
    divisor: &[Bit],
    opposites: &[Bit],
    rest: &[Bit],
    difference: &mut [Bit],
    out: &mut [Bit],
) -> Result<Bit, AllocError>
    requires ready { IsReady (18 * length divisor.now + 9) builder.old divisor.now rest.now }
    requires opposite { opposites.now ≡ opposites_of divisor.now }
    requires short { length rest.now ≤ length divisor.now + 1 }
    requires space { length out.old ≡ min (length divisor.now) (length rest.now) }
    requires same { length difference.old ≡ length out.old }
    ensures { IfOk result (λ fits. record { out = (fits, out.new); circuit = builder.new } ≡ divided_step divisor.now rest.now builder.old) }
{
    let width = out.len();
    let low = &rest[rest.len() - width..];
    let subtrahend = &opposites[opposites.len() - width..];
    let carry = sum(builder, Bit::True, low, subtrahend, difference)?;
    let fits = fitting(builder, divisor, rest, carry)?;
    pair(builder, PairGate::Mux(fits), difference, low, out)?;
    Ok(fits)
}

/// The same, and how many of the highest bits that are left are known to be unset.
fn trimmed_step(
    builder: &mut Builder,
    divisor: &[Bit],
    opposites: &[Bit],
    rest: &[Bit],
    difference: &mut [Bit],
    out: &mut [Bit],
) -> Result<(Bit, usize), AllocError>
    requires ready { IsReady (18 * length divisor.now + 9) builder.old divisor.now rest.now }
    requires opposite { opposites.now ≡ opposites_of divisor.now }
    requires short { length rest.now ≤ length divisor.now + 1 }
    requires space { length out.old ≡ min (length divisor.now) (length rest.now) }
    requires same { length difference.old ≡ length out.old }
    ensures run { IfOk result (λ p. record { out = (p.0, drop p.1 out.new); circuit = builder.new } ≡ trimmed_step_run divisor.now rest.now builder.old) }
    ensures bound { IfOk result (λ p. p.1 ≤ length out.new) }
{
    let fits = divide_step(builder, divisor, opposites, rest, difference, out)?;
    let skipped = leading(builder, out);
    Ok((fits, skipped))
}

/// Brings down a bit of the dividend behind the `width` bits that are left, and takes a step. Answers a
/// bit of the quotient, and how many bits are left.
fn divide_bit(
    builder: &mut Builder,
    divisor: &[Bit],
    opposites: &[Bit],
    bit: Bit,
    rest: &mut [Bit; 33],
    width: usize,
) -> Result<(Bit, usize), AllocError>
    requires ready { IsReady (18 * length divisor.now + 9) builder.old divisor.now (take width rest.old ++ bit ∷ []) }
    requires opposite { opposites.now ≡ opposites_of divisor.now }
    requires narrow { length divisor.now ≤ 32 }
    requires left { width ≤ length divisor.now }
    ensures run { IfOk result (λ p. record { out = (p.0, take p.1 rest.new); circuit = builder.new } ≡ trimmed_step_run divisor.now (take width rest.old ++ bit ∷ []) builder.old) }
    ensures left { IfOk result (λ p. p.1 ≤ length divisor.now) }
{
    rest[width] = bit;
    let room = divisor.len().min(width + 1);
    let mut difference = [Bit::False; 33];
    let mut left = [Bit::False; 33];
    let (fits, skipped) = trimmed_step(
        builder,
        divisor,
        opposites,
        &rest[..width + 1],
        &mut difference[..room],
        &mut left[..room],
    )?;
    let kept = room - skipped;
    rest[..kept].copy_from_slice(&left[skipped..room]);
    Ok((fits, kept))
}

/// Divides bit by bit. Answers how many bits are left.
fn divide(
    builder: &mut Builder,
    divisor: &[Bit],
    opposites: &[Bit],
    dividend: &[Bit],
    quotient: &mut [Bit],
    rest: &mut [Bit; 33],
) -> Result<usize, AllocError>
    requires ready { IsReady (length dividend.now * (18 * length divisor.now + 9)) builder.old divisor.now dividend.now }
    requires opposite { opposites.now ≡ opposites_of divisor.now }
    requires narrow { length divisor.now ≤ 32 }
    requires space { length quotient.old ≡ length dividend.now }
    ensures run { IfOk result (λ n. record { out = (quotient.new, take n rest.new); circuit = builder.new } ≡ divided_on divisor.now [] [] dividend.now builder.old) }
    ensures left { IfOk result (λ n. n ≤ length divisor.now) }
{
    let mut width = 0;
    for i in 0..dividend.len() {
        let (fits, kept) = divide_bit(builder, divisor, opposites, dividend[i], rest, width)?;
        quotient[i] = fits;
        width = kept;
    }
    Ok(width)
}

/// The quotient and what is left of words without a sign, with unset bits before them.
fn divide_words(
    builder: &mut Builder,
    divisor: &[Bit; 32],
    dividend: &[Bit; 32],
) -> Result<([Bit; 32], [Bit; 32]), AllocError>
    requires { IsReady (length dividend.now * (18 * length divisor.now + 9)) builder.old divisor.now dividend.now }
    ensures circuit { IfOk result (λ p. builder.new ≡ (divided divisor.now dividend.now builder.old).circuit) }
    ensures quotient { IfOk result (λ p. p.0 ≡ padded False 32 (divided divisor.now dividend.now builder.old).out.0) }
    ensures rest { IfOk result (λ p. p.1 ≡ padded False 32 (divided divisor.now dividend.now builder.old).out.1) }
{
    let j = leading(builder, divisor);
    let k = leading(builder, dividend);
    let mut opposites = [Bit::False; 32];
    flip(divisor, &mut opposites);
    let mut quotient = [Bit::False; 32];
    let mut rest = [Bit::False; 33];
    let width = divide(
        builder,
        &divisor[j..],
        &opposites[j..],
        &dividend[k..],
        &mut quotient[k..],
        &mut rest,
    )?;
    let mut low = [Bit::False; 32];
    low[32 - width..].copy_from_slice(&rest[..width]);
    Ok((quotient, low))
}

/// What a division of the magnitudes of two words gives.
#[derive(Drop)]
struct Division {
    /// Whether the divisor isn't 0.
    nonzero: Bit,
    /// The bits of the quotient, the highest first.
    quotient: [Bit; 32],
    /// The bits of the remainder, the highest first.
    rest: [Bit; 32],
}

/// Divides the magnitudes of two words.
fn signed_division(
    builder: &mut Builder,
    xs: &[Bit; 32],
    ys: &[Bit; 32],
) -> Result<Division, AllocError>
    requires { IsReady 24000 builder.old xs.now ys.now }
    ensures circuit { IfOk result (λ d. builder.new ≡ (signed_division_run xs.now ys.now builder.old).circuit) }
    ensures nonzero { IfOk result (λ d. d.nonzero ≡ (signed_division_run xs.now ys.now builder.old).out.0) }
    ensures quotient { IfOk result (λ d. d.quotient ≡ padded False 32 (signed_division_run xs.now ys.now builder.old).out.1) }
    ensures rest { IfOk result (λ d. d.rest ≡ padded False 32 (signed_division_run xs.now ys.now builder.old).out.2) }
{
    let nonzero = some(builder, Bit::False, ys)?;
    let dividend = magnitude(builder, xs)?;
    let divisor = magnitude(builder, ys)?;
    let (quotient, rest) = divide_words(builder, &divisor, &dividend)?;
    Ok(Division {
        nonzero,
        quotient,
        rest,
    })
}

/// The bits where c is true, else as many unset ones.
fn mask(builder: &mut Builder, c: Bit, bits: &[Bit; 32]) -> Result<[Bit; 32], AllocError>
    requires inside { IsBit builder.old.formula.vars c }
    requires ready { IsReady 128 builder.old bits.now bits.now }
    ensures run { IfOk result (λ out. record { out = out; circuit = builder.new } ≡ paired And (replicate 32 c) bits.now builder.old) }
    ensures grows { OnOk result (Grows 128 builder.old builder.new) }
    ensures inside { IfOk result (λ out. AllBits builder.new.formula.vars out) }
{
    let selectors = [c; 32];
    let mut out = [Bit::False; 32];
    pair(builder, PairGate::And, &selectors, bits, &mut out)?;
    Ok(out)
}

/// The quotient of words, rounded toward zero.
pub(crate) fn signed_quotient(
    builder: &mut Builder,
    xs: &[Bit; 32],
    ys: &[Bit; 32],
) -> Result<[Bit; 32], AllocError>
    requires { IsReady 24000 builder.old xs.now ys.now }
    ensures { IfOk result (λ out. record { out = out; circuit = builder.new } ≡ signed_quotient_run xs.now ys.now builder.old) }
{
    let division = signed_division(builder, xs, ys)?;
    let raw = mask(builder, division.nonzero, &division.quotient)?;
    let sign = builder.xor(xs[0], ys[0])?;
    let out = negate(builder, sign, &raw)?;
    Ok(out)
}

/// The remainder of words, with the dividend's sign.
pub(crate) fn signed_remainder(
    builder: &mut Builder,
    xs: &[Bit; 32],
    ys: &[Bit; 32],
) -> Result<[Bit; 32], AllocError>
    requires { IsReady 24000 builder.old xs.now ys.now }
    ensures { IfOk result (λ out. record { out = out; circuit = builder.new } ≡ signed_remainder_run xs.now ys.now builder.old) }
{
    let division = signed_division(builder, xs, ys)?;
    let raw = mask(builder, division.nonzero, &division.rest)?;
    let out = negate(builder, xs[0], &raw)?;
    Ok(out)
}
