//! A gate on the bits at each place of two lists, and a gate over all bits of one.
ghost use Rattle.std.specs.Prelude.{◌≡◌, ◌+◌, ◌*◌, ◌≤◌, ◌||◌, length, IfOk, OnOk};
ghost use Rattle.prv_cnf.specs.declared.formula.TheConstants.{MAX_VARS};
ghost use Rattle.prv_gate.specs.Bits.{IsBit, bit_value};
ghost use Rattle.prv_gate.specs.Growth.{Gives};
ghost use Rattle.prv_bits.specs.Numbers.{pairwise, any_from};
ghost use Rattle.prv_arith.specs.Lists.{AllBits, values, IsReady};
ghost use Rattle.prv_arith.specs.Pairs.{or_gate, pair_gate as pair_run, pair_value, IsPairGate, paired, some as some_run};

use prv_gate::{Bit, Builder};
use std::alloc::AllocError;

/// A gate of two bits.
#[derive(Clone, Copy)]
pub enum PairGate {
    /// Both are true.
    And,
    /// One of them is true.
    Or,
    /// They differ.
    Xor,
    /// The first where this bit is true, else the second.
    Mux(Bit),
}

/// One of the bits is true.
pub(crate) fn or(builder: &mut Builder, a: Bit, b: Bit) -> Result<Bit, AllocError>
    requires first { IsBit builder.old.formula.vars a }
    requires second { IsBit builder.old.formula.vars b }
    requires room { builder.old.formula.vars + 3 ≤ MAX_VARS }
    ensures run { IfOk result (λ out. record { out = out; circuit = builder.new } ≡ or_gate a b builder.old) }
    ensures gives { IfOk result (λ out. Gives IsBit bit_value 3 builder.old (record { out = out; circuit = builder.new }) (λ v. bit_value v a || bit_value v b)) }
{
    let neither = builder.and(a.negated(), b.negated())?;
    Ok(neither.negated())
}

/// The gate of two bits.
fn pair_gate(builder: &mut Builder, gate: PairGate, a: Bit, b: Bit) -> Result<Bit, AllocError>
    requires inside { IsPairGate builder.old.formula.vars gate }
    requires first { IsBit builder.old.formula.vars a }
    requires second { IsBit builder.old.formula.vars b }
    requires room { builder.old.formula.vars + 4 ≤ MAX_VARS }
    ensures run { IfOk result (λ out. record { out = out; circuit = builder.new } ≡ pair_run gate a b builder.old) }
{
    match gate {
        PairGate::And => builder.and(a, b),
        PairGate::Or => or(builder, a, b),
        PairGate::Xor => builder.xor(a, b),
        PairGate::Mux(c) => builder.mux(c, a, b),
    }
}

/// The gate on the bits at each place of two lists of one width.
pub(crate) fn pair(
    builder: &mut Builder,
    gate: PairGate,
    xs: &[Bit],
    ys: &[Bit],
    out: &mut [Bit],
) -> Result<(), AllocError>
    requires inside { IsPairGate builder.old.formula.vars gate }
    requires ready { IsReady (4 * length xs.now) builder.old xs.now ys.now }
    requires width { length ys.now ≡ length xs.now }
    requires space { length out.old ≡ length xs.now }
    ensures run { OnOk result (record { out = out.new; circuit = builder.new } ≡ paired gate xs.now ys.now builder.old) }
    ensures gives { OnOk result (Gives AllBits values (4 * length xs.now) builder.old (record { out = out.new; circuit = builder.new }) (λ v. pairwise (pair_value gate v) (values v xs.now) (values v ys.now))) }
{
    for i in (0..xs.len()).rev() {
        out[i] = pair_gate(builder, gate, xs[i], ys[i])?;
    }
    Ok(())
}

/// Whether c or one of the bits is true.
pub(crate) fn some(builder: &mut Builder, c: Bit, bits: &[Bit]) -> Result<Bit, AllocError>
    requires first { IsBit builder.old.formula.vars c }
    requires ready { IsReady (3 * length bits.now) builder.old bits.now bits.now }
    ensures run { IfOk result (λ out. record { out = out; circuit = builder.new } ≡ some_run c bits.now builder.old) }
    ensures gives { IfOk result (λ out. Gives IsBit bit_value (3 * length bits.now) builder.old (record { out = out; circuit = builder.new }) (λ v. any_from (bit_value v c) (values v bits.now))) }
{
    let mut found = c;
    for bit in bits {
        found = or(builder, found, *bit)?;
    }
    Ok(found)
}
