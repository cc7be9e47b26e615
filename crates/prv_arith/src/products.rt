//! Products by shifted rows.
ghost use Rattle.std.specs.Prelude.{◌≡◌, ◌+◌, ◌*◌, ◌<◌, ◌≤◌, length, IfOk, OnOk};
ghost use Rattle.prv_cnf.specs.declared.formula.TheConstants.{MAX_VARS};
ghost use Rattle.prv_gate.specs.Bits.{IsBit};
ghost use Rattle.prv_arith.specs.Lists.{IsReady};
ghost use Rattle.prv_arith.specs.Products.{row_added, row_step, times as times_run};

use crate::pairs::{PairGate, pair};
use crate::sums::add;
use prv_gate::{Bit, Builder};
use std::alloc::AllocError;

/// Adds the row to the highest bits, where y is true.
fn add_row(
    builder: &mut Builder,
    y: Bit,
    row: &[Bit],
    bits: &mut [Bit; 32],
) -> Result<(), AllocError>
    requires inside { IsBit builder.old.formula.vars y }
    requires ready { IsReady (18 * length row.now) builder.old row.now bits.old }
    requires some { 0 < length row.now }
    requires short { length row.now ≤ 32 }
    ensures { OnOk result (record { out = bits.new; circuit = builder.new } ≡ row_added y row.now bits.old builder.old) }
{
    let width = row.len();
    let selectors = [y; 32];
    let mut gated = [Bit::False; 32];
    pair(
        builder,
        PairGate::And,
        &selectors[..width],
        row,
        &mut gated[..width],
    )?;
    let before = *bits;
    add(
        builder,
        Bit::False,
        &gated[..width],
        &before[..width],
        &mut bits[..width],
    )?;
    Ok(())
}

/// The same, where nothing is made for a bit that is known to be unset.
fn add_step(
    builder: &mut Builder,
    y: Bit,
    row: &[Bit],
    bits: &mut [Bit; 32],
) -> Result<(), AllocError>
    requires inside { IsBit builder.old.formula.vars y }
    requires ready { IsReady (18 * length row.now) builder.old row.now bits.old }
    requires some { 0 < length row.now }
    requires short { length row.now ≤ 32 }
    ensures { OnOk result (record { out = bits.new; circuit = builder.new } ≡ row_step y row.now bits.old builder.old) }
{
    match builder.known(y) {
        Bit::False => Ok(()),
        Bit::True => add_row(builder, y, row, bits),
        Bit::Lit(_) => add_row(builder, y, row, bits),
    }
}

/// The product in 32 bits: the row of a bit of the second is the first, shifted up to that bit.
pub(crate) fn times(
    builder: &mut Builder,
    xs: &[Bit; 32],
    ys: &[Bit; 32],
) -> Result<[Bit; 32], AllocError>
    requires { IsReady 10000 builder.old xs.now ys.now }
    ensures { IfOk result (λ out. record { out = out; circuit = builder.new } ≡ times_run xs.now ys.now builder.old) }
{
    let mut product = [Bit::False; 32];
    for i in (0..32).rev() {
        add_step(builder, ys[i], &xs[31 - i..], &mut product)?;
    }
    Ok(product)
}
