//! Shifts: a stage of choices for each bit of the amount, from the lowest up.
ghost use Rattle.std.specs.Prelude.{◌≡◌, ◌+◌, ◌*◌, ◌<◌, ◌≤◌, length, IfOk, OnOk};
ghost use Rattle.prv_gate.specs.Bits.{IsBit};
ghost use Rattle.prv_gate.specs.declared.bit.Bit.TheVariants.{False};
ghost use Rattle.prv_bits.specs.Places.{raised, lowered};
ghost use Rattle.prv_arith.specs.Lists.{IsReady};
ghost use Rattle.prv_arith.specs.Shifts.{shifted_up, shifted_down};

use crate::pairs::{PairGate, pair};
use prv_gate::{Bit, Builder};
use std::alloc::AllocError;

/// The bits so many places up.
fn raise(bits: &[Bit; 32], by: usize) -> [Bit; 32]
    requires { by ≤ 32 }
    ensures { result ≡ raised False by bits.now }
{
    let mut out = [Bit::False; 32];
    out[..32 - by].copy_from_slice(&bits[by..]);
    out
}

/// The bits so many places down, with copies of the filling before.
fn lower(filling: Bit, bits: &[Bit; 32], by: usize) -> [Bit; 32]
    requires { by ≤ 32 }
    ensures { result ≡ lowered filling by bits.now }
{
    let mut out = [filling; 32];
    out[by..].copy_from_slice(&bits[..32 - by]);
    out
}

/// The bits as many places up as the amount says.
pub(crate) fn shift_up(
    builder: &mut Builder,
    amount: &[Bit],
    bits: &[Bit; 32],
) -> Result<[Bit; 32], AllocError>
    requires five { length amount.now ≡ 5 }
    requires ready { IsReady 640 builder.old amount.now bits.now }
    ensures { IfOk result (λ out. record { out = out; circuit = builder.new } ≡ shifted_up amount.now bits.now builder.old) }
{
    let mut moved = *bits;
    let mut by = 1;
    for i in (0..5).rev() {
        let up = raise(&moved, by);
        let before = moved;
        pair(builder, PairGate::Mux(amount[i]), &up, &before, &mut moved)?;
        by *= 2;
    }
    Ok(moved)
}

/// The bits as many places down as the amount says, with copies of the filling before.
pub(crate) fn shift_down(
    builder: &mut Builder,
    filling: Bit,
    amount: &[Bit],
    bits: &[Bit; 32],
) -> Result<[Bit; 32], AllocError>
    requires inside { IsBit builder.old.formula.vars filling }
    requires five { length amount.now ≡ 5 }
    requires ready { IsReady 640 builder.old amount.now bits.now }
    ensures { IfOk result (λ out. record { out = out; circuit = builder.new } ≡ shifted_down filling amount.now bits.now builder.old) }
{
    let mut moved = *bits;
    let mut by = 1;
    for i in (0..5).rev() {
        let down = lower(filling, &moved, by);
        let before = moved;
        pair(
            builder,
            PairGate::Mux(amount[i]),
            &down,
            &before,
            &mut moved,
        )?;
        by *= 2;
    }
    Ok(moved)
}
