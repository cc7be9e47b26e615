//! Jumps back, to where a line was learnt or to the start.
ghost use Rattle.std.specs.Prelude.{◌≡◌, ◌+◌, ◌^◌, ◌<◌, ◌≤◌, ◌++◌, ◌∷◌, [], min, take, length, IfOk, OnOk};
ghost use Rattle.prv_check.specs.Lines.{known};
ghost use Rattle.prv_propagate.specs.Trails.{IsCut};
ghost use Rattle.prv_sat.specs.States.{IsState, IsReady};
ghost use Rattle.prv_sat.specs.Conclusions.{IsLearntClause};

use crate::order::Order;
use crate::search::State;
use prv_check::Line;
use prv_cnf::{Cnf, Lit};
use prv_propagate::add_line;
use std::alloc::AllocError;

/// Takes back all steps but so many, and those up to the next decision. It answers how many are left.
fn cut_back(state: &mut State, order: &mut Order, keep: usize) -> Result<usize, AllocError>
    requires { keep ≤ length state.old.trail.steps }
    ensures cut { IfOk result (IsCut state.old.trail.steps keep) }
    ensures trail { IfOk result (λ end. state.new.trail ≡ record state.old.trail { steps = take end state.old.trail.steps }) }
    ensures watches { OnOk result (state.new.watches ≡ state.old.watches) }
    ensures lines { OnOk result (state.new.lines ≡ state.old.lines) }
    ensures done { OnOk result (state.new.done ≡ state.old.done) }
{
    let end = state.trail.cut(keep);
    order.release(&state.trail.steps()[end..])?;
    state.trail.jump_back(end);
    Ok(end)
}

/// Takes back all decisions.
pub fn restart(cnf: &Cnf, state: &mut State, order: &mut Order) -> Result<(), AllocError>
    requires { IsReady cnf.now state.old.lines.items state.old.trail state.old.watches state.old.done }
    ensures ready { OnOk result (IsReady cnf.now state.new.lines.items state.new.trail state.new.watches state.new.done) }
    ensures lines { OnOk result (state.new.lines.items ≡ state.old.lines.items) }
{
    // The formula is named by the clauses alone.
    let _ = cnf;
    let end = cut_back(state, order, 0)?;
    state.done = least(state.done, end);
    Ok(())
}

/// Jumps back to where a line implies its literal, adds it, and makes the literal true.
pub fn adopt(
    cnf: &Cnf,
    state: &mut State,
    order: &mut Order,
    line: Line,
    lit: Lit,
    keep: usize,
) -> Result<(), AllocError>
    requires state { IsState cnf.now state.old.lines.items state.old.trail state.old.watches }
    requires clause { IsLearntClause cnf.now state.old.lines.items state.old.trail.steps line lit keep }
    requires few { length (known cnf.now state.old.lines.items) + 1 < 2 ^ 32 }
    ensures ready { OnOk result (IsReady cnf.now state.new.lines.items state.new.trail state.new.watches state.new.done) }
    ensures lines { OnOk result (state.new.lines.items ≡ state.old.lines.items ++ line ∷ []) }
{
    // The steps' contract says that the true literals are an assignment.
    let _ = state.trail.steps();
    let end = cut_back(state, order, keep)?;
    add_line(
        cnf,
        state.lines.as_slice(),
        &line,
        lit,
        keep,
        &mut state.watches,
        &mut state.trail,
    )?;
    state.done = end;
    state.lines.push(line)?;
    Ok(())
}

fn least(one: usize, other: usize) -> usize
    ensures { result ≡ min one other }
{
    if one < other { one } else { other }
}
