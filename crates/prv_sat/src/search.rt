//! The search for values up to the next conflict.
ghost use Rattle.std.specs.Prelude.{◌≡◌, ℕ, ◌+◌, ◌<◌, ◌≤◌, ◌++◌, ◌∷◌, [], length, true, false, pos, slice_index, slice_index_or, IfOk, OnOk, IfNone, IfSome, MatchOption};
ghost use Rattle.std.specs.List.{list_all};
ghost use Rattle.prv_cnf.specs.declared.literal.Lit.{Lit};
ghost use Rattle.prv_cnf.specs.Literals.{has_literal};
ghost use Rattle.prv_cnf.specs.Models.{IsModel, values_of};
ghost use Rattle.prv_check.specs.Propagation.{is_false};
ghost use Rattle.prv_check.specs.Lines.{known, is_within};
ghost use Rattle.prv_propagate.specs.Trails.{trues};
ghost use Rattle.prv_propagate.specs.Reasons.{clause_of, is_satisfied, is_falsified};
ghost use Rattle.prv_propagate.specs.Soundness.{IsConflict, IsExtended};
ghost use Rattle.prv_sat.specs.States.{IsState, IsReady, IsSearched};
ghost use Rattle.prv_sat.specs.Searches.{IsSpreadTo, AreSatisfied, AreValues};

use crate::order::Order;
use prv_check::Line;
use prv_cnf::{Cnf, Lit, MAX_VARS};
use prv_propagate::{Trail, Watches, clause_at, propagate};
use std::alloc::{AllocError, Global};

/// What the solver knows between two conflicts.
#[derive(Drop)]
pub struct State {
    /// The literals that are true.
    pub trail: Trail,
    /// The watched literals of each clause.
    pub watches: Watches,
    /// The lines that were learnt, none of which ever goes.
    pub lines: Vec<Line>,
    /// How many steps were propagated.
    pub done: usize,
}

/// How a search ends.
#[derive(Drop)]
pub enum Outcome {
    /// Values of the variables that satisfy the formula.
    Values(Vec<bool>),
    /// The number of a clause whose literals are all false.
    Conflict(u32),
}

/// Decides and propagates until a clause is false or all clauses are true.
pub fn search(
    alloc: Global,
    cnf: &Cnf,
    state: &mut State,
    order: &mut Order,
) -> Result<Outcome, AllocError>
    requires { IsReady cnf.now state.old.lines.items state.old.trail state.old.watches state.old.done }
    ensures searched { IfOk result (IsSearched cnf.now state.old.lines.items state.new.trail state.new.watches) }
    ensures lines { OnOk result (state.new.lines.items ≡ state.old.lines.items) }
{
    if let Some(conflict) = spread(cnf, state)? {
        return Ok(Outcome::Conflict(conflict));
    }
    if let Some(conflict) = decide_in_order(cnf, state, order)? {
        return Ok(Outcome::Conflict(conflict));
    }
    if let Some(conflict) = satisfy_all(cnf, state)? {
        return Ok(Outcome::Conflict(conflict));
    }
    let values = model(alloc, cnf, &state.trail)?;
    Ok(Outcome::Values(values))
}

/// The values of the variables, once each clause is true.
fn model(alloc: Global, cnf: &Cnf, trail: &Trail) -> Result<Vec<bool>, AllocError>
    requires vars { trail.now.vars ≡ cnf.now.vars }
    requires satisfied { AreSatisfied (known cnf.now []) (length cnf.now.clauses) trail.now.steps }
    ensures { IfOk result (λ v. (length v.items ≡ cnf.now.vars) × IsModel (values_of v.items) cnf.now) }
{
    // The steps' contract says that the true literals are an assignment.
    let _ = trail.steps();
    let values = values(alloc, cnf.vars(), trail)?;
    Ok(values)
}

/// Propagates what wasn't yet.
fn spread(cnf: &Cnf, state: &mut State) -> Result<Option<u32>, AllocError>
    requires { IsReady cnf.now state.old.lines.items state.old.trail state.old.watches state.old.done }
    ensures spread { IfOk result (IsSpreadTo cnf.now state.old.lines.items state.new.trail state.new.watches state.new.done) }
    ensures lines { OnOk result (state.new.lines.items ≡ state.old.lines.items) }
    ensures extended { OnOk result (IsExtended state.old.trail.steps state.new.trail.steps) }
{
    let conflict = propagate(
        cnf,
        state.lines.as_slice(),
        state.done,
        &mut state.watches,
        &mut state.trail,
    )?;
    state.done = state.trail.steps().len();
    Ok(conflict)
}

/// Makes a literal true, and propagates.
fn decide(cnf: &Cnf, state: &mut State, lit: Lit) -> Result<Option<u32>, AllocError>
    requires ready { IsReady cnf.now state.old.lines.items state.old.trail state.old.watches (length state.old.trail.steps) }
    requires within { is_within state.old.trail.vars lit ≡ true }
    requires not_true { has_literal (trues state.old.trail.steps) lit ≡ false }
    requires not_false { is_false (trues state.old.trail.steps) lit ≡ false }
    ensures spread { IfOk result (IsSpreadTo cnf.now state.old.lines.items state.new.trail state.new.watches state.new.done) }
    ensures lines { OnOk result (state.new.lines.items ≡ state.old.lines.items) }
    ensures extended { OnOk result (IsExtended state.old.trail.steps state.new.trail.steps) }
    ensures decided { OnOk result (has_literal (trues state.new.trail.steps) lit ≡ true) }
{
    state.done = state.trail.steps().len();
    state.trail.decide(lit)?;
    let conflict = spread(cnf, state)?;
    Ok(conflict)
}

/// Decides in the order, as long as it has literals.
fn decide_in_order(
    cnf: &Cnf,
    state: &mut State,
    order: &mut Order,
) -> Result<Option<u32>, AllocError>
    requires { IsReady cnf.now state.old.lines.items state.old.trail state.old.watches (length state.old.trail.steps) }
    ensures spread { IfOk result (IsSpreadTo cnf.now state.old.lines.items state.new.trail state.new.watches (length state.new.trail.steps)) }
    ensures lines { OnOk result (state.new.lines.items ≡ state.old.lines.items) }
{
    if state.trail.last_decision().is_none() {
        order.list_inputs(&state.trail)?;
    }
    for _ in 0..cnf.vars() {
        let Some(lit) = order.next(&state.trail) else {
            return Ok(None);
        };
        if let Some(conflict) = decide(cnf, state, lit)? {
            return Ok(Some(conflict));
        }
    }
    Ok(None)
}

/// Makes each clause of the formula true.
fn satisfy_all(cnf: &Cnf, state: &mut State) -> Result<Option<u32>, AllocError>
    requires { IsReady cnf.now state.old.lines.items state.old.trail state.old.watches (length state.old.trail.steps) }
    ensures satisfied { IfOk result (λ found. MatchOption found (AreSatisfied (known cnf.now []) (length cnf.now.clauses) state.new.trail.steps × (state.new.trail.vars ≡ cnf.now.vars)) (λ k. IsState cnf.now state.old.lines.items state.new.trail state.new.watches × IsConflict (known cnf.now state.old.lines.items) state.new.trail.steps k)) }
    ensures lines { OnOk result (state.new.lines.items ≡ state.old.lines.items) }
{
    let count = cnf.clauses().len();
    for number in 0..count {
        if let Some(conflict) = satisfy(cnf, state, number)? {
            return Ok(Some(conflict));
        }
    }
    Ok(None)
}

/// Makes a clause of the formula true.
fn satisfy(cnf: &Cnf, state: &mut State, number: usize) -> Result<Option<u32>, AllocError>
    requires ready { IsReady cnf.now state.old.lines.items state.old.trail state.old.watches (length state.old.trail.steps) }
    requires inside { number < length cnf.now.clauses }
    ensures spread { IfOk result (IsSpreadTo cnf.now state.old.lines.items state.new.trail state.new.watches (length state.new.trail.steps)) }
    ensures lines { OnOk result (state.new.lines.items ≡ state.old.lines.items) }
    ensures extended { OnOk result (IsExtended state.old.trail.steps state.new.trail.steps) }
    ensures satisfied { IfOk result (λ found. IfNone found (is_satisfied (trues state.new.trail.steps) (clause_of (known cnf.now []) number) ≡ true)) }
{
    let lits = clause_at(cnf, &[], number);
    if is_true(lits, &state.trail) {
        return Ok(None);
    }
    let Some(lit) = first_open(lits, &state.trail) else {
        return Ok(None);
    };
    let conflict = decide(cnf, state, lit)?;
    Ok(conflict)
}

/// Whether some literal is true.
fn is_true(lits: &[Lit], trail: &Trail) -> bool
    ensures { result ≡ is_satisfied (trues trail.now.steps) lits.now }
{
    lits.iter().any(|lit| trail.is_true(*lit))
}

/// The first literal that is not false.
fn first_open(lits: &[Lit], trail: &Trail) -> Option<Lit>
    ensures none { IfNone result (is_falsified (trues trail.now.steps) lits.now ≡ true) }
    ensures some { IfSome result (λ l. (has_literal lits.now l ≡ true) × (is_false (trues trail.now.steps) l ≡ false)) }
{
    for lit in lits {
        if !trail.is_false(*lit) {
            return Some(*lit);
        }
    }
    None
}

/// The value of each variable: whether it is true.
fn values(alloc: Global, vars: u32, trail: &Trail) -> Result<Vec<bool>, AllocError>
    requires { vars ≤ MAX_VARS }
    ensures { IfOk result (λ v. AreValues vars trail.now.steps v.items) }
{
    let mut values = Vec::with_capacity(alloc, vars as usize)?;
    for var in 0..vars {
        values.push(trail.is_true(literal_of(var)))?;
    }
    Ok(values)
}

/// The literal of the variable after this number.
fn literal_of(var: u32) -> Lit
    requires { var < MAX_VARS }
    ensures { result ≡ record { 0 = pos (var + 1) } }
{
    Lit((var + 1) as i32)
}
