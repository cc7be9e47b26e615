//! Local minimization (Sörensson, Biere, 2009): a marked literal is left out where its reason's other
//! literals are marked.
ghost use Rattle.std.specs.Prelude.{◌≡◌, ◌<◌, ◌||◌, reverse, length, true, OnOk};
ghost use Rattle.std.specs.List.{list_all};
ghost use Rattle.prv_cnf.specs.Literals.{negate, same_literal, has_literal};
ghost use Rattle.prv_check.specs.Lines.{known};
ghost use Rattle.prv_propagate.specs.Trails.{trues};
ghost use Rattle.prv_propagate.specs.Reasons.{AreJustified};
ghost use Rattle.prv_sat.specs.Analyses.{IsPartOf, IsDerived};

use crate::marks::Marks;
use prv_check::Line;
use prv_cnf::{Cnf, Lit};
use prv_propagate::{NO_REASON, Trail, clause_at, is_same};
use std::alloc::AllocError;

/// Takes the marks of the literals back that the others imply, but for this one. The places are
/// scratch.
pub fn minimize(
    cnf: &Cnf,
    lines: &[Line],
    trail: &Trail,
    lit: Lit,
    marks: &mut Marks,
    hints: &mut Vec<u32>,
    places: &mut Vec<u32>,
) -> Result<(), AllocError>
    requires justified { AreJustified (known cnf.now lines.now) trail.now.steps }
    requires marked { has_literal marks.old.marked lit ≡ true }
    requires derived { IsDerived (known cnf.now lines.now) (trues trail.now.steps) marks.old.marked marks.old.marked (reverse hints.old.items) }
    ensures marked { OnOk result (has_literal marks.new.marked lit ≡ true) }
    ensures fewer { OnOk result (IsPartOf marks.new.marked marks.old.marked) }
    ensures derived { OnOk result (IsDerived (known cnf.now lines.now) (trues trail.now.steps) marks.new.marked marks.new.marked (reverse hints.new.items)) }
    ensures vars { OnOk result (marks.new.vars ≡ marks.old.vars) }
{
    gather(marks, trail, places)?;
    let mut at = places.len();
    while at > 0 {
        at -= 1;
        let place = places[at] as usize;
        if place < trail.steps().len() {
            drop_implied(cnf, lines, trail, place, lit, marks, hints)?;
        }
    }
    Ok(())
}

/// The places of the marked literals, in order.
fn gather(marks: &Marks, trail: &Trail, places: &mut Vec<u32>) -> Result<(), AllocError> {
    places.clear();
    for lit in marks.touched() {
        if marks.has(*lit) {
            places.push(trail.last_position(*lit))?;
        }
    }
    places.as_mut_slice().sort_unstable();
    Ok(())
}

/// Takes the mark of a step's literal back where the marked literals imply it.
fn drop_implied(
    cnf: &Cnf,
    lines: &[Line],
    trail: &Trail,
    place: usize,
    lit: Lit,
    marks: &mut Marks,
    hints: &mut Vec<u32>,
) -> Result<(), AllocError>
    requires justified { AreJustified (known cnf.now lines.now) trail.now.steps }
    requires inside { place < length trail.now.steps }
    requires marked { has_literal marks.old.marked lit ≡ true }
    requires derived { IsDerived (known cnf.now lines.now) (trues trail.now.steps) marks.old.marked marks.old.marked (reverse hints.old.items) }
    ensures marked { OnOk result (has_literal marks.new.marked lit ≡ true) }
    ensures fewer { OnOk result (IsPartOf marks.new.marked marks.old.marked) }
    ensures derived { OnOk result (IsDerived (known cnf.now lines.now) (trues trail.now.steps) marks.new.marked marks.new.marked (reverse hints.new.items)) }
    ensures vars { OnOk result (marks.new.vars ≡ marks.old.vars) }
{
    let step = trail.steps()[place];
    if step.reason == NO_REASON {
        return Ok(());
    }
    let lits = clause_at(cnf, lines, step.reason as usize);
    if is_same(step.lit, lit) || !marks.has(step.lit) || !are_marked(lits, step.lit, marks) {
        return Ok(());
    }
    hints.push(step.reason)?;
    marks.unmark(step.lit);
    Ok(())
}

/// Whether the negation of each literal, but for one, is marked.
fn are_marked(lits: &[Lit], except: Lit, marks: &Marks) -> bool
    ensures { result ≡ list_all (λ x. same_literal except x || has_literal marks.now.marked (negate x)) lits.now }
{
    lits.iter()
        .all(|lit| is_same(except, *lit) || marks.has_negation(*lit))
}
