//! The analysis of a conflict, down to the first unique implication point.
ghost use Rattle.std.specs.Prelude.{◌≡◌, ◌+◌, ◌<◌, ◌≤◌, ◌&&◌, ◌||◌, not, [], max, reverse, take, length, true, false, IfOk, OnOk, ◌⊎◌, MatchOption, IfNone, IfSome};
ghost use Rattle.std.specs.List.{list_all};
ghost use Rattle.prv_cnf.specs.declared.literal.Lit.{Lit};
ghost use Rattle.prv_cnf.specs.Literals.{negate, same_literal, has_literal};
ghost use Rattle.prv_check.specs.Propagation.{is_false};
ghost use Rattle.prv_check.specs.Lines.{known};
ghost use Rattle.prv_propagate.specs.Trails.{trues, step_at, IsDecision};
ghost use Rattle.prv_propagate.specs.Reasons.{AreJustified};
ghost use Rattle.prv_propagate.specs.Soundness.{IsConflict};
ghost use Rattle.prv_sat.specs.Marking.{is_except, AreMarkedToo};
ghost use Rattle.prv_sat.specs.Analyses.{IsPartOf, IsDerived, IsAnalyzed, IsUniquePoint, IsReach, IsLast};

use crate::marks::Marks;
use prv_check::Line;
use prv_cnf::{Cnf, Lit};
use prv_propagate::{NO_REASON, Trail, clause_at, is_same};
use std::alloc::AllocError;

/// A unique implication point: a marked step at or after a decision, so that the other marked literals
/// stand before that decision. The negations of the marked literals are then a learnt clause.
#[derive(Clone, Copy)]
pub struct UniquePoint {
    /// The place of the step on the trail.
    pub at: usize,
    /// The place of the decision.
    pub base: usize,
}

/// Goes back through the trail from a conflict, and replaces each marked literal by those that imply
/// it, until one is left that stands after the last decision: the first unique implication point.
/// There is none where the formula has no model. The hints come last to first.
pub fn analyze(
    cnf: &Cnf,
    lines: &[Line],
    trail: &Trail,
    conflict: u32,
    marks: &mut Marks,
    hints: &mut Vec<u32>,
) -> Result<Option<UniquePoint>, AllocError>
    requires justified { AreJustified (known cnf.now lines.now) trail.now.steps }
    requires conflict { IsConflict (known cnf.now lines.now) trail.now.steps conflict }
    requires marked { marks.old.marked ≡ [] }
    requires vars { marks.old.vars ≡ trail.now.vars }
    requires hints { hints.old.items ≡ [] }
    ensures analyzed { IfOk result (IsAnalyzed (known cnf.now lines.now) trail.now.steps marks.new.marked (reverse hints.new.items)) }
    ensures vars { OnOk result (marks.new.vars ≡ marks.old.vars) }
{
    let mut open = begin(cnf, lines, trail, conflict, marks, hints)?;
    let mut at = trail.steps().len();
    while at > 0 {
        at -= 1;
        if !marks.has(trail.steps()[at].lit) {
            continue;
        }
        if let Some(point) = point_at(trail, marks, at, open) {
            return Ok(Some(point));
        }
        let more = resolve(cnf, lines, trail, at, marks, hints)?;
        open = open.wrapping_add(more).wrapping_sub(1);
    }
    Ok(None)
}

/// Marks what a conflict rests on, and answers how many of it stand after the last decision.
fn begin(
    cnf: &Cnf,
    lines: &[Line],
    trail: &Trail,
    conflict: u32,
    marks: &mut Marks,
    hints: &mut Vec<u32>,
) -> Result<usize, AllocError>
    requires conflict { IsConflict (known cnf.now lines.now) trail.now.steps conflict }
    requires marked { marks.old.marked ≡ [] }
    requires vars { marks.old.vars ≡ trail.now.vars }
    requires hints { hints.old.items ≡ [] }
    ensures derived { OnOk result (IsDerived (known cnf.now lines.now) (trues trail.now.steps) (trues trail.now.steps) marks.new.marked (reverse hints.new.items)) }
    ensures vars { OnOk result (marks.new.vars ≡ marks.old.vars) }
{
    hints.push(conflict)?;
    let lits = clause_at(cnf, lines, conflict as usize);
    // The steps' contract says that no literal is true with its negation.
    let _ = trail.steps();
    let more = mark_negations(lits, None, trail, marks)?;
    Ok(more)
}

/// Replaces the marked literal of a step by those that imply it, and answers how many of them are new
/// and stand after the last decision.
fn resolve(
    cnf: &Cnf,
    lines: &[Line],
    trail: &Trail,
    at: usize,
    marks: &mut Marks,
    hints: &mut Vec<u32>,
) -> Result<usize, AllocError>
    requires justified { AreJustified (known cnf.now lines.now) trail.now.steps }
    requires inside { at < length trail.now.steps }
    requires implied { IsDecision (step_at trail.now.steps at) → ⊥ }
    requires marked { has_literal marks.old.marked (step_at trail.now.steps at).lit ≡ true }
    requires vars { marks.old.vars ≡ trail.now.vars }
    requires derived { IsDerived (known cnf.now lines.now) (trues trail.now.steps) (trues (take (at + 1) trail.now.steps)) marks.old.marked (reverse hints.old.items) }
    ensures derived { OnOk result (IsDerived (known cnf.now lines.now) (trues trail.now.steps) (trues (take at trail.now.steps)) marks.new.marked (reverse hints.new.items)) }
    ensures vars { OnOk result (marks.new.vars ≡ marks.old.vars) }
{
    let step = trail.steps()[at];
    hints.push(step.reason)?;
    marks.unmark(step.lit);
    let lits = clause_at(cnf, lines, step.reason as usize);
    let more = mark_negations(lits, Some(step.lit), trail, marks)?;
    Ok(more)
}

/// The unique implication point at a marked step, if it is one.
fn point_at(trail: &Trail, marks: &Marks, at: usize, open: usize) -> Option<UniquePoint>
    requires inside { at < length trail.now.steps }
    requires marked { has_literal marks.now.marked (step_at trail.now.steps at).lit ≡ true }
    requires front { IsPartOf marks.now.marked (trues (take (at + 1) trail.now.steps)) }
    ensures none { IfNone result (IsDecision (step_at trail.now.steps at) → ⊥) }
    ensures some { IfSome result (IsUniquePoint trail.now.steps marks.now.marked) }
{
    let step = trail.steps()[at];
    if step.reason == NO_REASON {
        return Some(UniquePoint { at, base: at });
    }
    if open != 1 {
        return None;
    }
    let Some(base) = trail.last_decision() else {
        return None;
    };
    if base <= at && reach(marks, trail, step.lit) <= base {
        Some(UniquePoint { at, base })
    } else {
        None
    }
}

/// Marks the negations of the literals, but for one, and answers how many of those that were not
/// marked stand after the last decision.
fn mark_negations(
    lits: &[Lit],
    except: Option<Lit>,
    trail: &Trail,
    marks: &mut Marks,
) -> Result<usize, AllocError>
    requires vars { marks.old.vars ≡ trail.now.vars }
    requires others { list_all (λ x. is_except except x || is_false (trues trail.now.steps) x) lits.now ≡ true }
    ensures marked { OnOk result (AreMarkedToo marks.old.marked lits.now except marks.new.marked) }
    ensures vars { OnOk result (marks.new.vars ≡ marks.old.vars) }
{
    let base = trail.last_decision().unwrap_or(usize::MAX);
    let mut after = 0usize;
    for lit in lits {
        let fresh = mark_other(*lit, except, trail, marks)?;
        if fresh && trail.last_position(*lit) as usize >= base {
            after = after.wrapping_add(1);
        }
    }
    Ok(after)
}

/// Marks the negation of a literal, unless that is left out, and answers whether it was not marked.
fn mark_other(
    lit: Lit,
    except: Option<Lit>,
    trail: &Trail,
    marks: &mut Marks,
) -> Result<bool, AllocError>
    requires vars { marks.old.vars ≡ trail.now.vars }
    requires other { (is_except except lit || is_false (trues trail.now.steps) lit) ≡ true }
    ensures marked { OnOk result ((x : Lit) → has_literal marks.new.marked x ≡ (has_literal marks.old.marked x || (same_literal (negate x) lit && not (is_except except (negate x))))) }
    ensures vars { OnOk result (marks.new.vars ≡ marks.old.vars) }
{
    if is_except(except, lit) {
        return Ok(false);
    }
    // The steps' contract says that true literals are of variables, so that the negation fits.
    let _ = trail.steps();
    marks.mark(lit.negated())
}

/// Whether a literal is the one that is left out.
fn is_except(except: Option<Lit>, lit: Lit) -> bool
    ensures { result ≡ is_except except lit }
{
    match except {
        None => false,
        Some(other) => is_same(other, lit),
    }
}

/// How many steps it takes to have the marked literals but this one.
pub fn reach(marks: &Marks, trail: &Trail, lit: Lit) -> usize
    requires { IsPartOf marks.now.marked (trues trail.now.steps) }
    ensures { IsReach trail.now.steps marks.now.marked lit result }
{
    let mut keep = 0;
    for other in marks.touched() {
        keep = greater(keep, needed(marks, trail, *other, lit));
    }
    keep
}

/// How many steps it takes to have a literal, if it is marked and not the one that is left out.
fn needed(marks: &Marks, trail: &Trail, other: Lit, lit: Lit) -> usize
    requires { IsPartOf marks.now.marked (trues trail.now.steps) }
    ensures inside { result ≤ length trail.now.steps }
    ensures reached { has_literal marks.now.marked other ≡ true → (other ≡ lit) ⊎ (has_literal (trues (take result trail.now.steps)) other ≡ true) }
    ensures last { IsLast trail.now.steps marks.now.marked lit result }
{
    if !marks.has(other) || is_same(other, lit) {
        return 0;
    }
    // The steps' contract bounds their count.
    let _ = trail.steps();
    trail.position(other) + 1
}

fn greater(one: usize, other: usize) -> usize
    ensures { result ≡ max one other }
{
    if one < other { other } else { one }
}
