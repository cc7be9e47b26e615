//! A walk through the watches under a literal that has become false.
ghost use Rattle.std.specs.Prelude.{◌≡◌, ℕ, ◌+◌, ◌<◌, ◌≤◌, true, length, IfOk, OnOk, MatchOption};
ghost use Rattle.prv_cnf.specs.Literals.{has_literal};
ghost use Rattle.prv_check.specs.Lines.{known};
ghost use Rattle.prv_propagate.specs.Trails.{trues};
ghost use Rattle.prv_propagate.specs.Watching.{watches_of, watch_at};
ghost use Rattle.prv_propagate.specs.Soundness.{IsSound, IsExtended, IsConflict, IsSpread, ArePropagated};
ghost use Rattle.prv_propagate.specs.Walking.{IsWalk, false_by};

use crate::clauses::clause_at;
use crate::look::{Finding, look};
use crate::trail::Trail;
use crate::watches::{Watch, Watches};
use prv_check::Line;
use prv_cnf::Cnf;
use std::alloc::AllocError;

/// Walks from the end through the watches under the literal that is false by the step at `from`,
/// makes true what their clauses imply, and answers the number of a clause whose literals are all
/// false, if there is one.
pub fn walk(
    cnf: &Cnf,
    lines: &[Line],
    from: usize,
    watches: &mut Watches,
    trail: &mut Trail,
) -> Result<Option<u32>, AllocError>
    requires sound { IsSound (known cnf.now lines.now) trail.old watches.old }
    requires inside { from < length trail.old.steps }
    requires before { ArePropagated (known cnf.now lines.now) watches.old.pairs trail.old.steps from }
    ensures sound { OnOk result (IsSound (known cnf.now lines.now) trail.new watches.new) }
    ensures spread { IfOk result (IsSpread (known cnf.now lines.now) watches.new.pairs trail.new.steps (from + 1)) }
    ensures extended { OnOk result (IsExtended trail.old.steps trail.new.steps) }
    ensures vars { OnOk result (trail.new.vars ≡ trail.old.vars) }
{
    let lit = trail.steps()[from].lit.negated();
    let list = watches.list(lit);
    let mut at = next_open(list, list.len(), trail);
    while at > 0 {
        if let Some(conflict) = visit(cnf, lines, from, at - 1, watches, trail)? {
            return Ok(Some(conflict));
        }
        at = next_open(watches.list(lit), at - 1, trail);
    }
    Ok(None)
}

/// Up to where the watches below this place go, once those at their end are left out whose blocker
/// is true.
#[inline(always)]
fn next_open(list: &[Watch], below: usize, trail: &Trail) -> usize
    requires { below ≤ length list.now }
    ensures bound { result ≤ below }
    ensures skipped { (j : ℕ) → result ≤ j → j < below → has_literal (trues trail.now.steps) (watch_at list.now j).blocker ≡ true }
{
    let mut at = below;
    while at > 0 && trail.is_true(list[at - 1].blocker) {
        at -= 1;
    }
    at
}

/// Visits the watch at this place.
#[inline(always)]
fn visit(
    cnf: &Cnf,
    lines: &[Line],
    from: usize,
    at: usize,
    watches: &mut Watches,
    trail: &mut Trail,
) -> Result<Option<u32>, AllocError>
    requires { IsWalk (known cnf.now lines.now) from trail.old watches.old (at + 1) }
    ensures walk { IfOk result (λ found. MatchOption found (IsWalk (known cnf.now lines.now) from trail.new watches.new at) (IsConflict (known cnf.now lines.now) trail.new.steps)) }
    ensures sound { OnOk result (IsSound (known cnf.now lines.now) trail.new watches.new) }
    ensures extended { OnOk result (IsExtended trail.old.steps trail.new.steps) }
    ensures vars { OnOk result (trail.new.vars ≡ trail.old.vars) }
{
    let lit = trail.steps()[from].lit.negated();
    let watch = watches.list(lit)[at];
    let clause = watch.clause;
    let lits = clause_at(cnf, lines, clause as usize);
    match look(lits, watches.pair(clause), lit, trail) {
        Finding::Stale => {
            watches.remove(lit, at);
            Ok(None)
        }
        Finding::Satisfied(other) => {
            watches.set_blocker(lit, at, other);
            Ok(None)
        }
        Finding::Free(pair) => {
            watches.rewatch(lit, at, clause, pair)?;
            Ok(None)
        }
        Finding::Unit(other) => {
            trail.imply(other, clause);
            Ok(None)
        }
        Finding::Conflict => Ok(Some(clause)),
    }
}
