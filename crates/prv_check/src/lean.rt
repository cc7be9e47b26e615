//! Whether a line uses each of its literals and hints.
ghost use Rattle.std.specs.Prelude.{◌≡◌, ◌≤◌, ◌+◌, ◌*◌, ◌<◌, [], map, length, drop, true, None, slice_get, nat_lt, IsTrue};
ghost use Rattle.std.specs.List.{list_all};
ghost use Rattle.std.specs.Option.{option_map_or};
ghost use Rattle.prv_cnf.specs.Literals.{negate};
ghost use Rattle.prv_check.specs.Propagation.{hints_fault, trail_after};
ghost use Rattle.prv_check.specs.Lines.{known, clauses_at, is_within};
ghost use Rattle.prv_cnf.specs.Places.{place_of};
ghost use Rattle.prv_check.specs.Inner.Tables.{flag};
ghost use Rattle.prv_check.specs.Freshness.{stands_in, have_use, is_lean};

use crate::assignment::{Assignment, has_negation};
use crate::flags::Flags;
use crate::known::clause_at;
use crate::log::Line;
use crate::slices::after;
use crate::tables::{all_flagged, flag_all};
use prv_cnf::{Cnf, Lit};
use sqlite_items::at as at_place;

/// Whether each literal of a line that follows stands in one of its hints, and each literal that a
/// hint before the last made true has its negation in a later hint. The trail is that after the test
/// of the line.
pub fn is_lean(
    cnf: &Cnf,
    earlier: &[Line],
    line: &Line,
    assignment: &Assignment,
    seen: &mut Flags,
) -> bool
    requires known { IsTrue (list_all (λ n. nat_lt n (length (known cnf.now earlier.now))) line.now.hints) }
    requires within { IsTrue (list_all (is_within cnf.now.vars) line.now.clause) }
    requires follows { hints_fault (map negate line.now.clause) (clauses_at (known cnf.now earlier.now) line.now.hints) ≡ None }
    requires trail { assignment.now.trail ≡ trail_after (map negate line.now.clause) (clauses_at (known cnf.now earlier.now) line.now.hints) }
    requires room { length line.now.clause ≤ length assignment.now.trail }
    requires table { length seen.old ≡ 2 * cnf.now.vars + 1 }
    ensures lean { result ≡ is_lean cnf.now earlier.now line.now }
    ensures table { length seen.new ≡ length seen.old }
{
    let lits = line.clause().lits();
    let units = after(assignment.trail(), lits.len());
    let used = have_use(cnf, earlier, line.hints(), units, seen);
    all_flagged(seen, lits) & used
}

/// Whether each of the literals, that the hints made true in turn, has its negation in a later hint.
/// Then the table has all literals of the hints, of those that have a place in it.
fn have_use(cnf: &Cnf, earlier: &[Line], hints: &[u32], units: &[Lit], seen: &mut Flags) -> bool
    requires known { IsTrue (list_all (λ n. nat_lt n (length (known cnf.now earlier.now))) hints.now) }
    requires table { length seen.old ≡ 2 * cnf.now.vars + 1 }
    ensures used { result ≡ have_use units.now (clauses_at (known cnf.now earlier.now) hints.now) }
    ensures seen { (x : Lit) → place_of x < length seen.new → flag seen.new x ≡ stands_in (clauses_at (known cnf.now earlier.now) hints.now) x }
    ensures table { length seen.new ≡ length seen.old }
{
    seen.clear();
    let mut used = true;
    let mut at = hints.len();
    while at > 0 {
        used = used && has_use(cnf, earlier, after(hints, at), unit_at(units, at - 1), seen);
        at -= 1;
        flag_all(seen, clause_at(cnf, earlier, hints[at] as usize));
    }
    used
}

/// Whether the negation of the literal, if there is one, stands in one of the later hints: by the
/// table of their literals, or by a look through them where it has no place there.
fn has_use(cnf: &Cnf, earlier: &[Line], later: &[u32], unit: Option<Lit>, seen: &Flags) -> bool
    requires known { IsTrue (list_all (λ n. nat_lt n (length (known cnf.now earlier.now))) later.now) }
    requires table { length seen.now ≡ 2 * cnf.now.vars + 1 }
    requires seen { (x : Lit) → place_of x < length seen.now → flag seen.now x ≡ stands_in (clauses_at (known cnf.now earlier.now) later.now) x }
    ensures { result ≡ option_map_or (λ u. stands_in (clauses_at (known cnf.now earlier.now) later.now) (negate u)) unit true }
{
    match unit {
        None => true,
        Some(unit) => {
            if unit.variable() <= cnf.vars() {
                seen.has(unit.negated_place())
            } else {
                negation_stands_in(cnf, earlier, later, unit)
            }
        }
    }
}

/// Whether the literal's negation stands in one of the hints.
fn negation_stands_in(cnf: &Cnf, earlier: &[Line], hints: &[u32], lit: Lit) -> bool
    requires { IsTrue (list_all (λ n. nat_lt n (length (known cnf.now earlier.now))) hints.now) }
    ensures { result ≡ stands_in (clauses_at (known cnf.now earlier.now) hints.now) (negate lit) }
{
    for hint in hints {
        if has_negation(clause_at(cnf, earlier, *hint as usize), lit) {
            return true;
        }
    }
    false
}

/// The literal at this place, if there is one.
fn unit_at(units: &[Lit], at: usize) -> Option<Lit>
    ensures { result ≡ slice_get units.now at }
{
    at_place(units, at).copied()
}
