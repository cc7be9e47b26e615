//! Unit propagation along the hints of a line.
ghost use Rattle.std.specs.Prelude.{◌≡◌, ◌+◌, ◌≤◌, length, map, nat_eq, nat_lt, false, not, IsTrue, MatchOption};
ghost use Rattle.std.specs.List.{list_all};
ghost use Rattle.prv_cnf.specs.Literals.{same_literal};
ghost use Rattle.prv_check.specs.Propagation.{is_false, unit_literal, hints_fault, trail_after};
ghost use Rattle.prv_check.specs.Lines.{known, clauses_at};
ghost use Rattle.prv_check.specs.Inner.Assigned.{AreFalse};

use crate::assignment::{Assignment, is_false};
use crate::fault::LineWhy;
use crate::known::clause_at;
use crate::log::Line;
use prv_cnf::{Cnf, Lit};

/// The one literal of a clause that isn't false, if there is one.
#[inline(never)]
fn unit_of(rounds: &[u32], round: u32, trail: &[Lit], lits: &[Lit]) -> Option<Lit>
    requires { AreFalse (map (nat_eq round) rounds.now) trail.now }
    ensures { result ≡ unit_literal trail.now lits.now }
{
    let mut found = None;
    for lit in lits {
        if !is_false(rounds, round, trail, *lit) {
            if is_other(found, *lit) {
                return None;
            }
            found = Some(*lit);
        }
    }
    found
}

/// Whether a literal was found that isn't this one.
fn is_other(found: Option<Lit>, lit: Lit) -> bool
    ensures { MatchOption found (result ≡ false) (λ l. result ≡ not (same_literal l lit)) }
{
    match found {
        None => false,
        Some(other) => other.0 != lit.0,
    }
}

/// Whether each literal of a clause is false.
fn all_false(rounds: &[u32], round: u32, trail: &[Lit], lits: &[Lit]) -> bool
    requires { AreFalse (map (nat_eq round) rounds.now) trail.now }
    ensures { result ≡ list_all (is_false trail.now) lits.now }
{
    for lit in lits {
        if !is_false(rounds, round, trail, *lit) {
            return false;
        }
    }
    true
}

/// Makes what the hints imply true, one hint after another, and answers the first fault.
pub fn propagate(
    cnf: &Cnf,
    earlier: &[Line],
    hints: &[u32],
    assignment: &mut Assignment,
) -> Option<LineWhy>
    requires known { IsTrue (list_all (λ n. nat_lt n (length (known cnf.now earlier.now))) hints.now) }
    requires room { length assignment.old.trail + length hints.now ≤ assignment.old.room }
    ensures fault { result ≡ hints_fault assignment.old.trail (clauses_at (known cnf.now earlier.now) hints.now) }
    ensures trail { assignment.new ≡ record assignment.old { trail = trail_after assignment.old.trail (clauses_at (known cnf.now earlier.now) hints.now) } }
{
    let Some((last, others)) = hints.split_last() else {
        return Some(LineWhy::NoHints);
    };
    for hint in others {
        let clause = clause_at(cnf, earlier, *hint as usize);
        let (rounds, round) = assignment.falses();
        match unit_of(rounds, round, assignment.trail(), clause) {
            None => return Some(LineWhy::NotUnit),
            Some(lit) => assignment.add(lit),
        }
    }
    let clause = clause_at(cnf, earlier, *last as usize);
    let (rounds, round) = assignment.falses();
    if all_false(rounds, round, assignment.trail(), clause) {
        None
    } else {
        Some(LineWhy::NotFalse)
    }
}
