//! The tests of one line, in their order.
ghost use Rattle.std.specs.Prelude.{◌≡◌, ◌+◌, ◌≤◌, [], map, length, IsTrue, IfNone};
ghost use Rattle.std.specs.List.{list_all, list_any};
ghost use Rattle.prv_cnf.specs.Literals.{negate, has_literal};
ghost use Rattle.prv_check.specs.Propagation.{trail_after};
ghost use Rattle.prv_check.specs.Lines.{known, clauses_at, is_within, no_repeat, is_tautology, clause_fault, derivation_fault, line_fault};

use crate::assignment::Assignment;
use crate::fault::LineWhy;
use crate::known::{all_below, known_count};
use crate::log::Line;
use crate::propagate::propagate;
use prv_cnf::{Cnf, Lit};

/// The first test that a line fails after the earlier lines. Without a fault the trail then has the
/// negations of the line's literals and what its hints made true, in this order.
pub fn line_fault(
    cnf: &Cnf,
    earlier: &[Line],
    line: &Line,
    assignment: &mut Assignment,
) -> Option<LineWhy>
    requires clean { assignment.old.trail ≡ [] }
    requires formula { assignment.old.vars ≡ cnf.now.vars }
    requires room { length line.now.clause + length line.now.hints ≤ assignment.old.room }
    ensures fault { result ≡ line_fault cnf.now earlier.now line.now }
    ensures trail { IfNone result (assignment.new.trail ≡ trail_after (map negate line.now.clause) (clauses_at (known cnf.now earlier.now) line.now.hints)) }
    ensures same { assignment.new ≡ record assignment.old { trail = assignment.new.trail } }
{
    let why = clause_fault(cnf.vars(), line.clause().lits(), assignment);
    if why.is_some() {
        return why;
    }
    derivation_fault(cnf, earlier, line.hints(), assignment)
}

/// The first test that a clause fails by itself. Without a fault the trail then has the negations of
/// its literals.
fn clause_fault(vars: u32, lits: &[Lit], assignment: &mut Assignment) -> Option<LineWhy>
    requires clean { assignment.old.trail ≡ [] }
    requires formula { assignment.old.vars ≡ vars }
    requires room { length lits.now ≤ assignment.old.room }
    ensures fault { result ≡ clause_fault vars lits.now }
    ensures trail { IfNone result (assignment.new.trail ≡ map negate lits.now) }
    ensures same { assignment.new ≡ record assignment.old { trail = assignment.new.trail } }
{
    if !all_within(vars, lits) {
        return Some(LineWhy::BadLiteral);
    }
    if !falsify(lits, assignment) {
        return Some(LineWhy::Repeat);
    }
    if is_tautology(lits, assignment) {
        return Some(LineWhy::Tautology);
    }
    None
}

/// The first test that hints fail.
fn derivation_fault(
    cnf: &Cnf,
    earlier: &[Line],
    hints: &[u32],
    assignment: &mut Assignment,
) -> Option<LineWhy>
    requires room { length assignment.old.trail + length hints.now ≤ assignment.old.room }
    ensures fault { result ≡ derivation_fault assignment.old.trail (known cnf.now earlier.now) hints.now }
    ensures trail { IfNone result (assignment.new.trail ≡ trail_after assignment.old.trail (clauses_at (known cnf.now earlier.now) hints.now)) }
    ensures same { assignment.new ≡ record assignment.old { trail = assignment.new.trail } }
{
    if hints.is_empty() {
        return Some(LineWhy::NoHints);
    }
    if !all_below(hints, known_count(cnf, earlier)) {
        return Some(LineWhy::BadHint);
    }
    propagate(cnf, earlier, hints, assignment)
}

/// Whether each literal is of one of the variables.
fn all_within(vars: u32, lits: &[Lit]) -> bool
    ensures { result ≡ list_all (is_within vars) lits.now }
{
    lits.iter()
        .all(|lit| lit.variable() > 0 && lit.variable() <= vars)
}

/// Makes each literal false, and answers whether none stands twice.
fn falsify(lits: &[Lit], assignment: &mut Assignment) -> bool
    requires clean { assignment.old.trail ≡ [] }
    requires within { IsTrue (list_all (is_within assignment.old.vars) lits.now) }
    requires room { length lits.now ≤ assignment.old.room }
    ensures once { result ≡ no_repeat lits.now }
    ensures trail { assignment.new ≡ record assignment.old { trail = map negate lits.now } }
{
    let mut once = true;
    for lit in lits {
        once = once && !assignment.makes_false(*lit);
        assignment.add_negation(*lit);
    }
    once
}

/// Whether a literal stands in the clause with its negation, once all its literals are false.
fn is_tautology(lits: &[Lit], assignment: &Assignment) -> bool
    requires within { IsTrue (list_all (is_within assignment.now.vars) lits.now) }
    requires trail { assignment.now.trail ≡ map negate lits.now }
    ensures { result ≡ is_tautology lits.now }
{
    for lit in lits {
        if assignment.makes_true(*lit) {
            return true;
        }
    }
    false
}
