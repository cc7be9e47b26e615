//! The test of a log as a proof that a formula has no model: beside what makes a log accepted, no line
//! names a clause twice, and that is tested before the line is followed. So whoever made the log, the
//! test costs at most the log and, for each line, the clauses that it names, each once.
ghost use Rattle.std.specs.Prelude.{◌≡◌, ◌+◌, ◌^◌, ◌<◌, ◌≤◌, ◌↔◌, [], length, IsTrue, OnOk, IfErr, IfNone, IfSome};
ghost use Rattle.std.specs.List.{All};
ghost use Rattle.prv_check.specs.Lines.{known};
ghost use Rattle.prv_check.specs.Logs.{IsAccepted};
ghost use Rattle.prv_check.specs.Bounds.{HasDistinctHints};
ghost use Rattle.prv_check.specs.BadLines.{IsDerived, AreGood, IsFirstBad, IsUnrefuting};

use crate::assignment::Assignment;
use crate::checker::{ends_empty, longest};
use crate::distinct::are_named_once;
use crate::fault::RefutationError;
use crate::flags::Flags;
use crate::known::known_count;
use crate::line::line_fault;
use crate::log::{Line, Log};
use prv_cnf::Cnf;
use std::alloc::Global;

/// Tests a log that is to refute a formula as a proof: each line follows from the formula and the lines
/// before it and names no clause twice among its hints, and the last line is empty. Else it tells the
/// first line that isn't so, or that each is and the last isn't empty.
///
/// It takes the time of all literals of the lines and of the clauses that their hints name, up to the
/// first bad line, and the memory of a few bytes for each variable, for each clause and line, and for
/// each number of the longest line.
pub fn check_refutation(alloc: Global, cnf: &Cnf, log: &Log) -> Result<(), RefutationError>
    requires { length log.now < 2 ^ 32 }
    ensures accepted { OnOk result (IsAccepted cnf.now log.now) }
    ensures distinct { OnOk result (HasDistinctHints log.now) }
    ensures cause { IfErr result (IsUnrefuting cnf.now log.now) }
{
    let lines = log.lines();
    let mut assignment = Assignment::new(alloc, cnf.vars(), longest(lines))?;
    let mut named = Flags::new(alloc, known_count(cnf, lines))?;
    if let Some(line) = first_underived(cnf, lines, &mut assignment, &mut named) {
        return Err(RefutationError::BadLine { line: line as u32 });
    }
    if !ends_empty(lines) {
        return Err(RefutationError::NoEmpty);
    }
    Ok(())
}

/// The place of the first line that doesn't follow or names a clause twice.
fn first_underived(
    cnf: &Cnf,
    lines: &[Line],
    assignment: &mut Assignment,
    named: &mut Flags,
) -> Option<usize>
    requires clean { assignment.old.trail ≡ [] }
    requires formula { assignment.old.vars ≡ cnf.now.vars }
    requires room { All (λ s. length s.clause + length s.hints ≤ assignment.old.room) lines.now }
    requires table { length (known cnf.now lines.now) ≤ length named.old }
    ensures none { IfNone result (AreGood (IsDerived cnf.now) lines.now (length lines.now)) }
    ensures bad { IfSome result (IsFirstBad (IsDerived cnf.now) lines.now) }
    ensures inside { IfSome result (λ k. k < length lines.now) }
{
    for at in 0..lines.len() {
        let good = is_derived(cnf, &lines[..at], &lines[at], assignment, named);
        assignment.clear();
        if !good {
            return Some(at);
        }
    }
    None
}

/// Whether a line follows and names no clause twice.
fn is_derived(
    cnf: &Cnf,
    earlier: &[Line],
    line: &Line,
    assignment: &mut Assignment,
    named: &mut Flags,
) -> bool
    requires clean { assignment.old.trail ≡ [] }
    requires formula { assignment.old.vars ≡ cnf.now.vars }
    requires room { length line.now.clause + length line.now.hints ≤ assignment.old.room }
    requires table { length (known cnf.now earlier.now) ≤ length named.old }
    ensures derived { IsTrue result ↔ IsDerived cnf.now earlier.now line.now }
    ensures same { assignment.new ≡ record assignment.old { trail = assignment.new.trail } }
    ensures table { length named.new ≡ length named.old }
{
    if !are_named_once(line.hints(), known_count(cnf, earlier), named) {
        return false;
    }
    line_fault(cnf, earlier, line, assignment).is_none()
}
