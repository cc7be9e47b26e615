//! The test that each line of a log follows and adds something.
ghost use Rattle.std.specs.Prelude.{◌≡◌, ◌+◌, ◌*◌, ◌^◌, ◌<◌, ◌≤◌, [], ◌++◌, ◌∷◌, length, IsTrue, IfOk, IfErr, OnOk};
ghost use Rattle.std.specs.List.{All, list_all};
ghost use Rattle.prv_check.specs.Lines.{known, is_within, line_fault as fault_of};
ghost use Rattle.prv_check.specs.Logs.{IsFaultless, IsFirstFault, IsCause};
ghost use Rattle.prv_cnf.specs.Places.{place_of};
ghost use Rattle.prv_check.specs.Inner.Tables.{AreFlagged, IsTableOf};
ghost use Rattle.prv_check.specs.Inner.Indexing.{IsIndex};
ghost use Rattle.prv_check.specs.Freshness.{is_new, fresh_fault, AreFresh};

use crate::assignment::Assignment;
use crate::checker::longest;
use crate::containment::{contains_indexed, index_of};
use crate::fault::{CheckError, LineWhy};
use crate::flags::Flags;
use crate::index::Index;
use crate::known::known_count;
use crate::lean::is_lean;
use crate::line::line_fault;
use crate::log::{Line, Log};
use crate::tables::flag_all;
use prv_cnf::{Cnf, Lit};
use std::alloc::{AllocError, Global};

/// Tests that each line of a log follows and is fresh: it isn't empty, contains no clause of the
/// formula and no earlier line, and uses each of its literals and of its hints. Else the first bad
/// line is told with the first test that it fails: those of [`check`](crate::check), then
/// [`LineWhy::Contains`], then [`LineWhy::Loose`]. The last line needn't be empty.
///
/// Beside the time and memory of `check` it keeps each line, and each clause of the formula whose
/// literals all occur in lines, in a list under one of its literals. For a line it looks through the
/// lists of the line's literals.
pub fn check_fresh(alloc: Global, cnf: &Cnf, log: &Log) -> Result<(), CheckError>
    requires { length log.now < 2 ^ 32 }
    ensures follow { OnOk result (IsFaultless (fault_of cnf.now) log.now) }
    ensures fresh { OnOk result (AreFresh cnf.now log.now) }
    ensures cause { IfErr result (IsCause (IsFirstFault (fresh_fault cnf.now) log.now)) }
{
    let lines = log.lines();
    let mut assignment = Assignment::new(alloc, cnf.vars(), longest(lines))?;
    let mut seen = Flags::new(alloc, 2 * cnf.vars() as usize + 1)?;
    let occurs = occurring(alloc, cnf, lines)?;
    let mut index = index_of(alloc, cnf, occurs)?;
    fresh_lines(cnf, lines, &mut index, &mut assignment, &mut seen)?;
    Ok(())
}

/// The table of the literals that occur in the lines, of those of the formula's variables.
pub fn occurring(alloc: Global, cnf: &Cnf, lines: &[Line]) -> Result<Flags, AllocError>
    ensures size { IfOk result (λ t. length t ≡ 2 * cnf.now.vars + 1) }
    ensures flagged { IfOk result (λ t. All (λ s. AreFlagged t s.clause) lines.now) }
{
    let mut occurs = Flags::new(alloc, 2 * cnf.vars() as usize + 1)?;
    for line in lines {
        flag_all(&mut occurs, line.clause().lits());
    }
    Ok(occurs)
}

/// Tests each line, up to the first that has a fault, and adds each to the index.
fn fresh_lines(
    cnf: &Cnf,
    lines: &[Line],
    index: &mut Index,
    assignment: &mut Assignment,
    seen: &mut Flags,
) -> Result<(), CheckError>
    requires short { length lines.now < 2 ^ 32 }
    requires index { IsIndex (known cnf.now []) index.old }
    requires places { length index.old.occurs ≡ 2 * cnf.now.vars + 1 }
    requires occur { All (λ s. AreFlagged index.old.occurs s.clause) lines.now }
    requires clean { assignment.old.trail ≡ [] }
    requires formula { assignment.old.vars ≡ cnf.now.vars }
    requires room { All (λ s. length s.clause + length s.hints ≤ assignment.old.room) lines.now }
    requires table { length seen.old ≡ 2 * cnf.now.vars + 1 }
    ensures ok { OnOk result (IsFaultless (fresh_fault cnf.now) lines.now) }
    ensures err { IfErr result (IsCause (IsFirstFault (fresh_fault cnf.now) lines.now)) }
{
    for at in 0..lines.len() {
        let why = fresh_fault(cnf, &lines[..at], &lines[at], index, assignment, seen);
        assignment.clear();
        if let Some(why) = why {
            return Err(CheckError::Refused {
                line: at as u32,
                why,
            });
        }
        index_line(cnf, &lines[..at], &lines[at], index)?;
    }
    Ok(())
}

/// Adds a line to the index of those before it.
pub fn index_line(
    cnf: &Cnf,
    earlier: &[Line],
    line: &Line,
    index: &mut Index,
) -> Result<(), AllocError>
    requires { IsIndex (known cnf.now earlier.now) index.old }
    ensures index { OnOk result (IsIndex (known cnf.now (earlier.now ++ line.now ∷ [])) index.new) }
    ensures occurs { OnOk result (index.new.occurs ≡ index.old.occurs) }
{
    index.add(line.clause().lits(), known_count(cnf, earlier))?;
    Ok(())
}

/// The first test that a line fails which is to follow and to be fresh.
pub fn fresh_fault(
    cnf: &Cnf,
    earlier: &[Line],
    line: &Line,
    index: &Index,
    assignment: &mut Assignment,
    seen: &mut Flags,
) -> Option<LineWhy>
    requires index { IsIndex (known cnf.now earlier.now) index.now }
    requires places { length index.now.occurs ≡ 2 * cnf.now.vars + 1 }
    requires occur { AreFlagged index.now.occurs line.now.clause }
    requires clean { assignment.old.trail ≡ [] }
    requires formula { assignment.old.vars ≡ cnf.now.vars }
    requires room { length line.now.clause + length line.now.hints ≤ assignment.old.room }
    requires table { length seen.old ≡ 2 * cnf.now.vars + 1 }
    ensures fault { result ≡ fresh_fault cnf.now earlier.now line.now }
    ensures assignment { assignment.new ≡ record assignment.old { trail = assignment.new.trail } }
    ensures table { length seen.new ≡ length seen.old }
{
    let why = line_fault(cnf, earlier, line, assignment);
    if why.is_some() {
        return why;
    }
    if !is_new(cnf, earlier, line, index, seen) {
        return Some(LineWhy::Contains);
    }
    if !is_lean(cnf, earlier, line, assignment, seen) {
        return Some(LineWhy::Loose);
    }
    None
}

/// Whether a line isn't empty and contains no clause before it.
fn is_new(cnf: &Cnf, earlier: &[Line], line: &Line, index: &Index, seen: &mut Flags) -> bool
    requires index { IsIndex (known cnf.now earlier.now) index.now }
    requires places { length index.now.occurs ≡ 2 * cnf.now.vars + 1 }
    requires occur { AreFlagged index.now.occurs line.now.clause }
    requires within { IsTrue (list_all (is_within cnf.now.vars) line.now.clause) }
    requires table { length seen.old ≡ 2 * cnf.now.vars + 1 }
    ensures new { result ≡ is_new cnf.now earlier.now line.now }
    ensures table { length seen.new ≡ length seen.old }
{
    let lits = line.clause().lits();
    if lits.is_empty() {
        return false;
    }
    show(lits, seen);
    !contains_indexed(cnf, earlier, lits, index, seen)
}

/// Makes the table that of the literals.
pub fn show(lits: &[Lit], seen: &mut Flags)
    requires { All (λ l. place_of l < length seen.old) lits.now }
    ensures shown { IsTableOf seen.new lits.now }
    ensures table { length seen.new ≡ length seen.old }
{
    seen.clear();
    flag_all(seen, lits);
}
