//! The test of a log as a proof that a budget was spent: each line follows, is fresh and names no
//! clause twice, and so does the line that would pass the budget, if there is one. What names a clause
//! twice is refused before it is followed.
ghost use Rattle.std.specs.Prelude.{◌≡◌, ◌+◌, ◌*◌, ◌^◌, ◌<◌, ◌≤◌, ◌↔◌, [], length, IsTrue, IfOk, OnOk, IfErr, IfSome, MatchOption};
ghost use Rattle.std.specs.List.{All};
ghost use Rattle.prv_check.specs.Lines.{known};
ghost use Rattle.prv_check.specs.Spending.{IsLearnt, AreLearnt};
ghost use Rattle.prv_check.specs.Inner.Testing.{AreReady, HaveRoom, HaveSameRoom};
ghost use Rattle.prv_check.specs.BadLines.{AreGood, IsFirstBad, IsUnspent};

use crate::assignment::Assignment;
use crate::checker::{longest, size};
use crate::containment::index_of;
use crate::distinct::are_named_once;
use crate::fault::SpentError;
use crate::flags::Flags;
use crate::fresh::{fresh_fault, index_line, occurring};
use crate::index::Index;
use crate::known::known_count;
use crate::log::{Line, Log};
use crate::tables::flag_all;
use prv_cnf::Cnf;
use std::alloc::{AllocError, Global};

/// Tests a log with a further line, if there is one, as a proof that a budget was spent: each line
/// follows from the formula and the lines before it, is fresh, and names no clause twice among its
/// hints. Else it tells the first line that isn't so; the further line comes last. Whether the budget
/// was reached is not asked here.
///
/// Beside the time and memory of [`check_refutation`](crate::check_refutation) it keeps the index of
/// [`check_fresh`](crate::check_fresh).
pub fn check_spent(
    alloc: Global,
    cnf: &Cnf,
    log: &Log,
    next: &Option<Line>,
) -> Result<(), SpentError>
    requires { length log.now < 2 ^ 32 }
    ensures log { OnOk result (AreLearnt cnf.now log.now) }
    ensures next { OnOk result (IfSome next.now (IsLearnt cnf.now log.now)) }
    ensures cause { IfErr result (IsUnspent cnf.now log.now next.now) }
{
    let lines = log.lines();
    let mut tests = tests_for(alloc, cnf, lines, next)?;
    if let Some(line) = first_unlearnt(cnf, lines, &mut tests)? {
        return Err(SpentError::BadLine { line: line as u32 });
    }
    if !is_next_learnt(cnf, lines, next, &mut tests) {
        return Err(SpentError::BadLine {
            line: lines.len() as u32,
        });
    }
    Ok(())
}

/// What lines are tested with.
#[derive(Drop)]
pub struct Tests {
    /// The clauses so far, by literal.
    pub index: Index,
    /// The literals that are true while a line is followed.
    pub assignment: Assignment,
    /// Flags by literal.
    pub seen: Flags,
    /// Flags by the number of a clause.
    pub named: Flags,
}

/// The tests of a log's lines and a further one, at the first line.
fn tests_for(
    alloc: Global,
    cnf: &Cnf,
    lines: &[Line],
    next: &Option<Line>,
) -> Result<Tests, AllocError>
    ensures ready { IfOk result (AreReady cnf.now []) }
    ensures lines { IfOk result (λ t. All (HaveRoom t) lines.now) }
    ensures next { IfOk result (λ t. IfSome next.now (HaveRoom t)) }
    ensures named { IfOk result (λ t. length (known cnf.now lines.now) ≤ length t.named) }
{
    let mut occurs = occurring(alloc, cnf, lines)?;
    let mut room = longest(lines);
    if let Some(next) = next {
        flag_all(&mut occurs, next.clause().lits());
        room = room.max(size(next));
    }
    Ok(Tests {
        index: index_of(alloc, cnf, occurs)?,
        assignment: Assignment::new(alloc, cnf.vars(), room)?,
        seen: Flags::new(alloc, 2 * cnf.vars() as usize + 1)?,
        named: Flags::new(alloc, known_count(cnf, lines))?,
    })
}

/// The place of the first line that isn't worth its numbers. Where there is none, the tests are at the
/// line after these.
fn first_unlearnt(cnf: &Cnf, lines: &[Line], tests: &mut Tests) -> Result<Option<usize>, AllocError>
    requires ready { AreReady cnf.now [] tests.old }
    requires room { All (HaveRoom tests.old) lines.now }
    requires named { length (known cnf.now lines.now) ≤ length tests.old.named }
    ensures first { IfOk result (λ found. MatchOption found (AreLearnt cnf.now lines.now × AreReady cnf.now lines.now tests.new) (λ k. (k < length lines.now) × IsFirstBad (IsLearnt cnf.now) lines.now k)) }
    ensures same { OnOk result (HaveSameRoom tests.old tests.new) }
{
    for at in 0..lines.len() {
        if !is_learnt(cnf, &lines[..at], &lines[at], tests) {
            return Ok(Some(at));
        }
        index_line(cnf, &lines[..at], &lines[at], &mut tests.index)?;
    }
    Ok(None)
}

/// Whether the further line, if there is one, is worth its numbers.
fn is_next_learnt(cnf: &Cnf, lines: &[Line], next: &Option<Line>, tests: &mut Tests) -> bool
    requires ready { AreReady cnf.now lines.now tests.old }
    requires room { IfSome next.now (HaveRoom tests.old) }
    requires named { length (known cnf.now lines.now) ≤ length tests.old.named }
    ensures { IsTrue result ↔ IfSome next.now (IsLearnt cnf.now lines.now) }
{
    match next {
        None => true,
        Some(next) => is_learnt(cnf, lines, next, tests),
    }
}

/// Whether a line follows, is fresh, and names no clause twice.
fn is_learnt(cnf: &Cnf, earlier: &[Line], line: &Line, tests: &mut Tests) -> bool
    requires ready { AreReady cnf.now earlier.now tests.old }
    requires room { HaveRoom tests.old line.now }
    requires named { length (known cnf.now earlier.now) ≤ length tests.old.named }
    ensures learnt { IsTrue result ↔ IsLearnt cnf.now earlier.now line.now }
    ensures ready { AreReady cnf.now earlier.now tests.new }
    ensures same { HaveSameRoom tests.old tests.new }
{
    if !are_named_once(line.hints(), known_count(cnf, earlier), &mut tests.named) {
        return false;
    }
    let why = fresh_fault(
        cnf,
        earlier,
        line,
        &tests.index,
        &mut tests.assignment,
        &mut tests.seen,
    );
    tests.assignment.clear();
    why.is_none()
}
