//! The solver: it searches to the next conflict, learns a clause from it, jumps back, and goes on, until
//! it has a model, a refutation, or no budget.
ghost use Rattle.std.specs.Prelude.{◌≡◌, ℕ, ◌+◌, ◌^◌, ◌<◌, ◌≤◌, ◌*◌, ◌++◌, ◌∷◌, [], length, replicate, slice_index_or, Some, IfOk, IfSome, OnOk, MatchOption};
ghost use Rattle.prv_check.specs.LogLines.{line_numbers};
ghost use Rattle.prv_check.specs.Spending.{AreLearnt, log_numbers};
ghost use Rattle.prv_propagate.specs.Loading.{IsLoaded};
ghost use Rattle.prv_check.specs.Lines.{known};
ghost use Rattle.prv_sat.specs.Conclusions.{IsEnd, IsLearntClause};
ghost use Rattle.prv_sat.specs.States.{IsState, IsReady, IsWorking};
ghost use Rattle.prv_sat.specs.Findings.{IsFound, IsAmple, IsDecided};

use crate::found::Found;
use crate::jumps::{adopt, restart};
use crate::learn::{Conclusion, learn};
use crate::marks::Marks;
use crate::order::Order;
use crate::restart::Restarts;
use crate::search::{Outcome, State, search};
use prv_check::{Line, Log};
use prv_cnf::{Clause, Cnf, Lit};
use prv_propagate::{Trail, Watches, load};
use std::alloc::{AllocError, Global};
use std::mem;

/// Solves a formula with a budget of lines and of numbers: values that satisfy it, or a log that
/// refutes it, or a log on which the budget was spent. The same formula and budget always give the
/// same answer.
pub fn solve(alloc: Global, cnf: &Cnf, lines: u32, numbers: u32) -> Result<Found, AllocError>
    requires some { 0 < lines }
    requires few { length cnf.now.clauses + lines < 2 ^ 32 }
    ensures found { IfOk result (IsFound cnf.now lines numbers) }
    ensures ample { IfOk result (λ found. IsAmple cnf.now lines numbers → IsDecided found) }
{
    let found = solve_from(alloc, cnf, lines, numbers, 0)?;
    Ok(found)
}

/// Solves a formula as [`solve`] does, and is told that the first `inputs` variables are inputs:
/// where few of them are free, they are decided first. That changes no promise.
pub fn solve_from(
    alloc: Global,
    cnf: &Cnf,
    lines: u32,
    numbers: u32,
    inputs: u32,
) -> Result<Found, AllocError>
    requires some { 0 < lines }
    requires few { length cnf.now.clauses + lines < 2 ^ 32 }
    ensures found { IfOk result (IsFound cnf.now lines numbers) }
    ensures ample { IfOk result (λ found. IsAmple cnf.now lines numbers → IsDecided found) }
{
    let found = answer(alloc, cnf, lines, numbers, inputs)?;
    Ok(found)
}

/// Answers at once where the formula has a clause without literals, and else runs the solver.
fn answer(
    alloc: Global,
    cnf: &Cnf,
    lines: u32,
    numbers: u32,
    inputs: u32,
) -> Result<Found, AllocError>
    requires some { 0 < lines }
    requires few { length cnf.now.clauses + lines < 2 ^ 32 }
    ensures { IfOk result (IsFound cnf.now lines numbers) }
{
    match first_empty(cnf) {
        Some(number) => {
            let found = refute_by(alloc, cnf, number)?;
            Ok(found)
        }
        None => {
            let found = run(alloc, cnf, lines, numbers, inputs)?;
            Ok(found)
        }
    }
}

/// Loads the formula, and learns a line from each conflict until something is found.
fn run(alloc: Global, cnf: &Cnf, lines: u32, numbers: u32, inputs: u32) -> Result<Found, AllocError>
    requires some { 0 < lines }
    requires few { length cnf.now.clauses + lines < 2 ^ 32 }
    ensures { IfOk result (IsFound cnf.now lines numbers) }
{
    let mut solver = begin(alloc, cnf, inputs)?;
    if let Some(conflict) = load(cnf, &mut solver.state.watches, &mut solver.state.trail)? {
        let found = refute(alloc, cnf, &mut solver, conflict)?;
        return Ok(found);
    }
    for _ in 0..lines {
        if let Some(found) = advance(alloc, cnf, &mut solver, numbers)? {
            return Ok(found);
        }
    }
    let Solver { state, .. } = solver;
    Ok(Found::Spent {
        log: Log::new(state.lines),
        next: None,
    })
}

/// The number of the first clause without literals, if there is one.
fn first_empty(cnf: &Cnf) -> Option<u32>
    requires { length cnf.now.clauses < 2 ^ 32 }
    ensures inside { IfSome result (λ n. n < length cnf.now.clauses) }
    ensures empty { IfSome result (λ n. slice_index_or cnf.now.clauses n [] ≡ []) }
{
    let clauses = cnf.clauses();
    for number in 0..clauses.len() {
        if clauses[number].lits().is_empty() {
            return Some(number as u32);
        }
    }
    None
}

/// The refutation of a formula by a clause without literals, which is its only hint.
fn refute_by(alloc: Global, cnf: &Cnf, number: u32) -> Result<Found, AllocError>
    requires inside { number < length cnf.now.clauses }
    requires empty { slice_index_or cnf.now.clauses number [] ≡ [] }
    ensures { IfOk result (λ found. (lines numbers : ℕ) → 0 < lines → IsFound cnf.now lines numbers found) }
{
    // The formula is named by the clauses alone.
    let _ = cnf;
    let line = empty_line(alloc, number)?;
    let log = log_of(alloc, line)?;
    Ok(Found::Refuted(log))
}

/// The line without literals that has this hint alone.
fn empty_line(alloc: Global, hint: u32) -> Result<Line, AllocError>
    ensures { IfOk result (λ line. line ≡ record { clause = []; hints = hint ∷ [] }) }
{
    let mut hints = Vec::new(alloc);
    hints.push(hint)?;
    let clause = Clause::new(alloc, &[])?;
    Ok(Line::new(clause, hints))
}

/// The log of this line alone.
fn log_of(alloc: Global, line: Line) -> Result<Log, AllocError>
    ensures { IfOk result (λ log. log ≡ line ∷ []) }
{
    let mut lines = Vec::new(alloc);
    lines.push(line)?;
    Ok(Log::new(lines))
}

/// All that the solver keeps.
#[derive(Drop)]
struct Solver {
    /// The trail, the watches and the lines.
    state: State,
    /// The literals that a conflict rests on; none between two conflicts.
    marks: Marks,
    /// Scratch of the minimization.
    places: Vec<u32>,
    /// Which literal is decided next.
    order: Order,
    /// How long until the next restart.
    restarts: Restarts,
    /// How many numbers the lines have.
    used: u64,
}

/// The solver of a formula of which no clause was loaded.
fn begin(alloc: Global, cnf: &Cnf, inputs: u32) -> Result<Solver, AllocError>
    ensures trail { IfOk result (λ s. s.state.trail ≡ record { vars = cnf.now.vars; steps = [] }) }
    ensures watches { IfOk result (λ s. s.state.watches ≡ record { pairs = []; lists = replicate (2 * cnf.now.vars + 1) [] }) }
    ensures lines { IfOk result (λ s. s.state.lines.items ≡ []) }
    ensures done { IfOk result (λ s. s.state.done ≡ 0) }
    ensures marks { IfOk result (λ s. s.marks ≡ record { vars = cnf.now.vars; marked = [] }) }
    ensures used { IfOk result (λ s. s.used ≡ 0) }
{
    let vars = cnf.vars();
    Ok(Solver {
        state: State {
            trail: Trail::new(alloc, vars)?,
            watches: Watches::new(alloc, vars)?,
            lines: Vec::new(alloc),
            done: 0,
        },
        marks: Marks::new(alloc, vars)?,
        places: Vec::new(alloc),
        order: Order::new(alloc, cnf, inputs)?,
        restarts: Restarts::new(),
        used: 0,
    })
}

/// The refutation of a formula by a conflict before anything was decided.
fn refute(alloc: Global, cnf: &Cnf, solver: &mut Solver, conflict: u32) -> Result<Found, AllocError>
    requires loaded { IsLoaded (known cnf.now solver.old.state.lines.items) solver.old.state.trail solver.old.state.watches (Some conflict) }
    requires lines { solver.old.state.lines.items ≡ [] }
    requires formula { solver.old.state.trail.vars ≡ cnf.now.vars }
    requires unmarked { solver.old.marks.marked ≡ [] }
    requires vars { solver.old.marks.vars ≡ solver.old.state.trail.vars }
    ensures { IfOk result (λ found. (lines numbers : ℕ) → 0 < lines → IsFound cnf.now lines numbers found) }
{
    let conclusion = learn(
        alloc,
        cnf,
        solver.state.lines.as_slice(),
        &solver.state.trail,
        conflict,
        &mut solver.marks,
        &mut solver.places,
    )?;
    match conclusion {
        Conclusion::Refuted(line) => {
            let found = refuted(alloc, cnf, &mut solver.state, line)?;
            Ok(found)
        }
        Conclusion::Learnt { .. } => unreachable!(),
    }
}

/// Searches for the next conflict and learns from it. It answers what was found, or has a line more.
fn advance(
    alloc: Global,
    cnf: &Cnf,
    solver: &mut Solver,
    numbers: u32,
) -> Result<Option<Found>, AllocError>
    requires working { IsWorking cnf.now solver.old.state.lines.items solver.old.state.trail solver.old.state.watches solver.old.state.done solver.old.marks solver.old.used numbers }
    requires few { length (known cnf.now solver.old.state.lines.items) + 1 < 2 ^ 32 }
    ensures working { IfOk result (λ found. MatchOption found (IsWorking cnf.now solver.new.state.lines.items solver.new.state.trail solver.new.state.watches solver.new.state.done solver.new.marks solver.new.used numbers × (length solver.new.state.lines.items ≡ length solver.old.state.lines.items + 1)) (λ answer. (lines : ℕ) → length solver.old.state.lines.items < lines → IsFound cnf.now lines numbers answer)) }
{
    let conflict = match search(alloc, cnf, &mut solver.state, &mut solver.order)? {
        Outcome::Values(values) => return Ok(Some(Found::Values(values))),
        Outcome::Conflict(conflict) => conflict,
    };
    let conclusion = learn(
        alloc,
        cnf,
        solver.state.lines.as_slice(),
        &solver.state.trail,
        conflict,
        &mut solver.marks,
        &mut solver.places,
    )?;
    solver.order.bump_all(solver.marks.touched());
    solver.marks.clear();
    match conclusion {
        Conclusion::Refuted(line) => {
            let found = refuted(alloc, cnf, &mut solver.state, line)?;
            Ok(Some(found))
        }
        Conclusion::Learnt { line, lit, keep } => {
            let found = take_up(alloc, cnf, solver, line, lit, keep, numbers)?;
            Ok(found)
        }
    }
}

/// Adds a line that was learnt, or answers that the numbers are spent.
fn take_up(
    alloc: Global,
    cnf: &Cnf,
    solver: &mut Solver,
    line: Line,
    lit: Lit,
    keep: usize,
    numbers: u32,
) -> Result<Option<Found>, AllocError>
    requires state { IsState cnf.now solver.old.state.lines.items solver.old.state.trail solver.old.state.watches }
    requires clause { IsLearntClause cnf.now solver.old.state.lines.items solver.old.state.trail.steps line lit keep }
    requires learnt { AreLearnt cnf.now solver.old.state.lines.items }
    requires counted { solver.old.used ≡ log_numbers solver.old.state.lines.items }
    requires budget { solver.old.used ≤ numbers }
    requires unmarked { solver.old.marks.marked ≡ [] }
    requires vars { solver.old.marks.vars ≡ cnf.now.vars }
    requires few { length (known cnf.now solver.old.state.lines.items) + 1 < 2 ^ 32 }
    ensures working { IfOk result (λ found. MatchOption found (IsWorking cnf.now solver.new.state.lines.items solver.new.state.trail solver.new.state.watches solver.new.state.done solver.new.marks solver.new.used numbers × (length solver.new.state.lines.items ≡ length solver.old.state.lines.items + 1)) (λ answer. (lines : ℕ) → length solver.old.state.lines.items < lines → IsFound cnf.now lines numbers answer)) }
{
    let more = solver.used + line.numbers();
    if more > u64::from(numbers) {
        let log = Log::new(mem::replace(&mut solver.state.lines, Vec::new(alloc)));
        return Ok(Some(Found::Spent {
            log,
            next: Some(line),
        }));
    }
    adopt(cnf, &mut solver.state, &mut solver.order, line, lit, keep)?;
    solver.used = more;
    restart_if_due(
        cnf,
        &mut solver.state,
        &mut solver.order,
        &mut solver.restarts,
    )?;
    Ok(None)
}

/// Counts a conflict, and takes back all decisions where it is time.
fn restart_if_due(
    cnf: &Cnf,
    state: &mut State,
    order: &mut Order,
    restarts: &mut Restarts,
) -> Result<(), AllocError>
    requires { IsReady cnf.now state.old.lines.items state.old.trail state.old.watches state.old.done }
    ensures ready { OnOk result (IsReady cnf.now state.new.lines.items state.new.trail state.new.watches state.new.done) }
    ensures lines { OnOk result (state.new.lines.items ≡ state.old.lines.items) }
{
    if !restarts.count() {
        return Ok(());
    }
    restart(cnf, state, order)?;
    Ok(())
}

/// The lines with the empty line.
fn refuted(alloc: Global, cnf: &Cnf, state: &mut State, line: Line) -> Result<Found, AllocError>
    requires learnt { AreLearnt cnf.now state.old.lines.items }
    requires end { IsEnd cnf.now state.old.lines.items line }
    ensures { IfOk result (λ found. (lines numbers : ℕ) → length state.old.lines.items < lines → log_numbers state.old.lines.items ≤ numbers → IsFound cnf.now lines numbers found) }
{
    // The formula is named by the clauses alone.
    let _ = cnf;
    let mut lines = mem::replace(&mut state.lines, Vec::new(alloc));
    lines.push(line)?;
    Ok(Found::Refuted(Log::new(lines)))
}
