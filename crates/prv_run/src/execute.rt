//! What a statement does to a run: the interpreter, one function a kind of statement that does something.
//!
//! It runs the tree as it stands, so that each function's contract is the statement's meaning at a frame.
//! Whether the run is recorded makes no difference to it: it hands each evaluation to a recorder, which
//! keeps it or doesn't. A statement's number is known only where it is recorded.
ghost use Rattle.std.specs.Prelude.{◌≡◌, ◌≤◌, ◌<◌, [], ◌∷◌, true, length, map, IfOk, OnOk, if◌then◌else◌};
ghost use Rattle.prv_model.specs.Words.{is_zero};
ghost use Rattle.prv_model.specs.Expressions.{value as value_of};
ghost use Rattle.std.specs.Option.{option_map};
ghost use Rattle.prv_model.specs.Numbers.{inside, statements, statements_all, branch_inside};
ghost use Rattle.prv_model.specs.Programs.{stmt_over, all_true, passed};
ghost use Rattle.prv_model.specs.Statements.{exec, exec_all, loop, otherwise, with_value, goes, ends, assign as assign_to, put};
ghost use Rattle.prv_run.specs.Frames.{frame_of, step_of};
ghost use Rattle.prv_run.specs.Runs.{runs, runs_all, otherwise_run, event, events};
ghost use Rattle.prv_run.specs.Telling.{tell, Knows};

use crate::event::What;
use crate::record::Recorder;
use prv_model::{Ending, Expr, Stmt};
use sqlite_items::{Boxed, Items};
use std::alloc::AllocError;

/// Where a run stands.
#[derive(Drop)]
pub struct Frame {
    /// The word of each variable.
    pub state: Items<i32>,
    /// What was put out so far.
    pub outs: Items<i32>,
    /// The turns of loops that are left to the whole run.
    pub turns: u32,
}

/// Runs the statement with this number from a frame, and answers how it ended the run, if it did.
///
/// The number is of no account where nothing is recorded.
#[cycle(execute)]
pub fn execute(
    stmt: &Stmt,
    number: u32,
    frame: &mut Frame,
    recorder: &mut Recorder,
) -> Result<Option<Ending>, AllocError>
    requires over { stmt_over (length frame.old.state) stmt.now ≡ true }
    requires known { Knows recorder.old number (statements stmt.now) }
    ensures done { IfOk result (λ ending. exec stmt.now (frame_of frame.old) ≡ step_of frame.new ending) }
    ensures told { OnOk result (recorder.new ≡ tell recorder.old (events (runs stmt.now number (frame_of frame.old)))) }
    ensures spent { frame.new.turns ≤ frame.old.turns }
    ensures variables { length frame.new.state ≡ length frame.old.state }
{
    match stmt {
        Stmt::Skip => Ok(None),
        Stmt::Set { var, value } => assign(*var, value, number, frame, recorder),
        Stmt::If { test, yes, no } => {
            let found = recorder.evaluate(number, What::Test, test, frame.state.as_slice())?;
            let first = recorder.inside(number);
            match found {
                None => Ok(Some(Ending::Fault)),
                Some(n) => {
                    if n != 0 {
                        let ending = execute(yes.get(), first, frame, recorder)?;
                        Ok(ending)
                    } else {
                        let second = recorder.behind(first);
                        let ending = execute_else(no, second, frame, recorder)?;
                        Ok(ending)
                    }
                }
            }
        }
        Stmt::While { test, body } => repeat(body.get(), test, number, frame, recorder),
        Stmt::Return(value) => {
            let ending = put_out(value, number, What::Return, frame, recorder)?;
            Ok(ending.or(Some(Ending::Returned)))
        }
        Stmt::Out(value) => {
            let ending = put_out(value, number, What::Out, frame, recorder)?;
            Ok(ending)
        }
        Stmt::Assert(value) => check(value, number, frame, recorder),
        Stmt::Block(all) => {
            let ending = execute_all(all.as_slice(), recorder.inside(number), frame, recorder)?;
            Ok(ending)
        }
        Stmt::Marked { mark: _, body } => {
            let ending = execute(body.get(), recorder.inside(number), frame, recorder)?;
            Ok(ending)
        }
    }
}

/// Runs the branch of an `else`, which has this number, if there is one.
#[cycle(execute)]
fn execute_else(
    branch: &Option<Boxed<Stmt>>,
    number: u32,
    frame: &mut Frame,
    recorder: &mut Recorder,
) -> Result<Option<Ending>, AllocError>
    requires over { passed (option_map (λ s. stmt_over (length frame.old.state) s) branch.now) ≡ true }
    requires known { Knows recorder.old number (branch_inside (option_map (λ s. (s, inside s)) branch.now)) }
    ensures done { IfOk result (λ ending. otherwise (option_map (λ s. exec s) branch.now) (frame_of frame.old) ≡ step_of frame.new ending) }
    ensures told { OnOk result (recorder.new ≡ tell recorder.old (events (otherwise_run (option_map (λ s. (s, runs s)) branch.now) number (frame_of frame.old)))) }
    ensures spent { frame.new.turns ≤ frame.old.turns }
    ensures variables { length frame.new.state ≡ length frame.old.state }
{
    match branch {
        None => Ok(None),
        Some(stmt) => {
            let ending = execute(stmt.get(), number, frame, recorder)?;
            Ok(ending)
        }
    }
}

/// Runs statements one after another, the first with this number, until one ends the run.
#[cycle(execute)]
pub fn execute_all(
    all: &[Stmt],
    number: u32,
    frame: &mut Frame,
    recorder: &mut Recorder,
) -> Result<Option<Ending>, AllocError>
    requires over { all_true (map (λ s. stmt_over (length frame.old.state) s) all.now) ≡ true }
    requires known { Knows recorder.old number (statements_all all.now) }
    ensures done { IfOk result (λ ending. exec_all all.now (frame_of frame.old) ≡ step_of frame.new ending) }
    ensures told { OnOk result (recorder.new ≡ tell recorder.old (events (runs_all all.now number (frame_of frame.old)))) }
    ensures spent { frame.new.turns ≤ frame.old.turns }
    ensures variables { length frame.new.state ≡ length frame.old.state }
{
    let mut next = number;
    for stmt in all {
        let ending = execute(stmt, next, frame, recorder)?;
        if ending.is_some() {
            return Ok(ending);
        }
        next = recorder.behind(next);
    }
    Ok(None)
}

/// Runs a loop.
#[cycle(execute)]
fn repeat(
    body: &Stmt,
    test: &Expr,
    number: u32,
    frame: &mut Frame,
    recorder: &mut Recorder,
) -> Result<Option<Ending>, AllocError>
    requires over { stmt_over (length frame.old.state) body.now ≡ true }
    requires known { Knows recorder.old number (statements (Stmt.While test.now body.now)) }
    ensures done { IfOk result (λ ending.
        loop test.now (λ f. exec body.now f) frame.old.turns (frame_of frame.old) ≡ step_of frame.new ending) }
    ensures told { OnOk result (recorder.new ≡ tell recorder.old (events (runs (Stmt.While test.now body.now) number (frame_of frame.old)))) }
    ensures spent { frame.new.turns ≤ frame.old.turns }
    ensures variables { length frame.new.state ≡ length frame.old.state }
{
    let first = recorder.inside(number);
    loop {
        let found = recorder.evaluate(number, What::Test, test, frame.state.as_slice())?;
        match found {
            None => return Ok(Some(Ending::Fault)),
            Some(n) => {
                if n == 0 {
                    return Ok(None);
                }
            }
        }
        if frame.turns == 0 {
            return Ok(Some(Ending::Long));
        }
        frame.turns -= 1;
        let ending = execute(body, first, frame, recorder)?;
        if ending.is_some() {
            return Ok(ending);
        }
    }
}

/// Gives a variable the value of an expression.
#[tactic(auto, using(crate::proofs::RunLaws::run_laws))]
fn assign(
    var: u8,
    value: &Expr,
    number: u32,
    frame: &mut Frame,
    recorder: &mut Recorder,
) -> Result<Option<Ending>, AllocError>
    requires { var < length frame.old.state }
    ensures done { IfOk result (λ ending. with_value value.now (frame_of frame.old) (λ n. goes (assign_to (frame_of frame.old) var n)) ≡ step_of frame.new ending) }
    ensures told { OnOk result (recorder.new ≡ tell recorder.old (events (runs (Stmt.Set var value.now) number (frame_of frame.old)))) }
    ensures spent { frame.new.turns ≡ frame.old.turns }
    ensures variables { length frame.new.state ≡ length frame.old.state }
{
    let found = recorder.evaluate(number, What::Set, value, frame.state.as_slice())?;
    match found {
        None => Ok(Some(Ending::Fault)),
        Some(n) => {
            frame.state.set(var as usize, n);
            Ok(None)
        }
    }
}

/// Puts the value of an expression out.
fn put_out(
    value: &Expr,
    number: u32,
    what: What,
    frame: &mut Frame,
    recorder: &mut Recorder,
) -> Result<Option<Ending>, AllocError>
    ensures done { IfOk result (λ ending. with_value value.now (frame_of frame.old) (λ n. goes (put (frame_of frame.old) n)) ≡ step_of frame.new ending) }
    ensures told { OnOk result (recorder.new ≡ tell recorder.old (event number what (value_of value.now frame.old.state) ∷ [])) }
    ensures spent { frame.new.turns ≡ frame.old.turns }
    ensures variables { frame.new.state ≡ frame.old.state }
{
    let found = recorder.evaluate(number, what, value, frame.state.as_slice())?;
    match found {
        None => Ok(Some(Ending::Fault)),
        Some(n) => {
            frame.outs.push(n)?;
            Ok(None)
        }
    }
}

/// Whether an assertion ends the run.
#[tactic(auto, using(crate::proofs::RunLaws::run_laws))]
fn check(
    value: &Expr,
    number: u32,
    frame: &Frame,
    recorder: &mut Recorder,
) -> Result<Option<Ending>, AllocError>
    ensures done { IfOk result (λ ending. with_value value.now (frame_of frame.now) (λ n. if is_zero n then ends (frame_of frame.now) Ending.Assert else goes (frame_of frame.now)) ≡ step_of frame.now ending) }
    ensures told { OnOk result (recorder.new ≡ tell recorder.old (events (runs (Stmt.Assert value.now) number (frame_of frame.now)))) }
{
    let found = recorder.evaluate(number, What::Assert, value, frame.state.as_slice())?;
    match found {
        None => Ok(Some(Ending::Fault)),
        Some(n) => Ok(if n == 0 { Some(Ending::Assert) } else { None }),
    }
}
