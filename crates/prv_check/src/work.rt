//! The test of single lines in room that was made before.
ghost use Rattle.std.specs.Prelude.{◌≡◌, ◌^◌, ◌<◌, ◌≤◌, length, slice_get, None, Some, IfOk, OnOk, IfErr};
ghost use Rattle.std.specs.Option.{ForSome};
ghost use Rattle.prv_check.specs.LogLines.{line_numbers};
ghost use Rattle.prv_check.specs.Lines.{line_fault as fault_of};
ghost use Rattle.prv_check.specs.Logs.{fault_at};

use crate::assignment::Assignment;
use crate::fault::LineWhy;
use crate::line::line_fault;
use crate::log::Log;
use prv_cnf::Cnf;
use std::alloc::{AllocError, Global};
use std::marker::Model;

/// Room to test lines in, made by [`prepare`].
#[derive(Debug, Drop)]
pub struct Work {
    /// The true literals while a line is tested; none between two tests.
    assignment: Assignment,
    /// The most lines that a log may have.
    lines: u32,
    /// The most numbers that a line may have.
    numbers: u32,
}

impl Model for Work {
    ghost use Rattle.std.specs.Prelude.{◌≡◌, ◌≤◌, []};
    ghost use Rattle.prv_check.specs.Preparation.{Preparation};

    ghost Value = { Preparation };

    ghost view = { λ w. record { vars = w.assignment.vars; lines = w.lines; numbers = w.numbers } };

    ghost invariant = { λ w. (w.assignment.trail ≡ []) × (w.numbers ≤ w.assignment.room) };
}

/// Makes room to test lines of a log over the formula's variables: a log of at most so many lines,
/// each of at most so many numbers. The numbers of a line are its literals, its hints and 2.
pub fn prepare(alloc: Global, cnf: &Cnf, lines: u32, numbers: u32) -> Result<Work, AllocError>
    ensures { IfOk result (λ w. w ≡ record { vars = cnf.now.vars; lines = lines; numbers = numbers }) }
{
    let assignment = Assignment::new(alloc, cnf.vars(), numbers as usize)?;
    Ok(Work {
        assignment,
        lines,
        numbers,
    })
}

/// Tests one line of a log, from 0: whether it follows from the formula and the lines before it, and
/// else the first test that it fails. It takes no memory, and the time of the line's literals and of
/// those that its hints name. The lines before it are taken as they are. A literal of theirs that is
/// of no variable takes the time of the trail.
pub fn check_line(cnf: &Cnf, log: &Log, line: u32, work: &mut Work) -> Result<(), LineWhy>
    requires below { line < length log.now }
    requires formula { work.old.vars ≡ cnf.now.vars }
    requires lines { length log.now ≤ work.old.lines }
    requires numbers { ForSome (slice_get log.now line) (λ s. line_numbers s ≤ work.old.numbers) }
    ensures follows { OnOk result (fault_at (fault_of cnf.now) log.now line ≡ None) }
    ensures fault { IfErr result (λ why. fault_at (fault_of cnf.now) log.now line ≡ Some why) }
    ensures work { work.new ≡ work.old }
{
    let at = line as usize;
    let lines = log.lines();
    let why = line_fault(cnf, &lines[..at], &lines[at], &mut work.assignment);
    work.assignment.clear();
    match why {
        None => Ok(()),
        Some(why) => Err(why),
    }
}
