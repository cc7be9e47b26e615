//! The test of a whole log.
ghost use Rattle.std.specs.Prelude.{◌≡◌, ◌^◌, ◌+◌, ◌<◌, ◌≤◌, [], length, OnOk, IfErr};
ghost use Rattle.std.specs.List.{All};
ghost use Rattle.prv_cnf.specs.Models.{HasNoModel};
ghost use Rattle.prv_check.specs.Lines.{line_fault as fault_of};
ghost use Rattle.prv_check.specs.Logs.{IsFaultless, IsFirstFault, IsAccepted, IsRefused, IsCause, ends_empty};

use crate::assignment::Assignment;
use crate::fault::{CheckError, LineWhy};
use crate::law::accepted_has_no_model;
use crate::line::line_fault;
use crate::log::{Line, Log};
use prv_cnf::Cnf;
use std::alloc::Global;

/// Tests a log: it is accepted where each line follows from the formula and the lines before it, and
/// the last is the empty clause. Then the formula has no model. Else the first bad line is told with
/// the first test that it fails, or the count of lines with [`LineWhy::NoEmpty`].
///
/// It takes the time of all literals of the lines and of the clauses that their hints name, and the
/// memory of a few bytes for each variable and for each number of the longest line.
pub fn check(alloc: Global, cnf: &Cnf, log: &Log) -> Result<(), CheckError>
    requires { length log.now < 2 ^ 32 }
    ensures accepted { OnOk result (IsAccepted cnf.now log.now) }
    ensures no_model { OnOk result (HasNoModel cnf.now) }
    ensures cause { IfErr result (IsCause (IsRefused cnf.now log.now)) }
{
    let lines = log.lines();
    let mut assignment = Assignment::new(alloc, cnf.vars(), longest(lines))?;
    check_lines(cnf, lines, &mut assignment)?;
    if !ends_empty(lines) {
        return Err(CheckError::Refused {
            line: lines.len() as u32,
            why: LineWhy::NoEmpty,
        });
    }
    accepted_has_no_model();
    Ok(())
}

/// The greatest count of literals and hints that a line has.
pub fn longest(lines: &[Line]) -> usize
    ensures { All (λ s. length s.clause + length s.hints ≤ result) lines.now }
{
    let mut most = 0;
    for line in lines {
        most = most.max(size(line));
    }
    most
}

/// How many literals and hints a line has.
pub fn size(line: &Line) -> usize
    ensures { result ≡ length line.now.clause + length line.now.hints }
{
    line.clause().lits().len() + line.hints().len()
}

/// Tests each line, up to the first that has a fault.
fn check_lines(cnf: &Cnf, lines: &[Line], assignment: &mut Assignment) -> Result<(), CheckError>
    requires short { length lines.now < 2 ^ 32 }
    requires clean { assignment.old.trail ≡ [] }
    requires formula { assignment.old.vars ≡ cnf.now.vars }
    requires room { All (λ s. length s.clause + length s.hints ≤ assignment.old.room) lines.now }
    ensures ok { OnOk result (IsFaultless (fault_of cnf.now) lines.now) }
    ensures err { IfErr result (IsCause (IsFirstFault (fault_of cnf.now) lines.now)) }
{
    for at in 0..lines.len() {
        let why = line_fault(cnf, &lines[..at], &lines[at], assignment);
        assignment.clear();
        if let Some(why) = why {
            return Err(CheckError::Refused {
                line: at as u32,
                why,
            });
        }
    }
    Ok(())
}

/// Whether the last line is the empty clause.
pub fn ends_empty(lines: &[Line]) -> bool
    ensures { result ≡ ends_empty lines.now }
{
    match lines.last() {
        None => false,
        Some(line) => line.clause().lits().is_empty(),
    }
}
