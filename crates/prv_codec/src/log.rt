//! Logs: the count of lines, and for each line its literals and its hints.
ghost use Rattle.std.specs.Prelude.{◌≡◌, ◌<◌, ◌^◌, ◌++◌, length, OnOk, IfOk};
ghost use Rattle.std.specs.List.{All};
ghost use Rattle.prv_codec.specs.Spelling.{line as line_of, log as log_of, IsLine, IsLog, IsSized, AreSized};
ghost use Rattle.prv_codec.specs.Reading.{Gives, items_at, line_at as line_at_of, log_at as log_at_of};

use crate::error::ReadError;
use crate::form::Form;
use crate::list::{literals_at, numbers_at, put_literals, put_numbers};
use crate::number::{number_at, put_number};
use prv_check::{Line, Log};
use prv_cnf::Clause;
use std::alloc::{AllocError, Global};

/// Adds a line at the end.
pub fn put_line(out: &mut Vec<u8>, form: Form, line: &Line) -> Result<(), AllocError>
    requires { IsSized line.now }
    ensures added { OnOk result (out.new.items ≡ out.old.items ++ line_of form line.now) }
    // What was added has a spelling, so it is read again.
    ensures fits { OnOk result (IsLine line.now) }
{
    put_literals(out, form, line.clause().lits())?;
    put_numbers(out, form, line.hints())
}

/// Adds a log at the end.
pub fn put_log(out: &mut Vec<u8>, form: Form, log: &Log) -> Result<(), AllocError>
    requires { AreSized log.now }
    ensures added { OnOk result (out.new.items ≡ out.old.items ++ log_of form log.now) }
    ensures fits { OnOk result (IsLog log.now) }
{
    let lines = log.lines();
    put_number(out, form, lines.len() as u32)?;
    for line in lines {
        put_line(out, form, line)?;
    }
    Ok(())
}

/// The line at the front, and the bytes behind it. It need not follow from anything.
#[tactic(auto, unfolding(crate::specs::Reading::line_at))]
pub fn line_at(alloc: Global, form: Form, bytes: &[u8]) -> Result<(Line, &[u8]), ReadError>
    ensures { Gives (λ x. (x.0, x.1.now)) result (line_at_of form bytes.now) }
{
    let (lits, rest) = literals_at(alloc, form, bytes)?;
    let (hints, rest) = numbers_at(alloc, form, rest)?;
    let clause = Clause::new(alloc, lits.as_slice())?;
    Ok((Line::new(clause, hints), rest))
}

/// The log at the front, and the bytes behind it.
#[tactic(auto, unfolding(crate::specs::Reading::counted_at))]
pub fn log_at(alloc: Global, form: Form, bytes: &[u8]) -> Result<(Log, &[u8]), ReadError>
    ensures few { IfOk result (λ x. length x.0 < 2 ^ 32) }
    ensures gives { Gives (λ x. (x.0, x.1.now)) result (log_at_of form bytes.now) }
{
    let (count, rest) = number_at(form, bytes)?;
    let (lines, rest) = lines_at(alloc, form, count, rest)?;
    Ok((Log::new(lines), rest))
}

/// So many lines at the front, and the bytes behind them.
fn lines_at(
    alloc: Global,
    form: Form,
    count: u32,
    bytes: &[u8],
) -> Result<(Vec<Line>, &[u8]), ReadError>
    ensures { Gives (λ x. (x.0.items, x.1.now)) result (items_at (line_at_of form) count bytes.now) }
{
    let mut lines = Vec::new(alloc);
    let mut rest = bytes;
    for _ in 0..count {
        let (item, after) = line_at(alloc, form, rest)?;
        lines.push(item)?;
        rest = after;
    }
    Ok((lines, rest))
}
