//! Logs: lines that each say which earlier clauses they follow from, in the manner of LRAT (Cruz-Filipe,
//! Heule, Hunt, Kaufmann, Schneider-Kamp, 2017).
ghost use Rattle.std.specs.Prelude.{◌≡◌, ◌<◌, ◌^◌, ◌++◌, ◌∷◌, [], min, OnOk, OnErr};
ghost use Rattle.prv_check.specs.LogLines.{line_numbers};
ghost use Rattle.prv_check.specs.Spending.{log_numbers};

use prv_cnf::Clause;
use std::alloc::AllocError;
use std::marker::Model;

/// A line of a log: a clause, and the numbers of the earlier clauses that it follows from.
///
/// The clauses of the formula are numbered from 0, and the lines of the log go on from there.
#[derive(Debug, Drop)]
pub struct Line {
    /// What follows.
    clause: Clause,
    /// The numbers of the earlier clauses, in the order of their use.
    hints: Vec<u32>,
}

impl Model for Line {
    ghost use Rattle.prv_check.specs.LogLines.{LogLine};

    ghost Value = { LogLine };

    ghost view = { λ s. record { clause = s.clause; hints = s.hints.items } };
}

impl Line {
    /// The line of this clause with these hints, in this order.
    pub fn new(clause: Clause, hints: Vec<u32>) -> Line
        ensures { result ≡ record { clause = clause; hints = hints.items } }
    {
        Line { clause, hints }
    }

    /// The clause.
    pub fn clause(&self) -> &Clause
        ensures { result.now ≡ self.now.clause }
    {
        &self.clause
    }

    /// The numbers of the earlier clauses that the clause follows from, in the order of their use.
    pub fn hints(&self) -> &[u32]
        ensures { result.now ≡ self.now.hints }
    {
        self.hints.as_slice()
    }

    /// How many numbers it takes to write the line down: its literals, its hints, and their two counts.
    pub fn numbers(&self) -> u64
        ensures value { result ≡ line_numbers self.now }
        ensures bound { result < 2 ^ 63 }
    {
        self.clause.lits().len() as u64 + self.hints().len() as u64 + 2
    }

    /// Takes the line apart, without taking memory.
    pub fn into_parts(self) -> (Clause, Vec<u32>)
        ensures clause { result.0 ≡ self.clause }
        ensures hints { result.1.items ≡ self.hints }
    {
        let Line { clause, hints } = self;
        (clause, hints)
    }
}

/// A log: lines that are each to follow from a formula and the lines before.
#[derive(Debug, Drop)]
pub struct Log {
    /// The lines, in order.
    lines: Vec<Line>,
}

impl Model for Log {
    ghost use Rattle.std.specs.Prelude.{List};
    ghost use Rattle.prv_check.specs.LogLines.{LogLine};

    ghost Value = { List LogLine };

    ghost view = { λ l. l.lines.items };
}

impl Log {
    /// The log of these lines.
    pub fn new(lines: Vec<Line>) -> Log
        ensures { result ≡ lines.items }
    {
        Log { lines }
    }

    /// The lines, in order.
    pub fn lines(&self) -> &[Line]
        ensures { result.now ≡ self.now }
    {
        self.lines.as_slice()
    }

    /// How many numbers it takes to write the lines down, or [`u64::MAX`] where it takes more. It takes
    /// no memory, and the time of the lines.
    pub fn numbers(&self) -> u64
        ensures { result ≡ min (log_numbers self.now) u64.MAX }
    {
        numbers_of(self.lines.as_slice())
    }

    /// Adds a line at the end. Want of memory leaves the log as it was.
    pub fn push(&mut self, line: Line) -> Result<(), AllocError>
        ensures ok { OnOk result (self.new ≡ self.old ++ line ∷ []) }
        ensures err { OnErr result (self.new ≡ self.old) }
    {
        self.lines.push(line)?;
        Ok(())
    }

    /// Gives the lines back, without taking memory.
    pub fn into_vec(self) -> Vec<Line>
        ensures { result.items ≡ self }
    {
        let Log { lines } = self;
        lines
    }
}

/// How many numbers it takes to write the lines down, up to [`u64::MAX`].
fn numbers_of(lines: &[Line]) -> u64
    ensures { result ≡ min (log_numbers lines.now) u64.MAX }
{
    let mut sum = 0u64;
    for line in lines {
        sum = sum.saturating_add(line.numbers());
    }
    sum
}
