//! The commands of the program with their arguments, as values: names borrow from the command line, numbers are
//! read and in their ranges.
use prv_model::Input;

/// How much work is to be done.
#[derive(Clone, Copy, Debug, PartialEq, Eq)]
pub struct Plan {
    /// The budget of a log in lines, in the range `LINES`.
    pub lines: u32,
    /// The settlements to be made at most, in the range `SETTLEMENTS`.
    pub settlements: u32,
}

/// A command of the program. Names of files and journals aren't empty and don't begin with `-`; an input
/// has 1 to 8 words; turns are in the range `TURNS`, and workers in `WORKERS`.
#[derive(Debug, Drop)]
pub enum Command<'a> {
    /// `run FILE N..`: runs a program.
    Run {
        file: &'a str,
        input: Input,
    },
    /// `point OLD NEW N..`: compares both versions at one input.
    Point {
        before: &'a str,
        after: &'a str,
        input: Input,
    },
    /// `slice FILE N..`: the slice of a program's run.
    Slice {
        file: &'a str,
        input: Input,
    },
    /// `explore OLD NEW`: compares both versions over all inputs.
    Explore {
        before: &'a str,
        after: &'a str,
        turns: u32,
        plan: Plan,
        workers: u32,
        journal: Option<&'a str>,
    },
    /// `live OLD NEW`: the same, while it answers queries.
    Live {
        before: &'a str,
        after: &'a str,
        turns: u32,
        plan: Plan,
        workers: u32,
        journal: Option<&'a str>,
    },
    /// `resume J`: goes on with what a journal holds.
    Resume {
        journal: &'a str,
        plan: Plan,
        workers: u32,
    },
    /// `check J`: checks what a journal holds.
    Check {
        journal: &'a str,
    },
    /// `gen NUMBER SIZE`: compares a generated pair; SIZE is 1 to 50.
    Gen {
        number: u32,
        size: u32,
    },
}

impl<'a> Command<'a> {
    ghost use Rattle.std.specs.Prelude.{◌↔◌, IsTrue};
    ghost use Rattle.prv_line.specs.Waiting.{Waits};
    ghost use Rattle.prv_line.specs.Views.{command_of};

    /// Whether the command waits for other threads: `live`, and `explore` and `resume` with workers.
    pub fn waits(&self) -> bool
        ensures { IsTrue result ↔ Waits (command_of self.now) }
    {
        match self {
            Command::Live { .. } => true,
            Command::Explore { workers, .. } => *workers > 0,
            Command::Resume { workers, .. } => *workers > 0,
            _ => false,
        }
    }
}
