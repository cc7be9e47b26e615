//! The options, which of them may be given, and what they settle.
ghost use Rattle.std.specs.Prelude.{◌≡◌, MatchOption};
ghost use Rattle.prv_line.specs.Options.{IsValue, with_value, is_allowed, without, all_options, resume_options};
ghost use Rattle.prv_line.specs.Commands.{defaults};
ghost use Rattle.prv_line.specs.Views.{settings_of};

use crate::limits::{LINES, SETTLEMENTS, TURNS, WORKERS};
use crate::text::{is_name, read_number};

#[derive(Clone, Copy, Debug)]
pub enum OptionName {
    Turns,
    Lines,
    Settlements,
    Workers,
    Journal,
}

/// The options that may be given, each by its name.
#[derive(Clone, Copy, Debug)]
pub struct Allowed {
    /// Whether `--turns` may be given.
    pub turns: bool,
    /// Whether `--lines` may be given.
    pub lines: bool,
    /// Whether `--settlements` may be given.
    pub settlements: bool,
    /// Whether `--workers` may be given.
    pub workers: bool,
    /// Whether `--journal` may be given.
    pub journal: bool,
}

impl Allowed {
    /// Those of `explore` and `live`: all of them.
    pub fn all() -> Allowed
        ensures { result ≡ all_options }
    {
        Allowed {
            turns: true,
            lines: true,
            settlements: true,
            workers: true,
            journal: true,
        }
    }

    /// Those of `resume`.
    pub fn of_resume() -> Allowed
        ensures { result ≡ resume_options }
    {
        Allowed {
            turns: false,
            journal: false,
            ..Allowed::all()
        }
    }

    /// Whether the option may be given.
    pub fn has(self, name: OptionName) -> bool
        ensures { result ≡ is_allowed self name }
    {
        match name {
            OptionName::Turns => self.turns,
            OptionName::Lines => self.lines,
            OptionName::Settlements => self.settlements,
            OptionName::Workers => self.workers,
            OptionName::Journal => self.journal,
        }
    }

    /// Those that are left once the option was given.
    pub fn without(self, name: OptionName) -> Allowed
        ensures { result ≡ without name self }
    {
        match name {
            OptionName::Turns => Allowed {
                turns: false,
                ..self
            },
            OptionName::Lines => Allowed {
                lines: false,
                ..self
            },
            OptionName::Settlements => Allowed {
                settlements: false,
                ..self
            },
            OptionName::Workers => Allowed {
                workers: false,
                ..self
            },
            OptionName::Journal => Allowed {
                journal: false,
                ..self
            },
        }
    }
}

/// What the options settle.
#[derive(Clone, Copy, Debug)]
pub struct Settings<'a> {
    /// The turns of a run, in the range `TURNS`.
    pub turns: u32,
    /// The budget of a search in lines, in `LINES`.
    pub lines: u32,
    /// The most settlements, in `SETTLEMENTS`.
    pub settlements: u32,
    /// The workers, in `WORKERS`.
    pub workers: u32,
    /// The journal's name, where one is given.
    pub journal: Option<&'a str>,
}

impl<'a> Settings<'a> {
    /// What holds where no option is given.
    pub fn new() -> Settings<'a>
        ensures { settings_of result ≡ defaults }
    {
        Settings {
            turns: TURNS.default,
            lines: LINES.default,
            settlements: SETTLEMENTS.default,
            workers: WORKERS.default,
            journal: None,
        }
    }

    /// The same with the option at the value that a text writes, or `None` where it writes none.
    pub fn with(&self, name: OptionName, text: &'a str) -> Option<Settings<'a>>
        ensures { MatchOption result (IsValue name text.now → ⊥)
            (λ settings. IsValue name text.now × (settings_of settings ≡ with_value name text.now (settings_of self.now))) }
    {
        match name {
            OptionName::Turns => {
                let turns = read_number(text, TURNS.least, TURNS.most)?;
                Some(Settings { turns, ..*self })
            }
            OptionName::Lines => {
                let lines = read_number(text, LINES.least, LINES.most)?;
                Some(Settings { lines, ..*self })
            }
            OptionName::Settlements => {
                let settlements = read_number(text, SETTLEMENTS.least, SETTLEMENTS.most)?;
                Some(Settings {
                    settlements,
                    ..*self
                })
            }
            OptionName::Workers => {
                let workers = read_number(text, WORKERS.least, WORKERS.most)?;
                Some(Settings { workers, ..*self })
            }
            OptionName::Journal => {
                if !is_name(text) {
                    return None;
                }
                Some(Settings {
                    journal: Some(text),
                    ..*self
                })
            }
        }
    }
}
