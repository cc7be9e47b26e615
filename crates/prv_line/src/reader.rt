//! The commands.
ghost use Rattle.std.specs.Prelude.{◌≡◌, ℕ, ◌∷◌, codes, IfOk, IsErrOf};
ghost use Rattle.prv_line.specs.Answers.{UnlessMemory, IsCommand};
ghost use Rattle.prv_line.specs.Steps.{IsAnswer};
ghost use Rattle.prv_line.specs.Commands.{Command as CommandIs};
ghost use Rattle.prv_line.specs.Ranges.{IsInRange};
ghost use Rattle.prv_line.specs.Readings.{Reads};
ghost use Rattle.prv_line.specs.Usages.{IsUsage};
ghost use Rattle.prv_line.specs.Views.{command_of, texts};

use crate::command::{Command, Plan};
use crate::error::LineError;
use crate::input::read_input;
use crate::option::{Allowed, Settings};
use crate::options::read_options;
use crate::text::{take_name, take_number};
use std::alloc::Global;

/// Reads the words of the command line. `Usage` comes exactly where they read as no command, and names
/// the first word that is refused.
pub fn read_words<'a>(alloc: Global, words: &[&'a str]) -> Result<Command<'a>, LineError>
    ensures reads { IfOk result (λ found. Reads (command_of found) (texts words.now)) }
    ensures refuses { (word : ℕ) → IsErrOf result (LineError.Usage word) → IsUsage (texts words.now) word }
    ensures in_range { IfOk result (λ found. IsInRange (command_of found)) }

    // Both hold the other way round too, unless memory runs out.
    ensures found { (c : CommandIs) → Reads c (texts words.now) → UnlessMemory result (IsCommand result c) }
    ensures refused { (word : ℕ) → IsUsage (texts words.now) word → UnlessMemory result (IsErrOf result (LineError.Usage word)) }
{
    read_any(alloc, words)
}

/// Reads the command word, and then what has to follow it.
fn read_any<'a>(alloc: Global, words: &[&'a str]) -> Result<Command<'a>, LineError>
    ensures { IsAnswer (texts words.now) result }
{
    let Some((first, rest)) = words.split_first() else {
        return Err(LineError::Usage { word: 0 });
    };
    match *first {
        "run" => read_run(alloc, rest),
        "point" => read_point(alloc, rest),
        "slice" => read_slice(alloc, rest),
        "explore" => read_explore(rest),
        "live" => read_live(rest),
        "resume" => read_resume(rest),
        "check" => read_check(rest),
        "gen" => read_gen(rest),
        _ => Err(LineError::Usage { word: 0 }),
    }
}

fn read_run<'a>(alloc: Global, words: &[&'a str]) -> Result<Command<'a>, LineError>
    ensures { IsAnswer (codes "run" ∷ texts words.now) result }
{
    let Some((file, words)) = take_name(words) else {
        return Err(LineError::Usage { word: 1 });
    };
    let input = read_input(alloc, words, 2)?;
    Ok(Command::Run { file, input })
}

fn read_point<'a>(alloc: Global, words: &[&'a str]) -> Result<Command<'a>, LineError>
    ensures { IsAnswer (codes "point" ∷ texts words.now) result }
{
    let Some((before, words)) = take_name(words) else {
        return Err(LineError::Usage { word: 1 });
    };
    let Some((after, words)) = take_name(words) else {
        return Err(LineError::Usage { word: 2 });
    };
    let input = read_input(alloc, words, 3)?;
    Ok(Command::Point {
        before,
        after,
        input,
    })
}

fn read_slice<'a>(alloc: Global, words: &[&'a str]) -> Result<Command<'a>, LineError>
    ensures { IsAnswer (codes "slice" ∷ texts words.now) result }
{
    let Some((file, words)) = take_name(words) else {
        return Err(LineError::Usage { word: 1 });
    };
    let input = read_input(alloc, words, 2)?;
    Ok(Command::Slice { file, input })
}

fn read_explore<'a>(words: &[&'a str]) -> Result<Command<'a>, LineError>
    ensures { IsAnswer (codes "explore" ∷ texts words.now) result }
{
    let Some((before, words)) = take_name(words) else {
        return Err(LineError::Usage { word: 1 });
    };
    let Some((after, words)) = take_name(words) else {
        return Err(LineError::Usage { word: 2 });
    };
    let settings = read_options(words, 3, Allowed::all(), Settings::new())?;
    Ok(Command::Explore {
        before,
        after,
        turns: settings.turns,
        plan: Plan {
            lines: settings.lines,
            settlements: settings.settlements,
        },
        workers: settings.workers,
        journal: settings.journal,
    })
}

fn read_live<'a>(words: &[&'a str]) -> Result<Command<'a>, LineError>
    ensures { IsAnswer (codes "live" ∷ texts words.now) result }
{
    let Some((before, words)) = take_name(words) else {
        return Err(LineError::Usage { word: 1 });
    };
    let Some((after, words)) = take_name(words) else {
        return Err(LineError::Usage { word: 2 });
    };
    let settings = read_options(words, 3, Allowed::all(), Settings::new())?;
    Ok(Command::Live {
        before,
        after,
        turns: settings.turns,
        plan: Plan {
            lines: settings.lines,
            settlements: settings.settlements,
        },
        workers: settings.workers,
        journal: settings.journal,
    })
}

fn read_resume<'a>(words: &[&'a str]) -> Result<Command<'a>, LineError>
    ensures { IsAnswer (codes "resume" ∷ texts words.now) result }
{
    let Some((journal, words)) = take_name(words) else {
        return Err(LineError::Usage { word: 1 });
    };
    let settings = read_options(words, 2, Allowed::of_resume(), Settings::new())?;
    Ok(Command::Resume {
        journal,
        plan: Plan {
            lines: settings.lines,
            settlements: settings.settlements,
        },
        workers: settings.workers,
    })
}

fn read_check<'a>(words: &[&'a str]) -> Result<Command<'a>, LineError>
    ensures { IsAnswer (codes "check" ∷ texts words.now) result }
{
    let Some((journal, words)) = take_name(words) else {
        return Err(LineError::Usage { word: 1 });
    };
    if !words.is_empty() {
        return Err(LineError::Usage { word: 2 });
    }
    Ok(Command::Check { journal })
}

fn read_gen<'a>(words: &[&'a str]) -> Result<Command<'a>, LineError>
    ensures { IsAnswer (codes "gen" ∷ texts words.now) result }
{
    let Some((number, words)) = take_number(words, 0, u32::MAX) else {
        return Err(LineError::Usage { word: 1 });
    };
    let Some((size, words)) = take_number(words, 1, 50) else {
        return Err(LineError::Usage { word: 2 });
    };
    if !words.is_empty() {
        return Err(LineError::Usage { word: 3 });
    }
    Ok(Command::Gen { number, size })
}
