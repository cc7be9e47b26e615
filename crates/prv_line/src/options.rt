//! The options of a command, one after another.
ghost use Rattle.std.specs.Prelude.{◌≡◌, ◌+◌, ◌*◌, ◌<◌, [], ◌∷◌, None, IfOk, IfErr, MatchOption};
ghost use Rattle.std.specs.Option.{option_copied};
ghost use Rattle.prv_line.specs.Commands.{Settings as SettingsIs};
ghost use Rattle.prv_line.specs.Options.{Options};
ghost use Rattle.prv_line.specs.Steps.{Tells, option_count, TakesOption, TakesValue};
ghost use Rattle.prv_line.specs.Views.{settings_of, texts};

use crate::error::LineError;
use crate::head::{Head, read_head};
use crate::option::{Allowed, OptionName, Settings};

/// Reads words that are options, which change the settings. The first of them is word `at` of the
/// command line.
pub fn read_options<'a>(
    words: &[&'a str],
    at: u32,
    allowed: Allowed,
    settings: Settings<'a>,
) -> Result<Settings<'a>, LineError>
    requires { at + 2 * option_count allowed < 100 }
    ensures ok { IfOk result (λ made. Options allowed (settings_of settings.entry) (settings_of made) (texts words.now)) }
    ensures err { IfErr result (Tells (Options allowed (settings_of settings.entry)) (texts words.now) at) }
{
    let Some((word, behind)) = words.split_first() else {
        return Ok(settings);
    };
    let taken = take_option(word, behind, at, allowed)?;
    match settings.with(taken.name, taken.value) {
        Some(next) => read_options(
            taken.behind,
            taken.word + 1,
            allowed.without(taken.name),
            next,
        ),
        None => Err(LineError::Usage { word: taken.word }),
    }
}

/// An option with its value, before the value is read.
#[derive(Clone, Copy, Debug)]
struct Taken<'a, 'w> {
    /// The option.
    name: OptionName,
    /// The text of its value.
    value: &'a str,
    /// Which word of the command line holds the value.
    word: u32,
    /// The words behind it.
    behind: &'w [&'a str],
}

/// Takes the option that begins with a word, which is word `at` of the command line.
fn take_option<'a, 'w>(
    word: &'a str,
    behind: &'w [&'a str],
    at: u32,
    allowed: Allowed,
) -> Result<Taken<'a, 'w>, LineError>
    requires { at < 100 }
    ensures ok { IfOk result (λ t. TakesOption allowed (word.now ∷ texts behind.now) at t.name t.value.now t.word (texts t.behind.now)) }
    ensures err { (s : SettingsIs) → IfErr result (Tells (Options allowed s) (word.now ∷ texts behind.now) at) }
{
    let Some(head) = read_head(word) else {
        return Err(LineError::Usage { word: at });
    };
    if !allowed.has(head.name) {
        return Err(LineError::Usage { word: at });
    }
    match take_value(head, behind, at) {
        Some(taken) => Ok(taken),
        None => Err(LineError::Usage { word: at + 1 }),
    }
}

/// Takes an option's value: from the word that begins the option, or else from the next.
fn take_value<'a, 'w>(head: Head<'a>, behind: &'w [&'a str], at: u32) -> Option<Taken<'a, 'w>>
    requires { at < 100 }
    ensures { MatchOption result ((option_copied head.entry.value ≡ None) × (texts behind.now ≡ []))
        (λ t. TakesValue head.entry.name (option_copied head.entry.value) (texts behind.now) at t.name t.value.now t.word (texts t.behind.now)) }
{
    match head.value {
        Some(value) => Some(Taken {
            name: head.name,
            value,
            word: at,
            behind,
        }),
        None => {
            let (value, behind) = behind.split_first()?;
            Some(Taken {
                name: head.name,
                value: *value,
                word: at + 1,
                behind,
            })
        }
    }
}
