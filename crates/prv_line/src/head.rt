//! The word that an option begins with.
ghost use Rattle.std.specs.Prelude.{◌≡◌, ◌≢◌, ℕ, List, Option, MatchOption};
ghost use Rattle.std.specs.Option.{option_copied};
ghost use Rattle.prv_line.specs.Options.{option_word, head_word};
ghost use Rattle.prv_line.specs.declared.option.OptionName.{OptionName as Name};

use crate::option::OptionName;

/// The option that a word names, and the value that the word holds behind a `=`.
#[derive(Clone, Copy, Debug)]
pub struct Head<'a> {
    /// The option that is named.
    pub name: OptionName,
    /// Its value, where it stands in the same word.
    pub value: Option<&'a str>,
}

/// Reads the word that an option begins with.
pub fn read_head<'a>(word: &'a str) -> Option<Head<'a>>
    ensures { MatchOption result ((name : Name) (value : Option (List ℕ)) → word.now ≢ head_word name value)
        (λ head. word.now ≡ head_word head.name (option_copied head.value)) }
{
    match word.split_once('=') {
        None => {
            let name = option_name(word)?;
            Some(Head { name, value: None })
        }
        Some((front, value)) => {
            let name = option_name(front)?;
            Some(Head {
                name,
                value: Some(value),
            })
        }
    }
}

/// The option that is written so.
fn option_name(word: &str) -> Option<OptionName>
    ensures { MatchOption result ((name : Name) → word.now ≢ option_word name) (λ name. word.now ≡ option_word name) }
{
    match word {
        "--turns" => Some(OptionName::Turns),
        "--lines" => Some(OptionName::Lines),
        "--settlements" => Some(OptionName::Settlements),
        "--workers" => Some(OptionName::Workers),
        "--journal" => Some(OptionName::Journal),
        _ => None,
    }
}
