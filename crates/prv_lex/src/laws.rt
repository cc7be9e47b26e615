//! Laws of the definitions, each the contract of a function that does nothing.

ghost use Rattle.std.specs.Prelude.{◌≡◌, ℕ, List, length, ◌⊎◌};
ghost use Rattle.std.specs.List.{AllByRecursion};
ghost use Rattle.prv_lex.specs.Readings.{HasTokens, IsRefused, PlacesRise, StandsIn};
ghost use Rattle.prv_lex.specs.declared.error.LexWhy.{LexWhy};
ghost use Rattle.prv_lex.specs.declared.token.Token.{Token};

/// A file has at most one list of tokens.
pub fn one_list_of_tokens()
    ensures { (file : List ℕ) (some others : List Token) → HasTokens file some → HasTokens file others → some ≡ others }
{}

/// A file is refused at one place at most, and for one reason.
pub fn one_refusal()
    ensures { (file : List ℕ) (place at : ℕ) (why how : LexWhy) →
        IsRefused file place why → IsRefused file at how → (place ≡ at) × (why ≡ how) }
{}

/// A file has tokens or is refused, and never both.
pub fn tokens_or_refusal()
    ensures either { (file : List ℕ) →
        ((tokens : List Token) × HasTokens file tokens) ⊎ ((place : ℕ) × (why : LexWhy) × IsRefused file place why) }
    ensures not_both { (file : List ℕ) (tokens : List Token) (place : ℕ) (why : LexWhy) →
        HasTokens file tokens → IsRefused file place why → ⊥ }
{}

/// The places of a file's tokens rise and lie in the file.
pub fn places_rise()
    ensures { (file : List ℕ) (tokens : List Token) → HasTokens file tokens → PlacesRise 0 (length file) tokens }
{}

/// Each of a file's tokens stands at its place, as long as possible.
pub fn tokens_stand()
    ensures { (file : List ℕ) (tokens : List Token) → HasTokens file tokens → AllByRecursion (λ token. StandsIn file token) tokens }
{}
