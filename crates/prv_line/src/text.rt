//! Names and numbers.
ghost use Rattle.std.specs.Prelude.{◌≡◌, ◌≢◌, ◌∷◌, ◌↔◌, ℕ, List, IsTrue, MatchOption, length, slice_index};
ghost use Rattle.std.specs.Option.{SomeIff};
ghost use Rattle.std.specs.Str.Parse.{digits_value, signed_digits_value, without_leading_sign};
ghost use Rattle.prv_line.specs.Texts.{IsName, IsNumber, IsSigned};
ghost use Rattle.prv_line.specs.Views.{texts};

/// Whether a word can name a file: it isn't empty and doesn't begin with `-`.
pub fn is_name(word: &str) -> bool
    ensures { IsTrue result ↔ IsName word.now }
{
    !word.is_empty() && first_byte(word) != b'-'
}

/// Reads 1 to 10 digits as a number from `least` to `most`.
pub fn read_number(word: &str, least: u32, most: u32) -> Option<u32>
    ensures { SomeIff result (IsNumber least most word.now) (digits_value 10 word.now) }
{
    if first_byte(word) == b'+' || word.len() > 10 {
        return None;
    }
    let number = word.parse::<u32>().ok()?;
    if number < least || number > most {
        return None;
    }
    Some(number)
}

/// Reads 1 to 10 digits behind an optional `-` as a number of an input.
pub fn read_signed(word: &str) -> Option<i32>
    ensures { SomeIff result (IsSigned word.now) (signed_digits_value 10 word.now) }
{
    if first_byte(word) == b'+' || digit_count(word) > 10 {
        return None;
    }
    word.parse::<i32>().ok()
}

/// The name that stands first, and the words behind it.
pub fn take_name<'a, 'w>(words: &'w [&'a str]) -> Option<(&'a str, &'w [&'a str])>
    ensures { MatchOption result
        ((word : List ℕ) (rest : List (List ℕ)) → texts words.now ≡ word ∷ rest → IsName word → ⊥)
        (λ found. IsName found.0.now × (texts words.now ≡ found.0.now ∷ texts found.1.now)) }
{
    let (word, rest) = words.split_first()?;
    if !is_name(word) {
        return None;
    }
    Some((*word, rest))
}

/// The number from `least` to `most` that stands first, and the words behind it.
pub fn take_number<'a, 'w>(
    words: &'w [&'a str],
    least: u32,
    most: u32,
) -> Option<(u32, &'w [&'a str])>
    ensures { MatchOption result
        ((word : List ℕ) (rest : List (List ℕ)) → texts words.now ≡ word ∷ rest → IsNumber least most word → ⊥)
        (λ found. (word : List ℕ) × IsNumber least most word × (found.0 ≡ digits_value 10 word)
        × (texts words.now ≡ word ∷ texts found.1.now)) }
{
    let (word, rest) = words.split_first()?;
    let number = read_number(word, least, most)?;
    Some((number, rest))
}

/// How many bytes stand behind a leading sign.
fn digit_count(word: &str) -> usize
    ensures { result ≡ length (without_leading_sign word.now) }
{
    let first = first_byte(word);
    if first == b'-' || first == b'+' {
        word.len() - 1
    } else {
        word.len()
    }
}

/// The first byte of a word, or 0 where it has none.
fn first_byte(word: &str) -> u8
    ensures { result ≡ slice_index word.now 0 }
{
    match word.as_bytes().first() {
        None => 0,
        Some(first) => *first,
    }
}
