//! What a text begins with: a gap, a token, or what can't be read. The loop over a file takes one front after
//! another.
ghost use Rattle.std.specs.Prelude.{◌≡◌, ◌<◌, false, length, slice_index, IfOk};
ghost use Rattle.prv_lex.specs.Fronts.{front_of, word_front, number_front, mark_front, symbol_front};
ghost use Rattle.prv_lex.specs.Symbols.{symbol_at as longest_symbol};
ghost use Rattle.std.specs.List.{AllPass, prefix_len, take_while};
ghost use Rattle.prv_lex.specs.Bytes.{is_blank, is_digit, is_letter, is_line_byte, is_word_byte};

use crate::class::{Class, run_len};
use crate::comment::closing;
use crate::error::LexWhy;
use crate::number::number;
use crate::symbol::symbol;
use crate::token::Tok;
use crate::word::keyword;
use prv_model::{MAX_NAME, Name};
use std::alloc::{AllocError, Global};

/// What a text begins with.
#[derive(Drop)]
pub enum Front {
    /// A blank or a comment, and how many bytes it has.
    Gap(usize),
    /// A token, and how many bytes it has.
    Token(Tok, usize),
    /// What can't be read.
    Refused(LexWhy),
}

/// What stands at the front of a text that begins with no blank and no letter.
pub fn other_front(text: &[u8]) -> Front
    requires some { 0 < length text.now }
    requires no_blank { is_blank (slice_index text.now 0) ≡ false }
    requires no_letter { is_letter (slice_index text.now 0) ≡ false }
    ensures { result ≡ front_of text.now }
{
    let first = text[0];
    if first.is_ascii_digit() {
        number_at(digits_of(text))
    } else if first == b'/' {
        slash_at(text)
    } else {
        symbol_at(text)
    }
}

/// The letters, digits and `_` at the front of a text.
#[inline(always)]
pub fn word_of(text: &[u8]) -> &[u8]
    ensures { result.now ≡ take_while is_word_byte text.now }
{
    &text[..run_len(text, Class::Word)]
}

/// The digits at the front of a text.
#[inline(always)]
fn digits_of(text: &[u8]) -> &[u8]
    ensures { result.now ≡ take_while is_digit text.now }
{
    &text[..run_len(text, Class::Digit)]
}

/// How many bytes are in front of the first LF of a text.
// Out of line, so that the loop over the tokens stays small.
#[inline(never)]
fn line_len(text: &[u8]) -> usize
    ensures { result ≡ prefix_len is_line_byte text.now }
{
    run_len(text, Class::Line)
}

/// A reserved word or a name of these bytes.
pub fn word_at(alloc: Global, word: &[u8]) -> Result<Front, AllocError>
    requires { 0 < length word.now }
    ensures { IfOk result (λ found. found ≡ word_front word.now) }
{
    if word.len() > MAX_NAME {
        return Ok(Front::Refused(LexWhy::NameLong));
    }
    if let Some(key) = keyword(word) {
        return Ok(Front::Token(Tok::Key(key), word.len()));
    }
    let name = Name::new(alloc, word)?;
    Ok(Front::Token(Tok::Name(name), word.len()))
}

/// A number.
fn number_at(digits: &[u8]) -> Front
    requires some { 0 < length digits.now }
    requires all { AllPass is_digit digits.now }
    ensures { result ≡ number_front digits.now }
{
    match number(digits) {
        Some(n) => Front::Token(Tok::Num(n), digits.len()),
        None => Front::Refused(LexWhy::Number),
    }
}

/// A comment or the symbol `/`.
#[inline(always)]
fn slash_at(text: &[u8]) -> Front
    requires { 0 < length text.now }
    ensures { result ≡ mark_front text.now }
{
    if text.starts_with(b"//") {
        return Front::Gap(line_len(text));
    }
    if text.starts_with(b"/*") {
        return match closing(&text[2..]) {
            Some(len) => Front::Gap(len + 2),
            None => Front::Refused(LexWhy::Comment),
        };
    }
    symbol_at(text)
}

/// A symbol.
#[inline(always)]
fn symbol_at(text: &[u8]) -> Front
    requires { 0 < length text.now }
    ensures { result ≡ symbol_front (longest_symbol text.now) }
{
    match symbol(text) {
        Some(sym) => Front::Token(Tok::Sym(sym), sym.width()),
        None => Front::Refused(LexWhy::Byte),
    }
}
