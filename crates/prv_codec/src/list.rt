//! Lists of words, literals and numbers. A count is no reason to take room: it may be any number in
//! bytes that nobody wrote, and a list grows as its items are read.
ghost use Rattle.std.specs.Prelude.{◌≡◌, ◌<◌, ◌^◌, ◌++◌, length, OnOk};
ghost use Rattle.std.specs.List.{All, flat_map};
ghost use Rattle.prv_codec.specs.Forms.{number, word};
ghost use Rattle.prv_codec.specs.Spelling.{counted, literal, IsLiteral, IsNumber};
ghost use Rattle.prv_codec.specs.Reading.{Gives, number_at as number_at_of, word_at as word_at_of, literal_at as literal_at_of, items_at, counted_at};

use crate::error::ReadError;
use crate::form::Form;
use crate::number::{number_at, put_number};
use crate::word::{put_word, word_at};
use prv_cnf::Lit;
use prv_model::Input;
use std::alloc::{AllocError, Global};

/// Adds words at the end, without their count.
pub(crate) fn put_words(out: &mut Vec<u8>, form: Form, words: &[i32]) -> Result<(), AllocError>
    ensures { OnOk result (out.new.items ≡ out.old.items ++ flat_map (word form) words.now) }
{
    for value in words {
        put_word(out, form, *value)?;
    }
    Ok(())
}

/// An input of so many words at the front, and the bytes behind it.
pub(crate) fn words_at(
    alloc: Global,
    form: Form,
    count: u8,
    bytes: &[u8],
) -> Result<(Input, &[u8]), ReadError>
    ensures { Gives (λ x. (x.0, x.1.now)) result (items_at (word_at_of form) count bytes.now) }
{
    let mut words = Input::new(alloc);
    let mut rest = bytes;
    for _ in 0..count {
        let (item, after) = word_at(form, rest)?;
        words.push(item)?;
        rest = after;
    }
    Ok((words, rest))
}

/// Adds the count of some literals, and the literals.
pub(crate) fn put_literals(out: &mut Vec<u8>, form: Form, lits: &[Lit]) -> Result<(), AllocError>
    requires { length lits.now < 2 ^ 32 }
    ensures added { OnOk result (out.new.items ≡ out.old.items ++ counted form (literal form) lits.now) }
    ensures fits { OnOk result (All IsLiteral lits.now) }
{
    put_number(out, form, lits.len() as u32)?;
    for lit in lits {
        put_literal(out, form, *lit)?;
    }
    Ok(())
}

/// Adds a literal at the end.
fn put_literal(out: &mut Vec<u8>, form: Form, lit: Lit) -> Result<(), AllocError>
    ensures added { OnOk result (out.new.items ≡ out.old.items ++ literal form lit) }
    ensures fits { IsLiteral lit }
{
    put_word(out, form, lit.0)
}

/// Literals behind their count, and the bytes behind them.
#[tactic(auto, unfolding(crate::specs::Reading::counted_at))]
pub(crate) fn literals_at(
    alloc: Global,
    form: Form,
    bytes: &[u8],
) -> Result<(Vec<Lit>, &[u8]), ReadError>
    ensures { Gives (λ x. (x.0.items, x.1.now)) result (counted_at form (literal_at_of form) bytes.now) }
{
    let (count, rest) = number_at(form, bytes)?;
    literals_of(alloc, form, count, rest)
}

/// So many literals at the front, and the bytes behind them.
fn literals_of(
    alloc: Global,
    form: Form,
    count: u32,
    bytes: &[u8],
) -> Result<(Vec<Lit>, &[u8]), ReadError>
    ensures { Gives (λ x. (x.0.items, x.1.now)) result (items_at (literal_at_of form) count bytes.now) }
{
    let mut lits = Vec::new(alloc);
    let mut rest = bytes;
    for _ in 0..count {
        let (item, after) = literal_at(form, rest)?;
        lits.push(item)?;
        rest = after;
    }
    Ok((lits, rest))
}

/// The literal at the front, which may be any number, and the bytes behind it.
#[tactic(auto, unfolding(crate::specs::Reading::literal_at))]
fn literal_at(form: Form, bytes: &[u8]) -> Result<(Lit, &[u8]), ReadError>
    ensures { Gives (λ x. (x.0, x.1.now)) result (literal_at_of form bytes.now) }
{
    let (value, rest) = word_at(form, bytes)?;
    Ok((Lit(value), rest))
}

/// Adds the count of some numbers, and the numbers.
pub(crate) fn put_numbers(out: &mut Vec<u8>, form: Form, numbers: &[u32]) -> Result<(), AllocError>
    requires { length numbers.now < 2 ^ 32 }
    ensures added { OnOk result (out.new.items ≡ out.old.items ++ counted form (number form) numbers.now) }
    ensures fits { All IsNumber numbers.now }
{
    put_number(out, form, numbers.len() as u32)?;
    for value in numbers {
        put_number(out, form, *value)?;
    }
    Ok(())
}

/// Numbers behind their count, and the bytes behind them.
#[tactic(auto, unfolding(crate::specs::Reading::counted_at))]
pub(crate) fn numbers_at(
    alloc: Global,
    form: Form,
    bytes: &[u8],
) -> Result<(Vec<u32>, &[u8]), ReadError>
    ensures { Gives (λ x. (x.0.items, x.1.now)) result (counted_at form (number_at_of form) bytes.now) }
{
    let (count, rest) = number_at(form, bytes)?;
    numbers_of(alloc, form, count, rest)
}

/// So many numbers at the front, and the bytes behind them.
fn numbers_of(
    alloc: Global,
    form: Form,
    count: u32,
    bytes: &[u8],
) -> Result<(Vec<u32>, &[u8]), ReadError>
    ensures { Gives (λ x. (x.0.items, x.1.now)) result (items_at (number_at_of form) count bytes.now) }
{
    let mut numbers = Vec::new(alloc);
    let mut rest = bytes;
    for _ in 0..count {
        let (item, after) = number_at(form, rest)?;
        numbers.push(item)?;
        rest = after;
    }
    Ok((numbers, rest))
}
