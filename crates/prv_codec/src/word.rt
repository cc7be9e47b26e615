//! Words as numbers: the first form takes two's complement, the second zigzag order, in which words
//! near 0 of either sign are small numbers.
ghost use Rattle.std.specs.Prelude.{◌≡◌, ◌++◌, IfOk, OnOk};
ghost use Rattle.prv_model.specs.Words.{IsWord};
ghost use Rattle.prv_codec.specs.Forms.{code, decoded, word};
ghost use Rattle.prv_codec.specs.Reading.{Gives, word_at as word_at_of};

use crate::error::ReadError;
use crate::form::Form;
use crate::number::{number_at, put_number};
use std::alloc::AllocError;

/// The number that a word is written as.
#[tactic(auto, unfolding(crate::specs::Forms::code))]
fn code_of(form: Form, word: i32) -> u32
    ensures { result ≡ code form word }
{
    match form {
        Form::One => word.cast_unsigned(),
        Form::Two => {
            if word < 0 {
                2 * (-(word + 1)).unsigned_abs() + 1
            } else {
                2 * word.unsigned_abs()
            }
        }
    }
}

/// The word that is written as this number.
#[tactic(auto, unfolding(crate::specs::Forms::decoded))]
fn word_of(form: Form, number: u32) -> i32
    ensures { result ≡ decoded form number }
{
    match form {
        Form::One => number.cast_signed(),
        Form::Two => {
            let half = (number / 2) as i32;
            if number % 2 == 0 { half } else { -half - 1 }
        }
    }
}

/// Adds a word at the end.
pub fn put_word(out: &mut Vec<u8>, form: Form, value: i32) -> Result<(), AllocError>
    ensures { OnOk result (out.new.items ≡ out.old.items ++ word form value) }
{
    put_number(out, form, code_of(form, value))
}

/// The word at the front, and the bytes behind it.
#[tactic(auto, unfolding(crate::specs::Reading::word_at))]
pub fn word_at(form: Form, bytes: &[u8]) -> Result<(i32, &[u8]), ReadError>
    ensures gives { Gives (λ x. (x.0, x.1.now)) result (word_at_of form bytes.now) }
    ensures fits { IfOk result (λ x. IsWord x.0) }
{
    let (number, rest) = number_at(form, bytes)?;
    Ok((word_of(form, number), rest))
}
