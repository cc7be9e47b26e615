//! Inputs: the count of words in one byte, and the words.
ghost use Rattle.std.specs.Prelude.{◌≡◌, ◌≤◌, ◌++◌, length, OnOk};
ghost use Rattle.std.specs.List.{All};
ghost use Rattle.prv_model.specs.Words.{IsWord};
ghost use Rattle.prv_codec.specs.Spelling.{input as input_of};
ghost use Rattle.prv_codec.specs.Reading.{Gives, input_at as input_at_of};

use crate::byte::byte_at;
use crate::error::ReadError;
use crate::form::Form;
use crate::list::{put_words, words_at};
use prv_model::{Input, MAX_PARAMS};
use std::alloc::{AllocError, Global};

/// Adds an input of at most eight words at the end.
pub fn put_input(out: &mut Vec<u8>, form: Form, input: &Input) -> Result<(), AllocError>
    requires { length input.now ≤ MAX_PARAMS }
    ensures words { All IsWord input.now }
    ensures added { OnOk result (out.new.items ≡ out.old.items ++ input_of form input.now) }
{
    let words = input.as_slice();
    out.push(words.len() as u8)?;
    put_words(out, form, words)
}

/// The input at the front, of one to eight words, and the bytes behind it.
#[tactic(auto, unfolding(crate::specs::Reading::input_at))]
pub fn input_at(alloc: Global, form: Form, bytes: &[u8]) -> Result<(Input, &[u8]), ReadError>
    ensures { Gives (λ x. (x.0, x.1.now)) result (input_at_of form bytes.now) }
{
    let (count, rest) = byte_at(1, MAX_PARAMS as u8, bytes)?;
    words_at(alloc, form, count, rest)
}
