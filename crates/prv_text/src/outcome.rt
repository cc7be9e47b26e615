//! The text of what a run shows.
ghost use Rattle.std.specs.Prelude.{◌≡◌, [], ◌++◌, IfOk, OnOk, flat_map, codes};
ghost use Rattle.std.specs.Fmt.{signed_decimal};
ghost use Rattle.prv_text.specs.Lines.{line};
ghost use Rattle.prv_text.specs.Outcomes.{put_before as put_before_of, last_text, ending_text, outcome_text as text_of};

use crate::number::push_number;
use prv_model::{Ending, Outcome};
use std::alloc::{AllocError, Global};

/// A line for each word that a run put out, and one for its end.
pub fn outcome_text(alloc: Global, outcome: &Outcome) -> Result<Vec<u8>, AllocError>
    ensures { IfOk result (λ text. text.items ≡ text_of outcome.now) }
{
    let mut out = Vec::new(alloc);
    let outs = outcome.outs.as_slice();
    push_outs(&mut out, put_before(outcome.how, outs))?;
    push_ending(&mut out, outcome.how, outs)?;
    out.push(b'\n')?;
    Ok(out)
}

/// What was put out, without what was returned.
pub(crate) fn put_before<T>(how: Ending, outs: &[T]) -> &[T]
    ensures { result.now ≡ put_before_of how outs.now }
{
    match how {
        Ending::Returned => &outs[..outs.len().saturating_sub(1)],
        _ => outs,
    }
}

fn push_outs(out: &mut Vec<u8>, words: &[i32]) -> Result<(), AllocError>
    ensures { OnOk result (out.new.items ≡ out.old.items ++ flat_map (λ n. line (codes "out " ++ signed_decimal n)) words.now) }
{
    for word in words {
        push_out(out, word)?;
    }
    Ok(())
}

/// Writes the line of a word that was put out.
fn push_out(out: &mut Vec<u8>, word: &i32) -> Result<(), AllocError>
    ensures { OnOk result (out.new.items ≡ out.old.items ++ line (codes "out " ++ signed_decimal word.now)) }
{
    out.extend_from_slice(b"out ")?;
    push_number(out, *word)?;
    out.push(b'\n')?;
    Ok(())
}

/// Writes how a run ended, with the word that it returned.
fn push_ending(out: &mut Vec<u8>, how: Ending, words: &[i32]) -> Result<(), AllocError>
    ensures { OnOk result (out.new.items ≡ out.old.items ++ ending_text how (last_text signed_decimal words.now)) }
{
    out.extend_from_slice(ending_word(how))?;
    match how {
        Ending::Returned => push_last(out, words),
        _ => Ok(()),
    }
}

/// The word for an ending; behind that of a return stands what is returned.
pub(crate) fn ending_word(how: Ending) -> &'static [u8]
    ensures { result.now ≡ ending_text how [] }
{
    match how {
        Ending::Returned => b"returned ",
        Ending::Fault => b"fault",
        Ending::Assert => b"assert",
        Ending::Long => b"long",
    }
}

/// Writes the last of some words.
fn push_last(out: &mut Vec<u8>, words: &[i32]) -> Result<(), AllocError>
    ensures { OnOk result (out.new.items ≡ out.old.items ++ last_text signed_decimal words.now) }
{
    match words.last() {
        None => Ok(()),
        Some(word) => push_number(out, *word),
    }
}
