//! Texts: the length, and the bytes as they are.
ghost use Rattle.std.specs.Prelude.{◌≡◌, ◌<◌, ◌^◌, ◌++◌, length, OnOk};
ghost use Rattle.prv_codec.specs.Spelling.{text as text_of};
ghost use Rattle.prv_codec.specs.Reading.{Gives, text_at as text_at_of};

use crate::error::ReadError;
use crate::form::Form;
use crate::number::{number_at, put_number};
use std::alloc::{AllocError, Global};

/// Adds a text at the end.
pub fn put_text(out: &mut Vec<u8>, form: Form, text: &[u8]) -> Result<(), AllocError>
    requires { length text.now < 2 ^ 32 }
    ensures { OnOk result (out.new.items ≡ out.old.items ++ text_of form text.now) }
{
    put_number(out, form, text.len() as u32)?;
    out.extend_from_slice(text)
}

/// The text at the front, and the bytes behind it.
#[tactic(auto, unfolding(crate::specs::Reading::text_at))]
pub fn text_at(alloc: Global, form: Form, bytes: &[u8]) -> Result<(Vec<u8>, &[u8]), ReadError>
    ensures { Gives (λ x. (x.0.items, x.1.now)) result (text_at_of form bytes.now) }
{
    let (count, rest) = number_at(form, bytes)?;
    let count = count as usize;
    if rest.len() < count {
        return Err(ReadError::Bad { left: 0 });
    }
    let (text, rest) = rest.split_at(count);
    Ok((Vec::from_slice(alloc, text)?, rest))
}
