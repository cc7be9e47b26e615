//! The first payload of a journal: the texts that name a pair and a space, with the bound on turns.
//! It also tells in which form the later payloads are written.
ghost use Rattle.std.specs.Prelude.{◌≡◌, ◌≤◌, ◌++◌, length, IfOk, IfErr, OnOk};
ghost use Rattle.prv_codec.specs.Faults.{GoesWrongAt};
ghost use Rattle.prv_codec.specs.Forms.{number};
ghost use Rattle.prv_codec.specs.Reading.{Gives, whole, text_at as text_at_of};
ghost use Rattle.prv_codec.specs.Spelling.{text};
ghost use Rattle.prv_record.specs.Causes.{IsCause};
ghost use Rattle.prv_record.specs.Pairs.{Opening, opening, opening_of, pair_payload, pair_kind, space_text, kind_at as kind_at_of, space_at as space_at_of, pair_at as pair_at_of, IsUnused, IsSpace, IsFirst, IsPairPayload};

use crate::error::DecodeError;
use crate::limits::MAX_PAYLOAD;
use prv_codec::{Form, ReadError, number_at, put_number, put_text, text_at};
use std::alloc::{AllocError, Global};

/// What the first payload of a journal says.
#[derive(Drop)]
pub struct RawPair {
    /// The bound on the turns of a loop.
    pub turns: u32,
    /// The text of the space; empty in the first form, which has no spaces.
    pub space: Vec<u8>,
    /// The text of the old version.
    pub before: Vec<u8>,
    /// The text of the new version.
    pub after: Vec<u8>,
    /// The form of the journal's payloads.
    pub form: Form,
}

/// The first payload of a journal in this form. It has at most 17,000,000 bytes, and the first form
/// has no text of a space.
pub fn encode_pair(
    alloc: Global,
    form: Form,
    turns: u32,
    space: &[u8],
    before: &[u8],
    after: &[u8],
) -> Result<Vec<u8>, AllocError>
    requires space { IsUnused form space.now }
    requires small { length (pair_payload (opening_of form turns space.now before.now after.now)) ≤ MAX_PAYLOAD }
    ensures { IfOk result (λ bytes. IsFirst (opening_of form turns space.now before.now after.now) bytes.items) }
{
    let mut out = Vec::new(alloc);
    out.push(kind_of(form))?;
    put_number(&mut out, form, turns)?;
    put_space(&mut out, form, space)?;
    put_text(&mut out, form, before)?;
    put_text(&mut out, form, after)?;
    Ok(out)
}

/// What the bytes say, if they are the first payload of a journal in one of the two forms.
pub fn decode_pair(alloc: Global, bytes: &[u8]) -> Result<RawPair, DecodeError>
    requires { length bytes.now ≤ MAX_PAYLOAD }
    // What is read was written so.
    ensures found { IfOk result (λ pair. IsFirst (opening pair) bytes.now) }
    // What was written so is read again.
    ensures again { (p : Opening) → IsFirst p bytes.now → IfOk result (λ pair. opening pair ≡ p) }
    // The bytes go wrong there, unless memory ran out.
    ensures bad { IfErr result (IsCause (GoesWrongAt IsPairPayload bytes.now)) }
{
    match pair_of(alloc, bytes) {
        Ok(pair) => Ok(pair),
        Err(ReadError::Memory) => Err(DecodeError::Memory),
        Err(ReadError::Bad { left }) => Err(DecodeError::Bad {
            offset: (bytes.len() - left) as u32,
        }),
    }
}

/// The byte that a form's first payload begins with.
fn kind_of(form: Form) -> u8
    ensures { result ≡ pair_kind form }
{
    match form {
        Form::One => 0,
        Form::Two => 2,
    }
}

/// The form that the first byte names, and the bytes behind it.
#[tactic(auto, unfolding(crate::specs::Pairs::kind_at))]
fn kind_at(bytes: &[u8]) -> Result<(Form, &[u8]), ReadError>
    ensures { Gives (λ x. (x.0, x.1.now)) result (kind_at_of bytes.now) }
{
    match bytes {
        [] => Err(ReadError::Bad { left: 0 }),
        [0, rest @ ..] => Ok((Form::One, rest)),
        [2, rest @ ..] => Ok((Form::Two, rest)),
        [_, ..] => Err(ReadError::Bad { left: bytes.len() }),
    }
}

/// Adds the text of a space, where the form has one.
fn put_space(out: &mut Vec<u8>, form: Form, space: &[u8]) -> Result<(), AllocError>
    requires { IsSpace form space.now }
    ensures { OnOk result (out.new.items ≡ out.old.items ++ space_text form space.now) }
{
    match form {
        Form::One => Ok(()),
        Form::Two => put_text(out, form, space),
    }
}

/// The text of a space, where the form has one, and the bytes behind it.
#[tactic(auto, unfolding(crate::specs::Pairs::space_at))]
fn space_at(alloc: Global, form: Form, bytes: &[u8]) -> Result<(Vec<u8>, &[u8]), ReadError>
    ensures { Gives (λ x. (x.0.items, x.1.now)) result (space_at_of form bytes.now) }
{
    match form {
        Form::One => Ok((Vec::new(alloc), bytes)),
        Form::Two => text_at(alloc, Form::Two, bytes),
    }
}

/// What all of the bytes say.
#[tactic(auto, unfolding(crate::specs::Pairs::pair_at))]
fn pair_of(alloc: Global, bytes: &[u8]) -> Result<RawPair, ReadError>
    ensures { Gives opening result (whole (pair_at_of bytes.now)) }
{
    let (form, rest) = kind_at(bytes)?;
    let (turns, rest) = number_at(form, rest)?;
    let (space, rest) = space_at(alloc, form, rest)?;
    let (before, rest) = text_at(alloc, form, rest)?;
    let (after, rest) = text_at(alloc, form, rest)?;
    if !rest.is_empty() {
        return Err(ReadError::Bad { left: rest.len() });
    }
    Ok(RawPair {
        turns,
        space,
        before,
        after,
        form,
    })
}
