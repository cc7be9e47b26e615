//! The payload of a record: the code of the form, the entry, the code of the shape, and what the shape
//! has. Each record has one payload in a form, and each payload one record.
ghost use Rattle.std.specs.Prelude.{◌≡◌, ◌≤◌, length, IfOk, IfErr};
ghost use Rattle.prv_codec.specs.Faults.{GoesWrongAt};
ghost use Rattle.prv_codec.specs.Reading.{Gives, whole};
ghost use Rattle.prv_record.specs.Causes.{IsCause};
ghost use Rattle.prv_record.specs.Fields.{HasFields};
ghost use Rattle.prv_record.specs.Reading.{shape_of as shape_of_code, record_at as record_at_of};
ghost use Rattle.prv_record.specs.Records.{IsPayload, IsPayloadOf};
ghost use Rattle.prv_record.specs.Spelling.{kind, shape_code, payload};
ghost use Rattle.prv_record.specs.declared.raw.Raw.{Raw};

use crate::content::{Content, content_at};
use crate::error::DecodeError;
use crate::fields::put_parts;
use crate::limits::MAX_PAYLOAD;
use crate::raw::Raw;
use prv_codec::{Form, ReadError, byte_at, number_at, put_number};
use prv_part::Shape;
use std::alloc::{AllocError, Global};

/// The payload of a record in a form. The record has the fields of its shape, and its payload in the
/// form at most 17,000,000 bytes.
pub fn encode(alloc: Global, raw: &Raw, form: Form) -> Result<Vec<u8>, AllocError>
    requires fields { HasFields raw.now }
    requires small { length (payload form raw.now) ≤ MAX_PAYLOAD }
    ensures { IfOk result (λ bytes. IsPayload form raw.now bytes.items) }
{
    let mut out = Vec::new(alloc);
    out.push(kind_of(form))?;
    put_number(&mut out, form, raw.entry)?;
    out.push(code_of(raw.shape))?;
    put_parts(&mut out, form, raw)?;
    Ok(out)
}

/// The record whose payload in the form the bytes are.
pub fn decode(alloc: Global, bytes: &[u8], form: Form) -> Result<Raw, DecodeError>
    requires { length bytes.now ≤ MAX_PAYLOAD }
    // What is read was written so.
    ensures found { IfOk result (λ raw. IsPayload form raw bytes.now) }
    // What was written so is read again.
    ensures again { (raw : Raw) → IsPayload form raw bytes.now → IfOk result (λ read. read ≡ raw) }
    // The bytes go wrong there, unless memory ran out.
    ensures bad { IfErr result (IsCause (GoesWrongAt (IsPayloadOf form) bytes.now)) }
{
    match raw_of(alloc, form, bytes) {
        Ok(raw) => Ok(raw),
        Err(ReadError::Memory) => Err(DecodeError::Memory),
        Err(ReadError::Bad { left }) => Err(DecodeError::Bad {
            offset: (bytes.len() - left) as u32,
        }),
    }
}

/// The code that a form's records begin with.
fn kind_of(form: Form) -> u8
    ensures { result ≡ kind form }
{
    match form {
        Form::One => 1,
        Form::Two => 3,
    }
}

/// The code of a shape.
fn code_of(shape: Shape) -> u8
    ensures { result ≡ shape_code shape }
{
    match shape {
        Shape::Empty => 0,
        Shape::Stuck => 1,
        Shape::Whole => 2,
        Shape::Split => 3,
        Shape::Beyond => 4,
    }
}

/// The shape of a code; each above 4 counts as that of the last shape.
fn shape_of(code: u8) -> Shape
    ensures { result ≡ shape_of_code code }
{
    match code {
        0 => Shape::Empty,
        1 => Shape::Stuck,
        2 => Shape::Whole,
        3 => Shape::Split,
        _ => Shape::Beyond,
    }
}

/// The record that all of the bytes are.
#[tactic(auto, unfolding(crate::specs::Reading::record_at))]
fn raw_of(alloc: Global, form: Form, bytes: &[u8]) -> Result<Raw, ReadError>
    ensures { Gives (λ raw. raw) result (whole (record_at_of form bytes.now)) }
{
    let kind = kind_of(form);
    let (_, rest) = byte_at(kind, kind, bytes)?;
    let (entry, rest) = number_at(form, rest)?;
    let (code, rest) = byte_at(0, 4, rest)?;
    let shape = shape_of(code);
    let (content, rest) = content_at(alloc, form, shape, rest)?;
    if !rest.is_empty() {
        return Err(ReadError::Bad { left: rest.len() });
    }
    let Content {
        member,
        other,
        proof,
    } = content;
    Ok(Raw {
        entry,
        shape,
        member,
        other,
        proof,
    })
}
