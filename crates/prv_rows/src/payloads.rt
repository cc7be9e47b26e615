//! Payloads of journals in hexadecimal: what they say, and the bytes that are written of it again.
ghost use Rattle.std.specs.Prelude.{◌≤◌, length, IfOk};
ghost use Rattle.prv_record.specs.declared.limits.TheConstants.{MAX_PAYLOAD};

use crate::refusal::Refusal;
use crate::settlements::show_input;
use crate::tokens::show_bytes;
use prv_check::{Line, Log};
use prv_record::{
    Form, MAX_PAYLOAD, Proof, Raw, RawOther, RawPair, decode, decode_pair, encode, encode_pair,
};
use std::alloc::{AllocError, Global};

/// The first payload of a journal: its form, its turns and its texts, and its bytes.
pub fn first_answer(alloc: Global, text: &str) -> Result<String, Refusal> {
    let bytes = payload_of(alloc, text)?;
    let pair = decode_pair(alloc, bytes.as_slice())?;
    let mut line = String::new(alloc);
    show_first(&mut line, &pair)?;
    let again = encode_pair(
        alloc,
        pair.form,
        pair.turns,
        pair.space.as_slice(),
        pair.before.as_slice(),
        pair.after.as_slice(),
    )?;
    show_payload(&mut line, again.as_slice())?;
    Ok(line)
}

/// A form, 1 or 2, before the payload of a record: what the record has, and its bytes.
pub fn record_answer(alloc: Global, text: &str) -> Result<String, Refusal> {
    let (form, text) = text.split_once(' ').unwrap_or((text, ""));
    let form = form_of(form)?;
    let bytes = payload_of(alloc, text)?;
    let raw = decode(alloc, bytes.as_slice(), form)?;
    let mut line = String::new(alloc);
    show_record(&mut line, &raw)?;
    let again = encode(alloc, &raw, form)?;
    show_payload(&mut line, again.as_slice())?;
    Ok(line)
}

fn form_of(word: &str) -> Result<Form, Refusal> {
    match word {
        "1" => Ok(Form::One),
        "2" => Ok(Form::Two),
        _ => Err(Refusal::Row),
    }
}

/// The bytes of two hexadecimal digits each, with blanks between them anywhere.
fn payload_of(alloc: Global, text: &str) -> Result<Vec<u8>, Refusal>
    ensures { IfOk result (λ bytes. length bytes.items ≤ MAX_PAYLOAD) }
{
    let mut bytes = Vec::new(alloc);
    let mut high = None;
    for byte in text.as_bytes() {
        if *byte != b' ' {
            let digit = digit_of(*byte)?;
            match high {
                None => high = Some(digit),
                Some(first) => {
                    bytes.push(digit.wrapping_add(16_u8.wrapping_mul(first)))?;
                    high = None;
                }
            }
        }
    }
    if high.is_some() || bytes.len() as u64 > MAX_PAYLOAD {
        return Err(Refusal::Row);
    }
    Ok(bytes)
}

fn digit_of(byte: u8) -> Result<u8, Refusal> {
    match byte {
        b'0'..=b'9' => Ok(byte - b'0'),
        b'a'..=b'f' => Ok(byte - b'a' + 10),
        _ => Err(Refusal::Row),
    }
}

fn show_payload(line: &mut String, bytes: &[u8]) -> Result<(), AllocError> {
    line.push_str("; ")?;
    for byte in bytes {
        write!(line, "{byte:02x}")?;
    }
    Ok(())
}

fn show_first(line: &mut String, pair: &RawPair) -> Result<(), AllocError> {
    let (form, turns) = (pair.form, pair.turns);
    write!(line, "{form:?} turns {turns} where (")?;
    show_bytes(line, pair.space.as_slice())?;
    line.push_str(") before (")?;
    show_bytes(line, pair.before.as_slice())?;
    line.push_str(") after (")?;
    show_bytes(line, pair.after.as_slice())?;
    line.push(')')
}

fn show_record(line: &mut String, raw: &Raw) -> Result<(), AllocError> {
    let (entry, shape) = (raw.entry, raw.shape);
    write!(line, "entry {entry} {shape:?}")?;
    if let Some(member) = &raw.member {
        line.push_str(" at")?;
        show_input(line, member)?;
    }
    show_other(line, &raw.other)?;
    show_proof(line, &raw.proof)
}

fn show_other(line: &mut String, other: &RawOther) -> Result<(), AllocError> {
    match other {
        RawOther::None => Ok(()),
        RawOther::Member(input) => {
            line.push_str(" and at")?;
            show_input(line, input)
        }
        RawOther::Reason(reason) => write!(line, " for {reason:?}"),
    }
}

fn show_proof(line: &mut String, proof: &Proof) -> Result<(), AllocError> {
    match proof {
        Proof::None => Ok(()),
        Proof::Log(log) => show_log(line, " by", log),
        Proof::Spent { log, next } => {
            show_log(line, " spent", log)?;
            match next {
                None => Ok(()),
                Some(next) => {
                    line.push_str(" next")?;
                    show_line(line, next)
                }
            }
        }
    }
}

fn show_log(line: &mut String, word: &str, log: &Log) -> Result<(), AllocError> {
    line.push_str(word)?;
    for each in log.lines() {
        show_line(line, each)?;
    }
    Ok(())
}

/// A line of a log: its literals, and its hints behind `:`.
fn show_line(line: &mut String, shown: &Line) -> Result<(), AllocError> {
    line.push_str(" [")?;
    for lit in shown.clause().lits() {
        let number = lit.0;
        write!(line, "{number} ")?;
    }
    line.push(':')?;
    for hint in shown.hints() {
        write!(line, " {hint}")?;
    }
    line.push(']')
}
