//! The line of an entry: its number, what is claimed, and of which inputs.
ghost use Rattle.std.specs.Prelude.{◌≡◌, ◌++◌, OnOk, codes, decimal, flat_map};
ghost use Rattle.std.specs.Fmt.{signed_decimal};
ghost use Rattle.prv_text.specs.Entries.{marks_text, words_text, reason_text, kind_text, entry_line};

use crate::literals::{Literals, push_condition};
use crate::number::push_number;
use prv_model::{Entry, Kind, Name, Reason};
use std::alloc::AllocError;

/// Writes the line of an entry.
///
/// `names` are the names of the parameters.
pub fn push_entry(out: &mut Vec<u8>, names: &[Name], entry: &Entry) -> Result<(), AllocError>
    ensures { OnOk result (out.new.items ≡ out.old.items ++ entry_line names.now entry.now) }
{
    push_line(
        out,
        names,
        entry.number,
        &entry.kind,
        entry.marks.as_slice(),
        &entry.terms,
    )
}

/// Writes the line of the entry with this number, this claim and these marks, whose literals these are.
///
/// `names` are the names of the parameters. Time and memory are in proportion to the bytes that are written.
pub(crate) fn push_line<L: Literals>(
    out: &mut Vec<u8>,
    names: &[Name],
    number: u32,
    kind: &Kind,
    marks: &[u8],
    literals: &L,
) -> Result<(), AllocError>
    ensures { OnOk result (out.new.items ≡ out.old.items ++ entry_line names.now (record { number = number; terms = L.terms literals.now; kind = kind.now; marks = marks.now })) }
{
    push_number(out, number)?;
    out.push(b' ')?;
    push_kind(out, kind, marks)?;
    out.extend_from_slice(b": ")?;
    push_condition(out, names, literals)?;
    out.push(b'\n')?;
    Ok(())
}

/// Writes a claim, with the marks of its entry.
fn push_kind(out: &mut Vec<u8>, kind: &Kind, marks: &[u8]) -> Result<(), AllocError>
    ensures { OnOk result (out.new.items ≡ out.old.items ++ kind_text kind.now marks.now) }
{
    match kind {
        Kind::Same => {
            out.extend_from_slice(b"same marks ")?;
            push_marks(out, marks)?;
            Ok(())
        }
        Kind::Different { sample } => {
            out.extend_from_slice(b"different at ")?;
            push_words(out, sample.as_slice())?;
            out.extend_from_slice(b" marks ")?;
            push_marks(out, marks)?;
            Ok(())
        }
        Kind::Empty => out.extend_from_slice(b"empty"),
        Kind::Beyond => {
            out.extend_from_slice(b"beyond marks ")?;
            push_marks(out, marks)?;
            Ok(())
        }
        Kind::Unexplored => out.extend_from_slice(b"open"),
        Kind::Undecided { reason } => {
            out.extend_from_slice(b"undecided ")?;
            push_reason(out, *reason)
        }
    }
}

fn push_reason(out: &mut Vec<u8>, reason: Reason) -> Result<(), AllocError>
    ensures { OnOk result (out.new.items ≡ out.old.items ++ reason_text reason) }
{
    match reason {
        Reason::Lines { budget } => {
            out.extend_from_slice(b"lines ")?;
            push_number(out, budget)
        }
        Reason::Numbers { lines } => {
            out.extend_from_slice(b"numbers ")?;
            push_number(out, lines)
        }
        Reason::Clauses { count } => {
            out.extend_from_slice(b"clauses ")?;
            push_number(out, count)
        }
        Reason::Wide => out.extend_from_slice(b"nodes"),
        Reason::Literals => out.extend_from_slice(b"literals"),
    }
}

/// Writes marks, or the word for none.
pub fn push_marks(out: &mut Vec<u8>, marks: &[u8]) -> Result<(), AllocError>
    ensures { OnOk result (out.new.items ≡ out.old.items ++ marks_text marks.now) }
{
    let Some((first, rest)) = marks.split_first() else {
        out.extend_from_slice(b"none")?;
        return Ok(());
    };
    push_number(out, *first)?;
    for mark in rest {
        out.push(b',')?;
        push_number(out, *mark)?;
    }
    Ok(())
}

fn push_words(out: &mut Vec<u8>, words: &[i32]) -> Result<(), AllocError>
    ensures { OnOk result (out.new.items ≡ out.old.items ++ words_text words.now) }
{
    let Some((first, rest)) = words.split_first() else {
        return Ok(());
    };
    push_word(out, first)?;
    for word in rest {
        out.push(b' ')?;
        push_word(out, word)?;
    }
    Ok(())
}

fn push_word(out: &mut Vec<u8>, word: &i32) -> Result<(), AllocError>
    ensures { OnOk result (out.new.items ≡ out.old.items ++ signed_decimal word.now) }
{
    push_number(out, *word)
}
