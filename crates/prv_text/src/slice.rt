//! The text of a slice, whose terms are nodes of a table.
ghost use Rattle.std.specs.Prelude.{◌≡◌, ◌<◌, ◌++◌, length, map, All, IfOk, OnOk, flat_map, codes, decimal};
ghost use Rattle.prv_pool.specs.Tables.{term_at};
ghost use Rattle.prv_text.specs.Lines.{line};
ghost use Rattle.prv_text.specs.Terms.{term_text, literal_text};
ghost use Rattle.prv_text.specs.Entries.{marks_text};
ghost use Rattle.prv_text.specs.Outcomes.{last_text, ending_text, end_lines};
ghost use Rattle.prv_text.specs.Slices.{out_text, slice_text as text_of};

use crate::entry::push_marks;
use crate::node::push_node;
use crate::number::push_number;
use crate::outcome::{ending_word, put_before};
use crate::term::LITERAL_BYTES;
use prv_model::{Ending, Name};
use prv_pool::Pool;
use std::alloc::{AllocError, Global};

/// The greatest length of the text of what is put out, in bytes; a longer one is cut there.
const OUT_BYTES: u32 = 65_536;

/// The text of a slice: its literals, what is put out and how the program ends where they hold, and its marks.
///
/// `names` are the names of the parameters. A literal is cut after 80 bytes, a term that is put out after 65,536:
/// `..` stands where more would come.
pub fn slice_text(
    alloc: Global,
    names: &[Name],
    pool: &Pool,
    literals: &[u32],
    outs: &[u32],
    how: Ending,
    marks: &[u8],
) -> Result<Vec<u8>, AllocError>
    requires literals { All (λ n. n < length pool.now.terms) literals.now }
    requires outs { All (λ n. n < length pool.now.terms) outs.now }
    ensures { IfOk result (λ text. text.items ≡ text_of names.now (map (term_at pool.now.terms) literals.now) (map (term_at pool.now.terms) outs.now) how marks.now) }
{
    let mut out = Vec::new(alloc);
    push_count(&mut out, literals.len())?;
    push_literals(&mut out, names, pool, literals)?;
    push_end(&mut out, names, pool, how, outs)?;
    push_marks_line(&mut out, marks)?;
    Ok(out)
}

/// Writes the line of the count of literals.
fn push_count(out: &mut Vec<u8>, count: usize) -> Result<(), AllocError>
    ensures { OnOk result (out.new.items ≡ out.old.items ++ line (codes "literals " ++ decimal count)) }
{
    out.extend_from_slice(b"literals ")?;
    push_number(out, count)?;
    out.push(b'\n')?;
    Ok(())
}

/// Writes the line of the marks.
fn push_marks_line(out: &mut Vec<u8>, marks: &[u8]) -> Result<(), AllocError>
    ensures { OnOk result (out.new.items ≡ out.old.items ++ line (codes "marks " ++ marks_text marks.now)) }
{
    out.extend_from_slice(b"marks ")?;
    push_marks(out, marks)?;
    out.push(b'\n')?;
    Ok(())
}

/// Writes a line for each term that is put out, and one for the end.
fn push_end(
    out: &mut Vec<u8>,
    names: &[Name],
    pool: &Pool,
    how: Ending,
    outs: &[u32],
) -> Result<(), AllocError>
    requires { All (λ n. n < length pool.now.terms) outs.now }
    ensures { OnOk result (out.new.items ≡ out.old.items ++ end_lines (λ n. out_text names.now (term_at pool.now.terms n)) how outs.now) }
{
    push_outs(out, names, pool, put_before(how, outs))?;
    push_ending(out, names, pool, how, outs)?;
    out.push(b'\n')?;
    Ok(())
}

/// Writes a line for each literal.
fn push_literals(
    out: &mut Vec<u8>,
    names: &[Name],
    pool: &Pool,
    literals: &[u32],
) -> Result<(), AllocError>
    requires { All (λ n. n < length pool.now.terms) literals.now }
    ensures { OnOk result (out.new.items ≡ out.old.items ++ flat_map (λ n. line (literal_text names.now (term_at pool.now.terms n))) literals.now) }
{
    for literal in literals {
        push_line(out, names, pool, b"", *literal, LITERAL_BYTES)?;
    }
    Ok(())
}

/// Writes a line for each term that is put out.
fn push_outs(out: &mut Vec<u8>, names: &[Name], pool: &Pool, outs: &[u32]) -> Result<(), AllocError>
    requires { All (λ n. n < length pool.now.terms) outs.now }
    ensures { OnOk result (out.new.items ≡ out.old.items ++ flat_map (λ n. line (codes "out " ++ out_text names.now (term_at pool.now.terms n))) outs.now) }
{
    for node in outs {
        push_line(out, names, pool, b"out ", *node, OUT_BYTES)?;
    }
    Ok(())
}

/// Writes the line of a node's term behind a label.
fn push_line(
    out: &mut Vec<u8>,
    names: &[Name],
    pool: &Pool,
    label: &[u8],
    node: u32,
    limit: u32,
) -> Result<(), AllocError>
    requires { node < length pool.now.terms }
    ensures { OnOk result (out.new.items ≡ out.old.items ++ line (label.now ++ term_text limit names.now (term_at pool.now.terms node))) }
{
    out.extend_from_slice(label)?;
    push_node(out, names, pool, node, limit)?;
    out.push(b'\n')?;
    Ok(())
}

/// Writes how the program ends, with the term that it returns.
fn push_ending(
    out: &mut Vec<u8>,
    names: &[Name],
    pool: &Pool,
    how: Ending,
    outs: &[u32],
) -> Result<(), AllocError>
    requires { All (λ n. n < length pool.now.terms) outs.now }
    ensures { OnOk result (out.new.items ≡ out.old.items ++ ending_text how (last_text (λ n. out_text names.now (term_at pool.now.terms n)) outs.now)) }
{
    out.extend_from_slice(ending_word(how))?;
    match how {
        Ending::Returned => push_last(out, names, pool, outs),
        _ => Ok(()),
    }
}

/// Writes the last of some terms that are put out.
fn push_last(out: &mut Vec<u8>, names: &[Name], pool: &Pool, outs: &[u32]) -> Result<(), AllocError>
    requires { All (λ n. n < length pool.now.terms) outs.now }
    ensures { OnOk result (out.new.items ≡ out.old.items ++ last_text (λ n. out_text names.now (term_at pool.now.terms n)) outs.now) }
{
    match outs.last() {
        None => Ok(()),
        Some(node) => push_node(out, names, pool, *node, OUT_BYTES),
    }
}
