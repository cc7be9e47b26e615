//! The text of a term, made with a limit: a few shared nodes can stand for a text of gigabytes.
ghost use Rattle.std.specs.Prelude.{◌≡◌, ℕ, List, ◌≤◌, ◌++◌, take, vec_len, OnOk};
ghost use Rattle.prv_text.specs.Terms.{spelled, operand, term_text, literal_text};

use crate::pieces::{cut_behind, push_between, push_capped, push_decimal, push_name};
use prv_model::{Name, Term};
use std::alloc::AllocError;

/// The greatest length of a literal's text in bytes; a longer one is cut there.
pub(crate) const LITERAL_BYTES: u32 = 80;

/// Writes the text of a literal, cut after 80 bytes.
pub fn push_literal(out: &mut Vec<u8>, names: &[Name], term: &Term) -> Result<(), AllocError>
    ensures { OnOk result (out.new.items ≡ out.old.items ++ literal_text names.now term.now) }
{
    push_term(out, names, term, LITERAL_BYTES)
}

/// Writes the text of a term, cut after `limit` bytes: `..` stands where more would come.
///
/// `names` are the names of the parameters. A parameter past them has no text.
pub fn push_term(
    out: &mut Vec<u8>,
    names: &[Name],
    term: &Term,
    limit: u32,
) -> Result<(), AllocError>
    ensures { OnOk result (out.new.items ≡ out.old.items ++ term_text limit names.now term.now) }
{
    let end = out.len() + limit as usize;
    push_spelled(out, names, term, end + 1)?;
    cut_behind(out, end)
}

/// Writes the text of a term, but no bytes past `end`.
#[cycle(term)]
fn push_spelled(
    out: &mut Vec<u8>,
    names: &[Name],
    term: &Term,
    end: usize,
) -> Result<(), AllocError>
    requires { vec_len out.old ≤ end }
    ensures { OnOk result (out.new.items ≡ take end (out.old.items ++ (spelled names.now term.now).text)) }
{
    if out.len() == end {
        return Ok(());
    }
    match term {
        Term::Param(k) => push_name(out, names, *k, end),
        Term::Op(op, a, b) => {
            push_operand(out, names, a.get(), end)?;
            push_between(out, *op, end)?;
            push_operand(out, names, b.get(), end)?;
            Ok(())
        }
        Term::Pick(test, chosen, other) => {
            push_operand(out, names, test.get(), end)?;
            push_capped(out, b" ? ", end)?;
            push_operand(out, names, chosen.get(), end)?;
            push_capped(out, b" : ", end)?;
            push_operand(out, names, other.get(), end)?;
            Ok(())
        }
        Term::Num(n) => push_decimal(out, *n, end),
    }
}

/// Writes a term as an operand, in parentheses where it is an operator's or a choice.
#[cycle(term)]
fn push_operand(
    out: &mut Vec<u8>,
    names: &[Name],
    term: &Term,
    end: usize,
) -> Result<(), AllocError>
    requires { vec_len out.old ≤ end }
    ensures { OnOk result (out.new.items ≡ take end (out.old.items ++ operand (spelled names.now term.now))) }
{
    if is_compound(term) {
        push_capped(out, b"(", end)?;
        push_spelled(out, names, term, end)?;
        push_capped(out, b")", end)?;
        Ok(())
    } else {
        push_spelled(out, names, term, end)
    }
}

/// Whether a term stands in parentheses as an operand.
fn is_compound(term: &Term) -> bool
    ensures { (names : List (List ℕ)) → result ≡ (spelled names term.now).compound }
{
    match term {
        Term::Param(_) | Term::Num(_) => false,
        Term::Op(_, _, _) | Term::Pick(_, _, _) => true,
    }
}
