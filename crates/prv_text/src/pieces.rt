//! The pieces of a term's text, none of which is written past an end.
ghost use Rattle.std.specs.Prelude.{◌≡◌, ◌+◌, ℕ, List, ◌≤◌, ◌++◌, length, take, vec_len, OnOk};
ghost use Rattle.std.specs.Fmt.{signed_decimal};
ghost use Rattle.prv_text.specs.Terms.{symbol as symbol_of, between, cut, name_of};

use itoa::Buffer;
use prv_model::{Name, TermOp};
use std::alloc::AllocError;

/// Writes a piece, but no bytes past `end`.
pub(crate) fn push_capped(out: &mut Vec<u8>, piece: &[u8], end: usize) -> Result<(), AllocError>
    requires { vec_len out.old ≤ end }
    ensures { OnOk result (out.new.items ≡ take end (out.old.items ++ piece.now)) }
{
    let room = end - out.len();
    if piece.len() <= room {
        out.extend_from_slice(piece)
    } else {
        out.extend_from_slice(&piece[..room])
    }
}

/// Writes the name of a parameter, but no bytes past `end`.
pub(crate) fn push_name(
    out: &mut Vec<u8>,
    names: &[Name],
    k: u8,
    end: usize,
) -> Result<(), AllocError>
    requires { vec_len out.old ≤ end }
    ensures { OnOk result (out.new.items ≡ take end (out.old.items ++ name_of names.now k)) }
{
    match names.get(k as usize) {
        None => Ok(()),
        Some(name) => push_capped(out, name.as_bytes(), end),
    }
}

/// Writes a number in decimal, but no bytes past `end`.
pub(crate) fn push_decimal(out: &mut Vec<u8>, n: i32, end: usize) -> Result<(), AllocError>
    requires { vec_len out.old ≤ end }
    ensures { OnOk result (out.new.items ≡ take end (out.old.items ++ signed_decimal n)) }
{
    let mut buffer = Buffer::new();
    push_capped(out, buffer.format(n).as_bytes(), end)
}

/// Writes an operator with a blank on each side, but no bytes past `end`.
pub(crate) fn push_between(out: &mut Vec<u8>, op: TermOp, end: usize) -> Result<(), AllocError>
    requires { vec_len out.old ≤ end }
    ensures { OnOk result (out.new.items ≡ take end (out.old.items ++ between op)) }
{
    push_capped(out, b" ", end)?;
    push_capped(out, symbol(op), end)?;
    push_capped(out, b" ", end)?;
    Ok(())
}

/// Ends a text of which at most one byte past `end` was written: `..` stands where more would come.
pub(crate) fn cut_behind(out: &mut Vec<u8>, end: usize) -> Result<(), AllocError>
    ensures { (old text : List ℕ) (limit : ℕ) → end ≡ length old + limit → out.old.items ≡ take (end + 1) (old ++ text) → OnOk result (out.new.items ≡ old ++ cut limit text) }
{
    if out.len() > end {
        out.truncate(end);
        out.extend_from_slice(b"..")?;
    }
    Ok(())
}

fn symbol(op: TermOp) -> &'static [u8]
    ensures { result.now ≡ symbol_of op }
{
    match op {
        TermOp::Add => b"+",
        TermOp::Sub => b"-",
        TermOp::Mul => b"*",
        TermOp::Div => b"/",
        TermOp::Rem => b"%",
        TermOp::Shl => b"<<",
        TermOp::Shr => b">>",
        TermOp::And => b"&",
        TermOp::Or => b"|",
        TermOp::Xor => b"^",
        TermOp::Lt => b"<",
        TermOp::Le => b"<=",
        TermOp::Eq => b"==",
        TermOp::Ne => b"!=",
    }
}
