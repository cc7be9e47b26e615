//! The text of a node of a table. What is still to be written waits on a stack, so that no text, however deep
//! its parentheses, takes more than memory for the bytes that are written.
ghost use Rattle.std.specs.Prelude.{◌≡◌, ◌<◌, ◌≤◌, ◌++◌, length, take, vec_len, OnOk};
ghost use Rattle.std.specs.List.{AllByRecursion};
ghost use Rattle.prv_pool.specs.Tables.{term_at};
ghost use Rattle.prv_text.specs.Terms.{spelled, term_text, literal_text};
ghost use Rattle.prv_text.specs.Waiting.{IsWithin, piece_text, pieces_of, Goes, is_compound as is_compound_of};

use crate::pieces::{cut_behind, push_between, push_capped, push_decimal, push_name};
use prv_model::{Name, TermOp};
use prv_pool::{Node, Pool};
use std::alloc::AllocError;

/// A piece of a text that is still to be written.
#[derive(Clone, Copy, Debug)]
pub(crate) enum Piece {
    /// The term of a node, as an operand.
    Operand(u32),
    /// An operator, with a blank on each side.
    Between(TermOp),
    /// What stands behind the test of a choice.
    Chosen,
    /// What stands before the other term of a choice.
    Other,
    /// The end of an operand in parentheses.
    Close,
}

/// Writes the text of the term that a node stands for, cut after `limit` bytes: `..` stands where more would come.
///
/// `names` are the names of the parameters. A parameter past them has no text. Time and memory are in proportion
/// to the bytes that are written.
pub fn push_node(
    out: &mut Vec<u8>,
    names: &[Name],
    pool: &Pool,
    node: u32,
    limit: u32,
) -> Result<(), AllocError>
    requires { node < length pool.now.terms }
    ensures { OnOk result (out.new.items ≡ out.old.items ++ term_text limit names.now (term_at pool.now.terms node)) }
{
    let end = out.len() + limit as usize;
    push_pieces(out, names, pool, node, end + 1)?;
    cut_behind(out, end)
}

/// Writes the text of a node's term, but no bytes past `end`.
fn push_pieces(
    out: &mut Vec<u8>,
    names: &[Name],
    pool: &Pool,
    node: u32,
    end: usize,
) -> Result<(), AllocError>
    requires within { node < length pool.now.terms }
    requires room { vec_len out.old ≤ end }
    ensures { OnOk result (out.new.items ≡ take end (out.old.items ++ (spelled names.now (term_at pool.now.terms node)).text)) }
{
    let mut waiting = Vec::new(*out.allocator());
    open(out, &mut waiting, names, pool, node, end)?;
    while out.len() < end {
        let Some(piece) = waiting.pop() else {
            return Ok(());
        };
        push_piece(out, &mut waiting, names, pool, piece, end)?;
    }
    Ok(())
}

/// Writes a piece, or its first bytes while the rest of it waits.
fn push_piece(
    out: &mut Vec<u8>,
    waiting: &mut Vec<Piece>,
    names: &[Name],
    pool: &Pool,
    piece: Piece,
    end: usize,
) -> Result<(), AllocError>
    requires within { IsWithin (length pool.now.terms) piece }
    requires waits { AllByRecursion (IsWithin (length pool.now.terms)) waiting.old.items }
    requires room { vec_len out.old < end }
    ensures { OnOk result (Goes names.now pool.now.terms end 0 out.old.items (piece_text names.now pool.now.terms piece) waiting.old.items out.new.items waiting.new.items) }
{
    match piece {
        Piece::Operand(n) => push_operand(out, waiting, names, pool, n, end),
        Piece::Between(op) => push_between(out, op, end),
        Piece::Chosen => push_capped(out, b" ? ", end),
        Piece::Other => push_capped(out, b" : ", end),
        Piece::Close => push_capped(out, b")", end),
    }
}

/// Writes a node's term as an operand, in parentheses where it is an operator's or a choice.
fn push_operand(
    out: &mut Vec<u8>,
    waiting: &mut Vec<Piece>,
    names: &[Name],
    pool: &Pool,
    node: u32,
    end: usize,
) -> Result<(), AllocError>
    requires within { node < length pool.now.terms }
    requires waits { AllByRecursion (IsWithin (length pool.now.terms)) waiting.old.items }
    requires room { vec_len out.old < end }
    ensures { OnOk result (Goes names.now pool.now.terms end 0 out.old.items (piece_text names.now pool.now.terms (Piece.Operand node)) waiting.old.items out.new.items waiting.new.items) }
{
    if is_compound(pool.node(node)) {
        push_capped(out, b"(", end)?;
        waiting.push(Piece::Close)?;
        open(out, waiting, names, pool, node, end)
    } else {
        open(out, waiting, names, pool, node, end)
    }
}

/// Writes a parameter or a number; of another term the pieces wait.
fn open(
    out: &mut Vec<u8>,
    waiting: &mut Vec<Piece>,
    names: &[Name],
    pool: &Pool,
    node: u32,
    end: usize,
) -> Result<(), AllocError>
    requires within { node < length pool.now.terms }
    requires waits { AllByRecursion (IsWithin (length pool.now.terms)) waiting.old.items }
    requires room { vec_len out.old ≤ end }
    ensures { OnOk result (Goes names.now pool.now.terms end (pieces_of (spelled names.now (term_at pool.now.terms node))) out.old.items (spelled names.now (term_at pool.now.terms node)).text waiting.old.items out.new.items waiting.new.items) }
{
    match pool.node(node) {
        Node::Param(k) => push_name(out, names, k, end),
        Node::Num(n) => push_decimal(out, n, end),
        Node::Op(op, a, b) => waiting.extend_from_slice(&[
            Piece::Operand(b),
            Piece::Between(op),
            Piece::Operand(a),
        ]),
        Node::Pick(test, chosen, other) => waiting.extend_from_slice(&[
            Piece::Operand(other),
            Piece::Other,
            Piece::Operand(chosen),
            Piece::Chosen,
            Piece::Operand(test),
        ]),
    }
}

/// Whether a node's term stands in parentheses as an operand.
fn is_compound(node: Node) -> bool
    ensures { result ≡ is_compound_of node }
{
    match node {
        Node::Param(_) | Node::Num(_) => false,
        Node::Op(_, _, _) | Node::Pick(_, _, _) => true,
    }
}
