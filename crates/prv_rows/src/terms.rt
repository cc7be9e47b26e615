//! Terms of a table's nodes, written out with all parentheses, so that a row shows their form and not how
//! reports print them.
use prv_pool::{Node, Pool};
use std::alloc::AllocError;

/// The term of a node, with parentheses around each operator and its operands. A number that no node has gives nothing.
pub fn show_term(line: &mut String, pool: &Pool, n: u32) -> Result<(), AllocError> {
    if n >= pool.len() {
        return Ok(());
    }
    match pool.node(n) {
        Node::Param(k) => line.push(char::from(b'a'.wrapping_add(k))),
        Node::Num(value) => write!(line, "{value}"),
        Node::Op(op, a, b) => {
            write!(line, "(")?;
            show_term(line, pool, a)?;
            write!(line, " {op:?} ")?;
            show_term(line, pool, b)?;
            write!(line, ")")
        }
        Node::Pick(test, chosen, other) => {
            write!(line, "(")?;
            show_term(line, pool, test)?;
            write!(line, " ? ")?;
            show_term(line, pool, chosen)?;
            write!(line, " : ")?;
            show_term(line, pool, other)?;
            write!(line, ")")
        }
    }
}
