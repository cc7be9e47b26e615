//! Trees of programs, written with brackets of their own, so that a row shows how a text is grouped.
use crate::tokens::show_bytes;
use prv_parse::{ExprTree, Ident, StmtTree};
use sqlite_items::Boxed;
use std::alloc::AllocError;

/// A name and its place.
pub fn show_ident(line: &mut String, ident: &Ident) -> Result<(), AllocError> {
    show_bytes(line, ident.name.as_bytes())?;
    let place = ident.place;
    write!(line, "@{place}")
}

/// Statements: what a test or an `else` stands before in `< >`, what a mark does in `[ ]`.
#[cycle(show)]
pub fn show_all(line: &mut String, all: &[StmtTree]) -> Result<(), AllocError> {
    for stmt in all {
        show_stmt(line, stmt)?;
    }
    Ok(())
}

#[cycle(show)]
fn show_stmt(line: &mut String, stmt: &StmtTree) -> Result<(), AllocError> {
    match stmt {
        StmtTree::Skip => write!(line, ";"),
        StmtTree::Declare { var, value } => show_set(line, "int ", var, value),
        StmtTree::Set { var, value } => show_set(line, "", var, value),
        StmtTree::If { test, yes, no } => {
            show_around(line, "if(", test, ")<")?;
            show_stmt(line, yes.get())?;
            line.push('>')?;
            show_else(line, no)
        }
        StmtTree::While { test, body } => {
            show_around(line, "while(", test, ")<")?;
            show_stmt(line, body.get())?;
            line.push('>')
        }
        StmtTree::Return(value) => show_around(line, "return ", value, ";"),
        StmtTree::Out(value) => show_around(line, "out(", value, ");"),
        StmtTree::Assert(value) => show_around(line, "assert(", value, ");"),
        StmtTree::Block(all) => {
            write!(line, "{{")?;
            show_all(line, all.as_slice())?;
            write!(line, "}}")
        }
        StmtTree::Marked { mark, body } => {
            let number = mark.number;
            let place = mark.place;
            write!(line, "[{number}@{place} ")?;
            show_stmt(line, body.get())?;
            line.push(']')
        }
    }
}

#[cycle(show)]
fn show_else(line: &mut String, branch: &Option<Boxed<StmtTree>>) -> Result<(), AllocError> {
    match branch {
        None => Ok(()),
        Some(stmt) => {
            write!(line, "else<")?;
            show_stmt(line, stmt.get())?;
            line.push('>')
        }
    }
}

/// `x@PLACE=value;`, with what stands before it.
fn show_set(
    line: &mut String,
    front: &str,
    var: &Ident,
    value: &ExprTree,
) -> Result<(), AllocError> {
    line.push_str(front)?;
    show_ident(line, var)?;
    show_around(line, "=", value, ";")
}

/// An expression, with what stands around it.
fn show_around(
    line: &mut String,
    front: &str,
    expr: &ExprTree,
    behind: &str,
) -> Result<(), AllocError> {
    line.push_str(front)?;
    show_expr(line, expr)?;
    line.push_str(behind)
}

/// An expression, with parentheses around each operator and its operands.
fn show_expr(line: &mut String, expr: &ExprTree) -> Result<(), AllocError> {
    match expr {
        ExprTree::Num(n) => write!(line, "{n}"),
        ExprTree::Name(name) => show_ident(line, name),
        ExprTree::Un(op, a) => {
            write!(line, "({op:?} ")?;
            show_expr(line, a.get())?;
            write!(line, ")")
        }
        ExprTree::Bin(op, a, b) => {
            write!(line, "(")?;
            show_expr(line, a.get())?;
            write!(line, " {op:?} ")?;
            show_expr(line, b.get())?;
            write!(line, ")")
        }
        ExprTree::Pick(test, chosen, other) => {
            write!(line, "(")?;
            show_expr(line, test.get())?;
            write!(line, " ? ")?;
            show_expr(line, chosen.get())?;
            write!(line, " : ")?;
            show_expr(line, other.get())?;
            write!(line, ")")
        }
    }
}
