//! What each statement of a program evaluates itself, by the number of the statement.
ghost use Rattle.std.specs.Prelude.{◌≡◌, ◌++◌, map, IfOk, OnOk};
ghost use Rattle.prv_model.specs.Numbers.{inside, statements, statements_all};
ghost use Rattle.prv_sym.specs.Walks.{own as own_of, row_of, row_at};

use prv_model::{Expr, Stmt};
use sqlite_items::{Items, at};
use std::alloc::{AllocError, Global};

/// What a statement evaluates itself: an expression, and the variable that it sets, if it sets one.
#[derive(Clone, Copy)]
pub struct Evaluation<'a> {
    pub expr: &'a Expr,
    pub sets: Option<u8>,
}

/// What each statement of a program evaluates itself, if anything, by its number.
pub fn evaluations<'a>(
    alloc: Global,
    body: &'a [Stmt],
) -> Result<Items<Option<Evaluation<'a>>>, AllocError>
    ensures { IfOk result (λ rows. map row_of rows ≡ map (λ s. own_of s) (statements_all body.now)) }
{
    let mut rows = Items::new(alloc);
    push_all(body, &mut rows)?;
    Ok(rows)
}

/// What the statement with this number evaluates, if anything.
pub fn row<'a>(rows: &[Option<Evaluation<'a>>], stmt: u32) -> Option<Evaluation<'a>>
    ensures { row_of result ≡ row_at (map row_of rows.now) stmt }
{
    at(rows, stmt as usize).copied().unwrap_or(None)
}

/// Adds the rows of the statements of a list.
#[cycle(statements)]
fn push_all<'a>(all: &'a [Stmt], rows: &mut Items<Option<Evaluation<'a>>>) -> Result<(), AllocError>
    ensures { OnOk result (map row_of rows.new ≡ map row_of rows.old ++ map (λ s. own_of s) (statements_all all.now)) }
{
    for stmt in all {
        push(stmt, rows)?;
    }
    Ok(())
}

/// Adds the rows of a statement and of those inside it.
#[cycle(statements)]
fn push<'a>(stmt: &'a Stmt, rows: &mut Items<Option<Evaluation<'a>>>) -> Result<(), AllocError>
    ensures { OnOk result (map row_of rows.new ≡ map row_of rows.old ++ map (λ s. own_of s) (statements stmt.now)) }
{
    rows.push(own(stmt))?;
    push_inside(stmt, rows)?;
    Ok(())
}

/// Adds the rows of the statements inside a statement.
#[cycle(statements)]
fn push_inside<'a>(
    stmt: &'a Stmt,
    rows: &mut Items<Option<Evaluation<'a>>>,
) -> Result<(), AllocError>
    ensures { OnOk result (map row_of rows.new ≡ map row_of rows.old ++ map (λ s. own_of s) (inside stmt.now)) }
{
    match stmt {
        Stmt::If { test: _, yes, no } => {
            push(yes.get(), rows)?;
            match no {
                None => Ok(()),
                Some(branch) => {
                    push(branch.get(), rows)?;
                    Ok(())
                }
            }
        }
        Stmt::While { test: _, body } => {
            push(body.get(), rows)?;
            Ok(())
        }
        Stmt::Block(all) => {
            push_all(all.as_slice(), rows)?;
            Ok(())
        }
        Stmt::Marked { mark: _, body } => {
            push(body.get(), rows)?;
            Ok(())
        }
        _ => Ok(()),
    }
}

/// What a statement evaluates itself.
fn own(stmt: &Stmt) -> Option<Evaluation<'_>>
    ensures { row_of result ≡ own_of stmt.now }
{
    match stmt {
        Stmt::Skip => None,
        Stmt::Set { var, value } => evaluates(value, Some(*var)),
        Stmt::If {
            test,
            yes: _,
            no: _,
        } => evaluates(test, None),
        Stmt::While { test, body: _ } => evaluates(test, None),
        Stmt::Return(value) => evaluates(value, None),
        Stmt::Out(value) => evaluates(value, None),
        Stmt::Assert(value) => evaluates(value, None),
        Stmt::Block(_) => None,
        Stmt::Marked { mark: _, body: _ } => None,
    }
}

/// An expression that a statement evaluates, and the variable that it sets, if it sets one.
fn evaluates(expr: &Expr, sets: Option<u8>) -> Option<Evaluation<'_>>
    ensures { row_of result ≡ Some (record { expr = expr.now; sets = sets }) }
{
    Some(Evaluation { expr, sets })
}
