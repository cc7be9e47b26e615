//! A tree of names with each name replaced by its variable's number. It is called only once the names were
//! found right, so each has a number.
ghost use Rattle.std.specs.Prelude.{◌≡◌, ◌≤◌, ◌<◌, true, length, map, sum, IfOk};
ghost use Rattle.std.specs.Option.{option_map};
ghost use Rattle.prv_model.specs.Words.{is_word};
ghost use Rattle.prv_model.specs.Programs.{expr_over, stmt_over, passed, all_true, counted, stmt_count};
ghost use Rattle.prv_parse.specs.Trees.{stmt_count as tree_count, counted as tree_counted};
ghost use Rattle.prv_names.specs.Versions.{variable as variable_of, numbered_expr, numbered};

use crate::names::Names;
use prv_model::{Expr, Name, Stmt};
use prv_parse::{ExprTree, StmtTree};
use sqlite_items::{Boxed, Items};
use std::alloc::{AllocError, Global};

/// The number of a name, and 0 for a name that is not there.
fn variable(names: &Names, name: &Name) -> u8
    requires some { 1 ≤ length names.now }
    requires few { length names.now ≤ 64 }
    ensures number { result ≡ variable_of names.now name.now }
    ensures below { result < length names.now }
{
    match names.number_of(name) {
        Some(number) => number as u8,
        None => 0,
    }
}

/// A numeral, which is a word as each number of this type is.
fn numeral(n: i32) -> Expr
    ensures value { result ≡ Expr.Num n }
    ensures word { is_word n ≡ true }
{
    Expr::Num(n)
}

/// An expression over the numbers of its names.
fn number_expr(alloc: Global, expr: &ExprTree, names: &Names) -> Result<Expr, AllocError>
    requires some { 1 ≤ length names.now }
    requires few { length names.now ≤ 64 }
    ensures number { IfOk result (λ e. e ≡ numbered_expr names.now expr.now) }
    ensures below { IfOk result (λ e. expr_over (length names.now) e ≡ true) }
{
    match expr {
        ExprTree::Num(n) => Ok(numeral(*n)),
        ExprTree::Name(x) => Ok(Expr::Var(variable(names, &x.name))),
        ExprTree::Un(op, a) => {
            let a = number_expr(alloc, a.get(), names)?;
            Ok(Expr::Un(*op, Boxed::new(alloc, a)?))
        }
        ExprTree::Bin(op, a, b) => {
            let a = number_expr(alloc, a.get(), names)?;
            let b = number_expr(alloc, b.get(), names)?;
            Ok(Expr::Bin(*op, Boxed::new(alloc, a)?, Boxed::new(alloc, b)?))
        }
        ExprTree::Pick(test, chosen, other) => {
            let test = number_expr(alloc, test.get(), names)?;
            let chosen = number_expr(alloc, chosen.get(), names)?;
            let other = number_expr(alloc, other.get(), names)?;
            Ok(Expr::Pick(
                Boxed::new(alloc, test)?,
                Boxed::new(alloc, chosen)?,
                Boxed::new(alloc, other)?,
            ))
        }
    }
}

/// A statement over the numbers of its names.
#[cycle(number)]
fn number(alloc: Global, stmt: &StmtTree, names: &Names) -> Result<Stmt, AllocError>
    requires some { 1 ≤ length names.now }
    requires few { length names.now ≤ 64 }
    ensures number { IfOk result (λ s. s ≡ numbered names.now stmt.now) }
    ensures below { IfOk result (λ s. stmt_over (length names.now) s ≡ true) }
    ensures count { IfOk result (λ s. stmt_count s ≡ tree_count stmt.now) }
{
    match stmt {
        StmtTree::Skip => Ok(Stmt::Skip),
        StmtTree::Declare { var, value } => Ok(Stmt::Set {
            var: variable(names, &var.name),
            value: number_expr(alloc, value, names)?,
        }),
        StmtTree::Set { var, value } => Ok(Stmt::Set {
            var: variable(names, &var.name),
            value: number_expr(alloc, value, names)?,
        }),
        StmtTree::If { test, yes, no } => {
            let test = number_expr(alloc, test, names)?;
            let yes = number(alloc, yes.get(), names)?;
            let no = number_else(alloc, no, names)?;
            Ok(Stmt::If {
                test,
                yes: Boxed::new(alloc, yes)?,
                no,
            })
        }
        StmtTree::While { test, body } => {
            let test = number_expr(alloc, test, names)?;
            let body = number(alloc, body.get(), names)?;
            Ok(Stmt::While {
                test,
                body: Boxed::new(alloc, body)?,
            })
        }
        StmtTree::Return(value) => Ok(Stmt::Return(number_expr(alloc, value, names)?)),
        StmtTree::Out(value) => Ok(Stmt::Out(number_expr(alloc, value, names)?)),
        StmtTree::Assert(value) => Ok(Stmt::Assert(number_expr(alloc, value, names)?)),
        StmtTree::Block(all) => Ok(Stmt::Block(number_all(alloc, all.as_slice(), names)?)),
        StmtTree::Marked { mark, body } => {
            let body = number(alloc, body.get(), names)?;
            Ok(Stmt::Marked {
                mark: mark.number,
                body: Boxed::new(alloc, body)?,
            })
        }
    }
}

#[cycle(number)]
fn number_else(
    alloc: Global,
    branch: &Option<Boxed<StmtTree>>,
    names: &Names,
) -> Result<Option<Boxed<Stmt>>, AllocError>
    requires some { 1 ≤ length names.now }
    requires few { length names.now ≤ 64 }
    ensures number { IfOk result (λ o. o ≡ option_map (λ s. numbered names.now s) branch.now) }
    ensures below { IfOk result (λ o. passed (option_map (λ s. stmt_over (length names.now) s) o) ≡ true) }
    ensures count { IfOk result (λ o. counted (option_map (λ s. stmt_count s) o) ≡ tree_counted (option_map (λ s. tree_count s) branch.now)) }
{
    match branch {
        None => Ok(None),
        Some(stmt) => {
            let stmt = number(alloc, stmt.get(), names)?;
            Ok(Some(Boxed::new(alloc, stmt)?))
        }
    }
}

/// The statements of a body over the numbers of their names.
#[cycle(number)]
pub fn number_all(alloc: Global, all: &[StmtTree], names: &Names) -> Result<Items<Stmt>, AllocError>
    requires some { 1 ≤ length names.now }
    requires few { length names.now ≤ 64 }
    ensures number { IfOk result (λ body. body ≡ map (λ s. numbered names.now s) all.now) }
    ensures below { IfOk result (λ body. all_true (map (λ s. stmt_over (length names.now) s) body) ≡ true) }
    ensures count { IfOk result (λ body. sum (map (λ s. stmt_count s) body) ≡ sum (map (λ s. tree_count s) all.now)) }
{
    let mut body = Items::new(alloc);
    for stmt in all {
        body.push(number(alloc, stmt, names)?)?;
    }
    Ok(body)
}
