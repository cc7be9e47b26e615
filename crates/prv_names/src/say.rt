//! A tree as what its text says of names and blocks, one thing after another. Scoping is a matter of the text's
//! order, so its rules are stated and tested over this list and not over the tree.
ghost use Rattle.std.specs.Prelude.{◌≡◌, ◌++◌, ◌∷◌, [], map, IfOk, OnOk};
ghost use Rattle.prv_names.specs.Sayings.{joined, uses, said as said_by, said_else, declared_by, said_of};

use crate::said::Said;
use prv_parse::{ExprTree, Ident, StmtTree};
use sqlite_items::{Boxed, Items};
use std::alloc::{AllocError, Global};

/// What a program says of names and blocks, in the order of its text.
pub fn say(alloc: Global, params: &[Ident], body: &[StmtTree]) -> Result<Items<Said>, AllocError>
    ensures { IfOk result (λ all. all ≡ said_of params.now body.now) }
{
    let mut out = Items::new(alloc);
    say_params(alloc, params, &mut out)?;
    say_all(alloc, body, &mut out)?;
    Ok(out)
}

fn say_params(alloc: Global, params: &[Ident], out: &mut Items<Said>) -> Result<(), AllocError>
    ensures { OnOk result (out.new ≡ out.old ++ joined (map (λ x. declared_by x []) params.now)) }
{
    for x in params {
        out.push(Said::Declares(copy(alloc, x)?))?;
        out.push(Said::Enters(x.name.copy(alloc)?))?;
    }
    Ok(())
}

fn copy(alloc: Global, x: &Ident) -> Result<Ident, AllocError>
    ensures { IfOk result (λ same. same ≡ x.now) }
{
    Ok(Ident {
        name: x.name.copy(alloc)?,
        place: x.place,
    })
}

fn say_expr(alloc: Global, expr: &ExprTree, out: &mut Items<Said>) -> Result<(), AllocError>
    ensures { OnOk result (out.new ≡ out.old ++ uses expr.now) }
{
    match expr {
        ExprTree::Num(_) => Ok(()),
        ExprTree::Name(x) => out.push(Said::Uses(copy(alloc, x)?)),
        ExprTree::Un(_, a) => say_expr(alloc, a.get(), out),
        ExprTree::Bin(_, a, b) => {
            say_expr(alloc, a.get(), out)?;
            say_expr(alloc, b.get(), out)
        }
        ExprTree::Pick(test, chosen, other) => {
            say_expr(alloc, test.get(), out)?;
            say_expr(alloc, chosen.get(), out)?;
            say_expr(alloc, other.get(), out)
        }
    }
}

fn say_declaration(
    alloc: Global,
    var: &Ident,
    value: &ExprTree,
    out: &mut Items<Said>,
) -> Result<(), AllocError>
    ensures { OnOk result (out.new ≡ out.old ++ declared_by var.now (uses value.now)) }
{
    out.push(Said::Declares(copy(alloc, var)?))?;
    say_expr(alloc, value, out)?;
    out.push(Said::Enters(var.name.copy(alloc)?))
}

fn say_set(
    alloc: Global,
    var: &Ident,
    value: &ExprTree,
    out: &mut Items<Said>,
) -> Result<(), AllocError>
    ensures { OnOk result (out.new ≡ out.old ++ Said.Uses var.now ∷ uses value.now) }
{
    out.push(Said::Uses(copy(alloc, var)?))?;
    say_expr(alloc, value, out)
}

#[cycle(say)]
fn say_stmt(alloc: Global, stmt: &StmtTree, out: &mut Items<Said>) -> Result<(), AllocError>
    ensures { OnOk result (out.new ≡ out.old ++ said_by stmt.now) }
{
    match stmt {
        StmtTree::Skip => Ok(()),
        StmtTree::Declare { var, value } => say_declaration(alloc, var, value, out),
        StmtTree::Set { var, value } => say_set(alloc, var, value, out),
        StmtTree::If { test, yes, no } => {
            say_expr(alloc, test, out)?;
            say_stmt(alloc, yes.get(), out)?;
            say_else(alloc, no, out)
        }
        StmtTree::While { test, body } => {
            say_expr(alloc, test, out)?;
            say_stmt(alloc, body.get(), out)
        }
        StmtTree::Return(value) => say_expr(alloc, value, out),
        StmtTree::Out(value) => say_expr(alloc, value, out),
        StmtTree::Assert(value) => say_expr(alloc, value, out),
        StmtTree::Block(all) => {
            out.push(Said::Opens)?;
            say_all(alloc, all.as_slice(), out)?;
            out.push(Said::Closes)
        }
        StmtTree::Marked { mark: _, body } => say_stmt(alloc, body.get(), out),
    }
}

#[cycle(say)]
fn say_else(
    alloc: Global,
    branch: &Option<Boxed<StmtTree>>,
    out: &mut Items<Said>,
) -> Result<(), AllocError>
    ensures { OnOk result (out.new ≡ out.old ++ said_else branch.now) }
{
    match branch {
        None => Ok(()),
        Some(stmt) => say_stmt(alloc, stmt.get(), out),
    }
}

#[cycle(say)]
fn say_all(alloc: Global, all: &[StmtTree], out: &mut Items<Said>) -> Result<(), AllocError>
    ensures { OnOk result (out.new ≡ out.old ++ joined (map (λ s. said_by s) all.now)) }
{
    for stmt in all {
        say_stmt(alloc, stmt, out)?;
    }
    Ok(())
}
