//! How many statements each statement of a program is, in text order.
ghost use Rattle.std.specs.Prelude.{◌≡◌, ◌++◌, map, IfOk, OnOk};
ghost use Rattle.prv_model.specs.Numbers.{inside, statements, statements_all};
ghost use Rattle.prv_model.specs.Programs.{stmt_count};

use prv_model::Stmt;
use sqlite_items::Items;
use std::alloc::{AllocError, Global};

/// How many statements each statement of a program is, in text order.
pub fn sizes(alloc: Global, body: &[Stmt]) -> Result<Items<usize>, AllocError>
    ensures { IfOk result (λ sizes. sizes ≡ map (λ s. stmt_count s) (statements_all body.now)) }
{
    let mut sizes = Items::new(alloc);
    push_all(body, &mut sizes)?;
    Ok(sizes)
}

/// Adds the sizes of the statements of a list.
#[cycle(sizes)]
fn push_all(all: &[Stmt], sizes: &mut Items<usize>) -> Result<(), AllocError>
    ensures { OnOk result (sizes.new ≡ sizes.old ++ map (λ s. stmt_count s) (statements_all all.now)) }
{
    for stmt in all {
        push_sizes(stmt, sizes)?;
    }
    Ok(())
}

/// Adds the sizes of a statement and of those inside it.
#[cycle(sizes)]
fn push_sizes(stmt: &Stmt, sizes: &mut Items<usize>) -> Result<(), AllocError>
    ensures { OnOk result (sizes.new ≡ sizes.old ++ map (λ s. stmt_count s) (statements stmt.now)) }
{
    let place = sizes.len();
    sizes.push(0)?;
    push_inside(stmt, sizes)?;
    sizes.set(place, sizes.len() - place);
    Ok(())
}

/// Adds the sizes of the statements inside a statement.
#[cycle(sizes)]
fn push_inside(stmt: &Stmt, sizes: &mut Items<usize>) -> Result<(), AllocError>
    ensures { OnOk result (sizes.new ≡ sizes.old ++ map (λ s. stmt_count s) (inside stmt.now)) }
{
    match stmt {
        Stmt::If { test: _, yes, no } => {
            push_sizes(yes.get(), sizes)?;
            match no {
                None => Ok(()),
                Some(branch) => {
                    push_sizes(branch.get(), sizes)?;
                    Ok(())
                }
            }
        }
        Stmt::While { test: _, body } => {
            push_sizes(body.get(), sizes)?;
            Ok(())
        }
        Stmt::Block(all) => {
            push_all(all.as_slice(), sizes)?;
            Ok(())
        }
        Stmt::Marked { mark: _, body } => {
            push_sizes(body.get(), sizes)?;
            Ok(())
        }
        _ => Ok(()),
    }
}
