//! The marks of a tree, in text order, each with whether it stands inside another. Whether a pair may use them
//! so is decided where two versions are at hand.
ghost use Rattle.std.specs.Prelude.{◌≡◌, ◌++◌, [], map, IfOk, OnOk};
ghost use Rattle.prv_names.specs.Versions.{marks as marks_by, marks_else, in_order, marks_of};

use crate::version::MarkAt;
use prv_parse::StmtTree;
use sqlite_items::{Boxed, Items};
use std::alloc::{AllocError, Global};

/// The marks of a body, in the order of the text.
pub fn marks(alloc: Global, body: &[StmtTree]) -> Result<Items<MarkAt>, AllocError>
    ensures { IfOk result (λ all. all ≡ marks_of body.now) }
{
    let mut out = Items::new(alloc);
    push_all(body, false, &mut out)?;
    Ok(out)
}

#[cycle(push)]
fn push(stmt: &StmtTree, inside: bool, out: &mut Items<MarkAt>) -> Result<(), AllocError>
    ensures { OnOk result (out.new ≡ out.old ++ marks_by stmt.now inside) }
{
    match stmt {
        StmtTree::If { test: _, yes, no } => {
            push(yes.get(), inside, out)?;
            push_else(no, inside, out)
        }
        StmtTree::While { test: _, body } => push(body.get(), inside, out),
        StmtTree::Block(all) => push_all(all.as_slice(), inside, out),
        StmtTree::Marked { mark, body } => {
            out.push(MarkAt {
                mark: mark.number,
                place: mark.place,
                inside,
            })?;
            push(body.get(), true, out)
        }
        _ => Ok(()),
    }
}

#[cycle(push)]
fn push_else(
    branch: &Option<Boxed<StmtTree>>,
    inside: bool,
    out: &mut Items<MarkAt>,
) -> Result<(), AllocError>
    ensures { OnOk result (out.new ≡ out.old ++ marks_else branch.now inside) }
{
    match branch {
        None => Ok(()),
        Some(stmt) => push(stmt.get(), inside, out),
    }
}

#[cycle(push)]
fn push_all(all: &[StmtTree], inside: bool, out: &mut Items<MarkAt>) -> Result<(), AllocError>
    ensures { OnOk result (out.new ≡ out.old ++ in_order (map (λ s. marks_by s) all.now) inside) }
{
    for stmt in all {
        push(stmt, inside, out)?;
    }
    Ok(())
}
