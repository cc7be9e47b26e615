//! A program as it is written, which is what the parser hands on: names aren't resolved yet.

ghost use Rattle.std.proofs.Props.{props};
ghost use Rattle.prv_parse.specs.Trees.{IsTree};

use crate::tree::{Ident, StmtTree};
use prv_rule::Skel;
use sqlite_items::Items;

/// A program as it is written, with names in place of variables, and its skeleton.
///
/// It has a parameter, and its parameters, its variables with them and its statements are each fewer than
/// 2^31.
#[derive(Debug, Drop)]
pub struct Tree {
    /// The names of the parameters.
    pub params: Items<Ident>,
    /// What stands in the braces of `main`.
    pub body: Items<StmtTree>,
    /// The tokens, with one hole for each outermost mark.
    pub skeleton: Items<Skel>,
    pub ghost kept: { IsTree params body } by { Prim.hlevel props },
}
