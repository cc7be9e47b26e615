//! The nodes of one pool by their numbers in another.
ghost use Rattle.std.specs.Prelude.{◌≡◌, ◌<◌, true, length};
ghost use Rattle.prv_pool.specs.Folding.{is_folded};
ghost use Rattle.prv_pool.specs.Tables.{term_at};
ghost use Rattle.prv_region.specs.Numbers.{Stands, Renumbers, number_at as number_at_of, renumbered as renumbered_of};

use prv_pool::{Node, Pool};
use sqlite_items::at;

/// What becomes of a node whose operands get other numbers.
pub enum Renumbering {
    /// The node with the new numbers.
    Ready(Node),
    /// The first operand that has no new number.
    Lacks(u32),
}

/// The new number of a node, if it has one.
pub(crate) fn number_at(numbers: &[Option<u32>], n: u32) -> Option<u32>
    ensures { result ≡ number_at_of numbers.now n }
{
    at(numbers, n as usize).copied().unwrap_or(None)
}

/// A node with the new numbers of its operands.
pub(crate) fn renumbered(numbers: &[Option<u32>], node: Node) -> Renumbering
    ensures { result ≡ renumbered_of numbers.now node }
{
    match node {
        Node::Param(k) => Renumbering::Ready(Node::Param(k)),
        Node::Num(n) => Renumbering::Ready(Node::Num(n)),
        Node::Op(op, a, b) => match number_at(numbers, a) {
            None => Renumbering::Lacks(a),
            Some(x) => match number_at(numbers, b) {
                None => Renumbering::Lacks(b),
                Some(y) => Renumbering::Ready(Node::Op(op, x, y)),
            },
        },
        Node::Pick(test, a, b) => match number_at(numbers, test) {
            None => Renumbering::Lacks(test),
            Some(u) => match number_at(numbers, a) {
                None => Renumbering::Lacks(a),
                Some(x) => match number_at(numbers, b) {
                    None => Renumbering::Lacks(b),
                    Some(y) => Renumbering::Ready(Node::Pick(u, x, y)),
                },
            },
        },
    }
}

/// A node of one pool with the numbers of its operands in another.
pub(crate) fn node_in(into: &Pool, from: &Pool, numbers: &[Option<u32>], n: u32) -> Renumbering
    requires within { n < length from.now.terms }
    requires stands { Stands from.now.terms into.now.terms numbers.now }
    ensures renumbers { Renumbers from.now.terms into.now.terms numbers.now n result }
    ensures folded { is_folded (term_at from.now.terms n) ≡ true }
{
    into.keeps_a_table();
    renumbered(numbers, from.node(n))
}
