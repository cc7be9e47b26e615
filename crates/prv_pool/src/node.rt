//! Nodes: terms whose operands are numbers of other nodes, so that a shared term stands once.
ghost use Rattle.std.specs.Prelude.{◌≡◌, pos};
ghost use Rattle.std.specs.Option.{option_map};
ghost use Rattle.prv_model.specs.Terms.{total as total_of};
ghost use Rattle.prv_pool.specs.Folding.{compares as compares_of, joins as joins_of};
ghost use Rattle.prv_pool.specs.Nodes.{node_number, node_compares, node_rank};

use prv_model::{TermOp, total};

/// One term of a pool, with the numbers of its operands.
#[derive(Clone, Copy, Debug, PartialEq, Eq, Hash)]
pub enum Node {
    /// A parameter, by its number.
    Param(u8),
    Num(i32),
    Op(TermOp, u32, u32),
    /// The second where the first is nonzero, else the third.
    Pick(u32, u32, u32),
}

impl Node {
    /// The number that the node is, if it is one.
    pub(crate) fn number(self) -> Option<i32>
        ensures { result ≡ node_number self }
    {
        match self {
            Node::Num(n) => Some(n),
            _ => None,
        }
    }

    /// The number that says whether the node is 0, if it is a number.
    pub(crate) fn zero_test(self) -> Option<Node>
        ensures { result ≡ option_map (λ n. Node.Num (total_of TermOp.Eq n (pos 0))) (node_number self) }
    {
        let n = self.number()?;
        Some(Node::Num(total(TermOp::Eq, n, 0)))
    }

    /// Whether the node is a comparison.
    pub(crate) fn is_comparison(self) -> bool
        ensures { result ≡ node_compares self }
    {
        match self {
            Node::Op(op, _, _) => compares(op),
            _ => false,
        }
    }

    /// Where the node's constructor stands in the order of terms.
    pub(crate) fn rank(self) -> u8
        ensures { result ≡ node_rank self }
    {
        match self {
            Node::Param(_) => 0,
            Node::Op(op, _, _) => op.rank(),
            Node::Pick(_, _, _) => 15,
            Node::Num(_) => 16,
        }
    }
}

/// Whether an operator compares.
pub(crate) fn compares(op: TermOp) -> bool
    ensures { result ≡ compares_of op }
{
    matches!(op, TermOp::Lt | TermOp::Le | TermOp::Eq | TermOp::Ne)
}

/// Whether an operator joins truths to a truth.
pub(crate) fn joins(op: TermOp) -> bool
    ensures { result ≡ joins_of op }
{
    matches!(op, TermOp::And | TermOp::Or | TermOp::Xor)
}
