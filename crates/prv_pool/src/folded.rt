//! What folding an operator over its operands comes to: an operand, a number, or a node that is to be made.
use crate::node::Node;
use prv_model::TermOp;

/// What a folding answers, before its node is made.
#[derive(Clone, Copy, Debug)]
pub enum Folded {
    /// A node that is there.
    Known(u32),
    /// A node over nodes that are there; it may be there itself.
    New(Node),
    /// An operator on a node and the number 0, which may not be there yet.
    WithZero(TermOp, u32),
}
