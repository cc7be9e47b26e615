//! The order of two nodes' terms, along one path: where two terms of one constructor differ, the first of
//! their operands that differ decide, and equal terms have one node.
ghost use Rattle.std.specs.Prelude.{◌≡◌, ◌<◌, length};
ghost use Rattle.prv_model.specs.TermOrder.{term_cmp};
ghost use Rattle.prv_pool.specs.Tables.{term_at};
ghost use Rattle.prv_pool.specs.Steps.{Decides, step_between as step_between_of};

use crate::node::Node;
use crate::pool::Pool;
use std::cmp::Ordering;

/// What decides the order of two nodes that differ.
pub(crate) enum Step {
    /// Their constructors, or their numbers.
    Done(Ordering),
    /// Two of their operands.
    Operands(u32, u32),
}

impl Pool {
    /// The order of two nodes' terms.
    pub(crate) fn compare(&self, a: u32, b: u32) -> Ordering
        requires first { a < length self.now.terms }
        requires second { b < length self.now.terms }
        ensures { result ≡ term_cmp (term_at self.now.terms a) (term_at self.now.terms b) }
    {
        let mut a = a;
        let mut b = b;
        while a != b {
            match self.step(a, b) {
                Step::Done(order) => return order,
                Step::Operands(x, y) => {
                    a = x;
                    b = y;
                }
            }
        }
        Ordering::Equal
    }

    /// What decides the order of two nodes that differ.
    fn step(&self, a: u32, b: u32) -> Step
        requires first { a < length self.now.terms }
        requires second { b < length self.now.terms }
        ensures { Decides self.now.terms a b result }
    {
        step_between(self.node(a), self.node(b))
    }
}

fn step_between(m: Node, n: Node) -> Step
    ensures { result ≡ step_between_of m n }
{
    match (m, n) {
        (Node::Param(j), Node::Param(k)) => Step::Done(j.cmp(&k)),
        (Node::Num(m), Node::Num(n)) => Step::Done(m.cmp(&n)),
        (Node::Op(o, x, y), Node::Op(p, z, w)) => {
            if o.rank() != p.rank() {
                Step::Done(o.rank().cmp(&p.rank()))
            } else if x != z {
                Step::Operands(x, z)
            } else {
                Step::Operands(y, w)
            }
        }
        (Node::Pick(t, x, y), Node::Pick(u, z, w)) => {
            if t != u {
                Step::Operands(t, u)
            } else if x != z {
                Step::Operands(x, z)
            } else {
                Step::Operands(y, w)
            }
        }
        (m, n) => Step::Done(m.rank().cmp(&n.rank())),
    }
}
