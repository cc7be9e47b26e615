//! The order in which the subterms of a condition are first met.
ghost use Rattle.std.specs.Prelude.{◌≡◌, ◌-◌, ◌<◌, ◌^◌, false, [], Some, ◌∷◌, ◌++◌, length, IfOk, OnOk, position, nat_eq, slice_get};
ghost use Rattle.std.specs.List.{IsDistinct};
ghost use Rattle.prv_pool.specs.Tables.{term_at, add_term};
ghost use Rattle.prv_blast.specs.Subterms.{subterms};
ghost use Rattle.prv_blast.specs.Orders.{AreWithin, IsWalk, terms_at, has_node, operands, unmet, first_unmet, climbed, walk_left};

use indexmap::IndexSet;
use prv_pool::{Node, Pool};
use std::alloc::{AllocError, Global};
use std::marker::Model;

/// Distinct nodes of a pool, each behind its operands, in the order in which they were first met.
#[derive(Drop)]
pub(crate) struct Order {
    /// The nodes' numbers, with an index by hash.
    nodes: IndexSet<u32>,
}

impl Model for Order {
    ghost use Rattle.std.specs.Prelude.{ℕ, List, nat_eq};
    ghost use Rattle.std.specs.List.{IsDistinct};

    ghost Value = { List ℕ };

    ghost view = { λ o. o.nodes.keys };

    ghost invariant = { λ o. IsDistinct nat_eq o.nodes.keys };
}

impl Order {
    /// An order of no nodes.
    pub(crate) fn new(alloc: Global) -> Order
        ensures { result ≡ [] }
    {
        Order {
            nodes: IndexSet::new(alloc),
        }
    }

    /// How many nodes there are.
    pub(crate) fn len(&self) -> usize
        ensures value { result ≡ length self.now }
        ensures small { result < 2 ^ 63 }
        ensures distinct { IsDistinct nat_eq self.now }
    {
        self.nodes.len()
    }

    /// The node at a place.
    pub(crate) fn node(&self, place: usize) -> u32
        requires { place < length self.now }
        ensures { slice_get self.now place ≡ Some result }
    {
        self.nodes.get_index(place).copied().unwrap_or(0)
    }

    /// The place of a node, if it was met.
    pub(crate) fn place(&self, node: u32) -> Option<usize>
        ensures { result ≡ position (nat_eq node) self.now }
    {
        self.nodes.get_index_of(&node)
    }

    /// Whether a node was met.
    fn has(&self, node: u32) -> bool
        ensures value { result ≡ has_node self.now node }
        ensures distinct { IsDistinct nat_eq self.now }
    {
        self.nodes.contains(&node)
    }

    /// Adds a node that wasn't met yet.
    fn push(&mut self, node: u32) -> Result<(), AllocError>
        requires { has_node self.old node ≡ false }
        ensures last { OnOk result (self.new ≡ self.old ++ node ∷ []) }
        ensures distinct { OnOk result (IsDistinct nat_eq self.new) }
    {
        self.nodes.insert(node)?;
        Ok(())
    }

    /// Adds a node behind those of its subterms that weren't met yet.
    pub(crate) fn visit(&mut self, pool: &Pool, root: u32) -> Result<(), AllocError>
        requires root { root < length pool.now.terms }
        requires within { AreWithin (length pool.now.terms) self.old }
        ensures grows { OnOk result (terms_at pool.now.terms self.new ≡ add_term (term_at pool.now.terms root) (terms_at pool.now.terms self.old)) }
        ensures within { OnOk result (AreWithin (length pool.now.terms) self.new) }
    {
        if self.has(root) {
            return Ok(());
        }
        let mut path = Vec::new(*self.nodes.allocator());
        path.push(root)?;
        while let Some(node) = path.last().copied() {
            self.step(pool, &mut path, node)?;
        }
        Ok(())
    }

    /// Goes on from the last node of a path of nodes that weren't met yet, each an operand of the one
    /// before: to an operand that wasn't met yet, or back, where the node is added.
    fn step(&mut self, pool: &Pool, path: &mut Vec<u32>, node: u32) -> Result<(), AllocError>
        requires walk { IsWalk (length pool.now.terms) self.old path.old.items }
        requires last { slice_get path.old.items (length path.old.items - 1) ≡ Some node }
        ensures walk { OnOk result (IsWalk (length pool.now.terms) self.new path.new.items) }
        ensures climbed { OnOk result (climbed pool.now.terms path.new.items (terms_at pool.now.terms self.new) ≡ climbed pool.now.terms path.old.items (terms_at pool.now.terms self.old)) }
        ensures shorter { OnOk result (walk_left (length pool.now.terms) self.new path.new.items < walk_left (length pool.now.terms) self.old path.old.items) }
    {
        match self.next_operand(pool.node(node)) {
            Some(operand) => path.push(operand)?,
            None => {
                self.push(node)?;
                path.pop();
            }
        }
        Ok(())
    }

    /// The first operand of a node that wasn't met yet.
    fn next_operand(&self, node: Node) -> Option<u32>
        ensures { result ≡ first_unmet self.now (operands node) }
    {
        match node {
            Node::Param(_) => None,
            Node::Num(_) => None,
            Node::Op(_, a, b) => self.unmet(a).or(self.unmet(b)),
            Node::Pick(c, a, b) => self.unmet(c).or(self.unmet(a)).or(self.unmet(b)),
        }
    }

    /// The node, if it wasn't met yet.
    fn unmet(&self, node: u32) -> Option<u32>
        ensures { result ≡ unmet self.now node }
    {
        if self.has(node) { None } else { Some(node) }
    }
}

/// The order of the subterms of some roots.
pub(crate) fn order_of(alloc: Global, pool: &Pool, roots: &[u32]) -> Result<Order, AllocError>
    requires { AreWithin (length pool.now.terms) roots.now }
    ensures terms { IfOk result (λ o. terms_at pool.now.terms o ≡ subterms (terms_at pool.now.terms roots.now)) }
    ensures within { IfOk result (AreWithin (length pool.now.terms)) }
{
    let mut order = Order::new(alloc);
    for root in roots {
        order.visit(pool, *root)?;
    }
    Ok(order)
}
