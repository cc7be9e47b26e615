//! The nodes of a pool, each once, under the numbers in which they were added.
ghost use Rattle.std.specs.Prelude.{◌≡◌, ◌≢◌, ℕ, ◌<◌, ◌^◌, [], ◌∷◌, ◌++◌, length, take, Some, slice_get, OnOk, OnErr, IfSome, IfNone};
ghost use Rattle.prv_pool.specs.Nodes.{node_at, truth_at, AreDistinct};

use crate::node::Node;
use indexmap::IndexMap;
use std::alloc::{AllocError, Global};
use std::marker::Model;

/// Distinct nodes in the order in which they were added, each with whether its term is truth-shaped; a
/// look-up takes the time of one hash.
#[derive(Drop)]
pub struct Nodes {
    map: IndexMap<Node, bool>,
}

impl Model for Nodes {
    ghost use Rattle.std.specs.Prelude.{List, Bool};
    ghost use Rattle.prv_pool.specs.declared.node.Node.{Node};

    ghost Value = { List (Node × Bool) };

    ghost view = { λ n. n.map.entries };
}

impl Nodes {
    pub fn new(alloc: Global) -> Nodes
        ensures { result ≡ [] }
    {
        Nodes {
            map: IndexMap::new(alloc),
        }
    }

    pub fn len(&self) -> usize
        ensures len { result ≡ length self.now }
        ensures small { result < 2 ^ 63 }
        ensures distinct { AreDistinct self.now }
    {
        self.map.len()
    }

    /// The number of a node, if it is there.
    pub fn find(&self, node: &Node) -> Option<usize>
        ensures found { IfSome result (λ i. node_at self.now i ≡ Some node.now) }
        ensures absent { IfNone result ((i : ℕ) → node_at self.now i ≢ Some node.now) }
    {
        self.map.get_index_of(node)
    }

    /// The node at a number.
    pub fn node(&self, at: usize) -> Node
        requires { at < length self.now }
        ensures { node_at self.now at ≡ Some result }
    {
        match self.map.get_index(at) {
            Some((node, _)) => *node,
            None => Node::Num(0),
        }
    }

    /// Whether the term at a number is truth-shaped.
    pub fn is_truth(&self, at: usize) -> bool
        requires { at < length self.now }
        ensures { result ≡ truth_at self.now at }
    {
        match self.map.get_index(at) {
            Some((_, truth)) => *truth,
            None => false,
        }
    }

    /// Adds a node that isn't there yet.
    pub fn push(&mut self, node: Node, truth: bool) -> Result<(), AllocError>
        requires { (i : ℕ) → node_at self.old i ≢ Some node }
        ensures ok { OnOk result (self.new ≡ self.old ++ (node, truth) ∷ []) }
        ensures err { OnErr result (self.new ≡ self.old) }
        ensures distinct { AreDistinct self.new }
    {
        self.map.insert(node, truth)?;
        Ok(())
    }

    /// Keeps the first n nodes.
    pub fn truncate(&mut self, n: usize)
        ensures { self.new ≡ take n self.old }
    {
        self.map.truncate(n);
    }
}
