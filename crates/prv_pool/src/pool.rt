//! Pools: terms as nodes of one table, folded as they are made.
ghost use Rattle.std.specs.Prelude.{◌≡◌, ◌↔◌, ℕ, ◌<◌, ◌≤◌, true, false, [], ◌∷◌, ◌++◌, length, take, pos, Some, Err, slice_get, IfOk, OnOk, OnErr, IfSome, IfNone};
ghost use Rattle.prv_model.specs.TermOrder.{same_term};
ghost use Rattle.prv_model.specs.declared.term.Term.TheVariants as term;
ghost use Rattle.prv_pool.specs.Folding.{is_truth_shaped, is_folded};
ghost use Rattle.prv_pool.specs.Tables.{Table, IsTable, Makes, term_at, has_term};
ghost use Rattle.prv_pool.specs.Nodes.{node_term, AreBelow, is_truth_of};
ghost use Rattle.prv_pool.specs.Folds.{folded_term, IsOver};

use crate::error::PoolError;
use crate::folded::Folded;
use crate::node::{Node, compares, joins};
use crate::nodes::Nodes;
use prv_model::TermOp;
use std::alloc::Global;
use std::marker::Model;

/// A table of distinct folded terms, whose operands stand before them.
///
/// A node is known by its number and stands for its term as a tree. It keeps its number.
#[derive(Drop)]
pub struct Pool {
    nodes: Nodes,
    max_nodes: u32,
}

impl Model for Pool {
    ghost use Rattle.std.specs.Prelude.{◌<◌, ℕ, ◌^◌};
    ghost use Rattle.prv_pool.specs.Tables.{Table, table_code};
    ghost use Rattle.prv_pool.specs.Nodes.{table_of, IsPool};

    ghost Value = { Table };

    ghost coded = { table_code };

    ghost view = { λ p. table_of p.nodes p.max_nodes };

    ghost invariant = { λ p. IsPool p.nodes p.max_nodes };
}

impl Pool {
    /// A pool without nodes, which may have `max_nodes` of them.
    pub fn new(alloc: Global, max_nodes: u32) -> Pool
        ensures { result ≡ record { terms = []; max_nodes = max_nodes } }
    {
        Pool {
            nodes: Nodes::new(alloc),
            max_nodes,
        }
    }

    /// The count of nodes.
    pub fn len(&self) -> u32
        ensures value { result ≡ length self.now.terms }
        ensures table { IsTable self.now }
    {
        self.nodes.len() as u32
    }

    /// The node at a number.
    pub fn node(&self, n: u32) -> Node
        requires { n < length self.now.terms }
        ensures value { slice_get self.now.terms n ≡ Some (node_term self.now.terms result) }
        ensures before { AreBelow n result }
        ensures table { IsTable self.now }
    {
        self.nodes.node(n as usize)
    }

    /// Whether the term at a number is truth-shaped.
    pub fn is_truth(&self, n: u32) -> bool
        requires { n < length self.now.terms }
        ensures value { result ≡ is_truth_shaped (term_at self.now.terms n) }
        ensures table { IsTable self.now }
    {
        self.nodes.is_truth(n as usize)
    }

    /// What a pool keeps of its terms.
    pub fn keeps_a_table(&self)
        ensures { IsTable self.now }
    {
        let _ = &self.nodes;
    }

    /// Whether two nodes stand for one term, which is whether they are one.
    pub(crate) fn same(&self, a: u32, b: u32) -> bool
        requires first { a < length self.now.terms }
        requires second { b < length self.now.terms }
        ensures { result ≡ same_term (term_at self.now.terms a) (term_at self.now.terms b) }
    {
        let _ = &self.nodes;
        a == b
    }

    /// Whether the node at a number is this one.
    pub(crate) fn is_node(&self, n: u32, node: Node) -> bool
        requires at { n < length self.now.terms }
        requires below { AreBelow (length self.now.terms) node }
        ensures { result ≡ same_term (term_at self.now.terms n) (node_term self.now.terms node) }
    {
        self.nodes.node(n as usize) == node
    }

    /// The number of a node, if it is there.
    pub(crate) fn find(&self, node: Node) -> Option<u32>
        requires { AreBelow (length self.now.terms) node }
        ensures found { IfSome result (λ n. slice_get self.now.terms n ≡ Some (node_term self.now.terms node)) }
        ensures absent { IfNone result (has_term self.now.terms (node_term self.now.terms node) ≡ false) }
        ensures table { IsTable self.now }
    {
        match self.nodes.find(&node) {
            Some(n) => Some(n as u32),
            None => None,
        }
    }

    /// The number of a node, which is added where it isn't there yet.
    pub fn intern(&mut self, node: Node) -> Result<u32, PoolError>
        requires below { AreBelow (length self.old.terms) node }
        requires is_folded { is_folded (node_term self.old.terms node) ≡ true }
        ensures { Makes (node_term self.old.terms node) self.old self.new result }
    {
        match self.find(node) {
            Some(n) => self.known(n),
            None => self.add(node),
        }
    }

    /// Adds a node that isn't there yet.
    fn add(&mut self, node: Node) -> Result<u32, PoolError>
        requires below { AreBelow (length self.old.terms) node }
        requires is_folded { is_folded (node_term self.old.terms node) ≡ true }
        requires is_new { has_term self.old.terms (node_term self.old.terms node) ≡ false }
        ensures number { IfOk result (λ n. n ≡ length self.old.terms) }
        ensures grows { OnOk result (self.new.terms ≡ self.old.terms ++ node_term self.old.terms node ∷ []) }
        ensures limit { self.new.max_nodes ≡ self.old.max_nodes }
        ensures refused { OnErr result (self.new ≡ self.old) }
        ensures wide { (result ≡ Err PoolError.Wide) ↔ (self.old.max_nodes ≤ length self.old.terms) }
    {
        let count = self.nodes.len();
        if self.max_nodes as usize <= count {
            return Err(PoolError::Wide);
        }
        let truth = is_truth_node(&self.nodes, node);
        self.nodes.push(node, truth)?;
        Ok(count as u32)
    }

    /// Keeps the first nodes.
    pub fn truncate(&mut self, count: u32)
        ensures { self.new ≡ record self.old { terms = take count self.old.terms } }
    {
        self.nodes.truncate(count as usize);
    }

    /// The number of an answer's term, which is made where it isn't there yet.
    pub(crate) fn make(&mut self, answer: Folded) -> Result<u32, PoolError>
        requires over { IsOver (length self.old.terms) answer }
        requires is_folded { is_folded (folded_term self.old.terms answer) ≡ true }
        ensures { Makes (folded_term self.old.terms answer) self.old self.new result }
    {
        match answer {
            Folded::Known(n) => self.known(n),
            Folded::New(node) => self.intern(node),
            Folded::WithZero(op, n) => match self.find(Node::Num(0)) {
                Some(zero) => self.intern(Node::Op(op, n, zero)),
                None => self.add_with_zero(op, n),
            },
        }
    }

    /// Adds 0, which isn't there yet, and an operator on a node and 0.
    fn add_with_zero(&mut self, op: TermOp, n: u32) -> Result<u32, PoolError>
        requires over { n < length self.old.terms }
        requires is_folded { is_folded (term.Op op (term_at self.old.terms n) (term.Num (pos 0))) ≡ true }
        requires is_new { has_term self.old.terms (term.Num (pos 0)) ≡ false }
        ensures { Makes (term.Op op (term_at self.old.terms n) (term.Num (pos 0))) self.old self.new result }
    {
        let count = self.len();
        if self.max_nodes - count < 2 {
            return Err(PoolError::Wide);
        }
        match self.add(Node::Num(0)) {
            Ok(zero) => match self.add(Node::Op(op, n, zero)) {
                Ok(made) => Ok(made),
                Err(_) => {
                    self.truncate(count);
                    Err(PoolError::Memory)
                }
            },
            Err(_) => Err(PoolError::Memory),
        }
    }

    /// A node that is there.
    fn known(&self, n: u32) -> Result<u32, PoolError>
        requires { n < length self.now.terms }
        ensures { Makes (term_at self.now.terms n) self.now self.now result }
    {
        let _ = &self.nodes;
        Ok(n)
    }
}

/// Whether a node's term is truth-shaped, by what stands beside its operands.
fn is_truth_node(nodes: &Nodes, node: Node) -> bool
    requires { AreBelow (length nodes.now) node }
    ensures { result ≡ is_truth_of nodes.now node }
{
    match node {
        Node::Param(_) => false,
        Node::Num(n) => n == 0 || n == 1,
        Node::Op(op, a, b) => {
            compares(op) || (joins(op) && nodes.is_truth(a as usize) && nodes.is_truth(b as usize))
        }
        Node::Pick(_, a, b) => nodes.is_truth(a as usize) && nodes.is_truth(b as usize),
    }
}
