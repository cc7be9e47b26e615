//! Which inputs a region holds: one pass over the nodes of its table gives each of them its value on an
//! input, since operands stand before their node; then the terms of the region are looked up in turn. The
//! first of them that is 0 says more than that the region does not hold the input: where a region is cut by
//! its literals one after the other, it names the part in which the input lies.
ghost use Rattle.std.specs.Prelude.{◌≡◌, ℕ, ◌<◌, ◌≤◌, true, length, map, All, OnOk};
ghost use Rattle.std.specs.List.{position};
ghost use Rattle.std.specs.Option.{MatchOption};
ghost use Rattle.prv_model.specs.Words.{is_zero};
ghost use Rattle.prv_model.specs.Terms.{term_value, holds as holds_of};
ghost use Rattle.prv_pool.specs.Tables.{term_at};
ghost use Rattle.prv_region.specs.Values.{node_value as node_value_of, value_at as value_at_of};
ghost use Rattle.prv_region.specs.Zeros.{IsFirstZero};

use crate::region::{Cond, MAX_REGION_NODES, Region};
use prv_model::{Input, total};
use prv_pool::{Node, Pool};
use sqlite_items::at;
use std::alloc::{AllocError, Global};
use std::marker::Model;

/// Room for one value of each node of a pool. It is seen as the count of values.
#[derive(Debug, Drop)]
pub struct Scratch {
    /// The value of each node in the latest evaluation, by the node's number.
    values: Vec<i32>,
}

impl Model for Scratch {
    ghost use Rattle.std.specs.Prelude.{ℕ, length};
    ghost use Rattle.std.specs.Coded.{coded_ℕ};

    ghost Value = { ℕ };

    ghost coded = { coded_ℕ };

    ghost view = { λ s. length s.values.items };
}

impl Scratch {
    /// Room for no values.
    pub fn new(alloc: Global) -> Scratch
        ensures { result ≡ 0 }
    {
        Scratch {
            values: Vec::new(alloc),
        }
    }

    /// Makes room for the values of any region's nodes. Where memory is short, the room stays as it was.
    pub fn reserve_for_regions(&mut self) -> Result<(), AllocError>
        ensures reserved { OnOk result (MAX_REGION_NODES ≤ self.new) }
        ensures kept { self.old ≤ self.new }
    {
        self.reserve(MAX_REGION_NODES)
    }

    /// Makes room for the values of a pool's nodes. Where memory is short, the room stays as it was.
    pub fn reserve_for(&mut self, pool: &Pool) -> Result<(), AllocError>
        ensures reserved { OnOk result (length pool.now.terms ≤ self.new) }
        ensures kept { self.old ≤ self.new }
    {
        self.reserve(pool.len())
    }

    /// Makes room for so many values. Where memory is short, the room stays as it was.
    fn reserve(&mut self, count: u32) -> Result<(), AllocError>
        ensures reserved { OnOk result (count ≤ self.new) }
        ensures kept { self.old ≤ self.new }
    {
        let count = count as usize;
        if self.values.len() < count {
            self.values.resize(count, 0)?;
        }
        Ok(())
    }
}

impl Cond {
    /// Whether each node of the condition is nonzero on the input: whether its region holds the input.
    ///
    /// It goes once over the nodes up to the condition's greatest, keeps their values in the scratch, and
    /// takes no memory.
    pub fn holds(&self, pool: &Pool, input: &Input, scratch: &mut Scratch) -> bool
        requires roots { All (λ n. n < length pool.now.terms) self.now }
        requires reserved { length pool.now.terms ≤ scratch.old }
        ensures value { result ≡ holds_of (map (term_at pool.now.terms) self.now) input.now }
        ensures room { scratch.new ≡ scratch.old }
    {
        first_zero_of(pool, self.roots(), input, scratch).is_none()
    }
}

impl Region {
    /// Whether the region holds an input, by one pass over the nodes of its pool. It takes no memory.
    pub fn holds(&self, input: &Input, scratch: &mut Scratch) -> bool
        requires reserved { MAX_REGION_NODES ≤ scratch.old }
        ensures value { result ≡ holds_of self.now input.now }
        ensures room { scratch.new ≡ scratch.old }
    {
        self.first_zero(input, scratch).is_none()
    }

    /// The place of the first of the region's terms that is 0 on an input; none where the region holds it.
    ///
    /// It is one pass over the nodes of its pool and one over the terms, and takes no memory. Conditions that
    /// go on from one list of terms, each with the negation of the next one behind it, are asked at once so.
    pub fn first_zero(&self, input: &Input, scratch: &mut Scratch) -> Option<usize>
        requires reserved { MAX_REGION_NODES ≤ scratch.old }
        ensures place { MatchOption result (holds_of self.now input.now ≡ true) (IsFirstZero self.now input.now) }
        ensures room { scratch.new ≡ scratch.old }
    {
        let parts = self.parts();
        first_zero_of(parts.pool, parts.roots, input, scratch)
    }
}

/// The place of the first of some nodes that is 0 on the input, by one pass over the nodes.
fn first_zero_of(pool: &Pool, roots: &[u32], input: &Input, scratch: &mut Scratch) -> Option<usize>
    requires roots { All (λ n. n < length pool.now.terms) roots.now }
    requires reserved { length pool.now.terms ≤ scratch.old }
    ensures place { MatchOption result (holds_of (map (term_at pool.now.terms) roots.now) input.now ≡ true)
        (IsFirstZero (map (term_at pool.now.terms) roots.now) input.now) }
    ensures room { scratch.new ≡ scratch.old }
{
    let count = end_of(pool, roots);
    evaluate(pool, count, input.as_slice(), &mut scratch.values);
    first_zero_at(roots, scratch.values.as_slice())
}

/// The number behind the greatest of some nodes, and 0 where there is none.
pub(crate) fn end_of(pool: &Pool, nodes: &[u32]) -> u32
    requires { All (λ n. n < length pool.now.terms) nodes.now }
    ensures within { result ≤ length pool.now.terms }
    ensures above { All (λ n. n < result) nodes.now }
{
    let count = pool.len();
    let mut end = 0;
    for n in nodes {
        prove!(*n < count);
        if end <= *n {
            end = *n + 1;
        }
    }
    end
}

/// Writes the values of the first nodes of a pool.
fn evaluate(pool: &Pool, count: u32, words: &[i32], values: &mut Vec<i32>)
    requires nodes { count ≤ length pool.now.terms }
    requires room { count ≤ length values.old.items }
    ensures length { length values.new.items ≡ length values.old.items }
    ensures values { (k : ℕ) → k < count → value_at_of values.new.items k ≡ term_value (term_at pool.now.terms k) words.now }
{
    for n in 0..count {
        let value = node_value(pool.node(n), words, values.as_slice());
        values[n as usize] = value;
    }
}

/// The value of a node on an input's words, over the values of the nodes before it.
fn node_value(node: Node, words: &[i32], values: &[i32]) -> i32
    ensures { result ≡ node_value_of values.now words.now node }
{
    match node {
        Node::Param(k) => value_at(words, k as u32),
        Node::Num(n) => n,
        Node::Op(op, a, b) => total(op, value_at(values, a), value_at(values, b)),
        Node::Pick(test, a, b) => {
            if value_at(values, test) == 0 {
                value_at(values, b)
            } else {
                value_at(values, a)
            }
        }
    }
}

/// The value at a number, and 0 past the end.
fn value_at(values: &[i32], n: u32) -> i32
    ensures { result ≡ value_at_of values.now n }
{
    at(values, n as usize).copied().unwrap_or(0)
}

/// The place of the first of some nodes whose value is 0.
fn first_zero_at(nodes: &[u32], values: &[i32]) -> Option<usize>
    ensures { result ≡ position (λ n. is_zero (value_at_of values.now n)) nodes.now }
{
    nodes.iter().position(|n| value_at(values, *n) == 0)
}
