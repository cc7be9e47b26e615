//! Whether two regions are one list of terms. Both are gone through together: a node of the second pool is
//! paired with the node of the first that it must be, first the regions' own nodes, one for one, and then,
//! from the greatest node down, the operands of each pair. Nodes on which nothing depends are not looked at.
ghost use Rattle.std.specs.Prelude.{◌≡◌, ◌↔◌, ◌<◌, ◌≤◌, ◌^◌, [], ◌∷◌, None, length, map, replicate, All, IsTrue, IfOk};
ghost use Rattle.prv_pool.specs.Nodes.{AreBelow};
ghost use Rattle.prv_pool.specs.Tables.{term_at};
ghost use Rattle.prv_region.specs.Pairs.{AreIn, AreSame, Pairs, PairsEach, PairsNodes, PairsOperands, PairsAll};

use crate::holds::end_of;
use crate::region::Region;
use prv_pool::{Node, Pool};
use std::alloc::{AllocError, Global};

/// Whether two regions are the same list of terms. It keeps a number for each node of the second's pool up
/// to the greatest of its terms, goes once over these, and reads no node but those that the terms are made of.
pub fn same_region(alloc: Global, a: &Region, b: &Region) -> Result<bool, AllocError>
    ensures { IfOk result (λ same. IsTrue same ↔ (a.now ≡ b.now)) }
{
    let first = a.parts();
    let second = b.parts();
    if first.roots.len() != second.roots.len() {
        return Ok(false);
    }
    let end = end_of(second.pool, second.roots);
    let mut partners = vec![in alloc; None; end as usize]?;
    Ok(same_lists(
        &mut partners,
        first.pool,
        first.roots,
        second.pool,
        second.roots,
    ))
}

/// Whether two lists of nodes of two pools are of the same terms. No node has a partner yet.
fn same_lists(
    partners: &mut [Option<u32>],
    into: &Pool,
    others: &[u32],
    from: &Pool,
    nodes: &[u32],
) -> bool
    requires blank { partners.old ≡ replicate (length partners.old) None }
    requires small { length partners.old < 2 ^ 32 }
    requires few { length partners.old ≤ length from.now.terms }
    requires nodes { All (λ n. n < length partners.old) nodes.now }
    requires others { All (λ n. n < length into.now.terms) others.now }
    requires lengths { length nodes.now ≡ length others.now }
    ensures { IsTrue result ↔ (map (term_at into.now.terms) others.now ≡ map (term_at from.now.terms) nodes.now) }
{
    into.keeps_a_table();
    pair_all(partners, nodes, others) && are_same(partners, into, from)
}

/// Pairs nodes one for one, as far as they can be.
fn pair_all(partners: &mut [Option<u32>], nodes: &[u32], others: &[u32]) -> bool
    requires within { All (λ n. n < length partners.old) nodes.now }
    requires lengths { length nodes.now ≡ length others.now }
    ensures { PairsAll partners.old partners.new nodes.now others.now result }
{
    for i in 0..nodes.len() {
        if !pair(partners, nodes[i], others[i]) {
            return false;
        }
    }
    true
}

/// Whether all that are paired, here and in what they are made of, are nodes of the same terms.
fn are_same(partners: &mut [Option<u32>], into: &Pool, from: &Pool) -> bool
    requires within { AreIn (length into.now.terms) partners.old }
    requires few { length partners.old ≤ length from.now.terms }
    requires small { length partners.old < 2 ^ 32 }
    ensures { IsTrue result ↔ AreSame into.now.terms from.now.terms partners.old }
{
    into.keeps_a_table();
    let mut n = partners.len();
    while n > 0 {
        n -= 1;
        if !pair_operands(partners, into, from, n as u32) {
            return false;
        }
    }
    true
}

/// Pairs the operands of a node, if it is paired, with those of its partner, as far as they can be.
fn pair_operands(partners: &mut [Option<u32>], into: &Pool, from: &Pool, n: u32) -> bool
    requires here { n < length partners.old }
    requires within { AreIn (length into.now.terms) partners.old }
    requires few { length partners.old ≤ length from.now.terms }
    ensures { PairsOperands into.now.terms from.now.terms n partners.old partners.new result }
{
    match partners[n as usize] {
        None => true,
        Some(m) => pair_nodes(partners, from.node(n), into.node(m)),
    }
}

/// Pairs the operands of two nodes, if they have one constructor, as far as they can be.
fn pair_nodes(partners: &mut [Option<u32>], node: Node, other: Node) -> bool
    requires { AreBelow (length partners.old) node }
    ensures { PairsNodes partners.old partners.new node other result }
{
    match node {
        Node::Param(_) => other == node,
        Node::Num(_) => other == node,
        Node::Op(op, a, b) => match other {
            Node::Op(its, x, y) => its == op && pair_two(partners, a, x, b, y),
            _ => false,
        },
        Node::Pick(test, a, b) => match other {
            Node::Pick(its, x, y) => { pair(partners, test, its) && pair_two(partners, a, x, b, y) }
            _ => false,
        },
    }
}

/// Pairs two nodes with two others, one after the other, as far as they can be.
fn pair_two(partners: &mut [Option<u32>], a: u32, x: u32, b: u32, y: u32) -> bool
    requires first { a < length partners.old }
    requires second { b < length partners.old }
    ensures { PairsEach partners.old partners.new ((a, x) ∷ (b, y) ∷ []) result }
{
    pair(partners, a, x) && pair(partners, b, y)
}

/// Pairs a node with another where it has no partner yet; otherwise whether that is its partner.
fn pair(partners: &mut [Option<u32>], n: u32, m: u32) -> bool
    requires { n < length partners.old }
    ensures { Pairs partners.old partners.new n m result }
{
    match partners[n as usize] {
        None => {
            partners[n as usize] = Some(m);
            true
        }
        Some(k) => k == m,
    }
}
