//! The partition of an input: the inputs of a region on which both versions run as they do there.
ghost use Rattle.std.specs.Prelude.{◌≡◌, ℕ, ◌+◌, ◌<◌, ◌≤◌, nat_eq, ◌||◌, false, [], ◌∷◌, ◌++◌, length, filter, slice_index_or, pos, All, Ok, IfOk, OnOk, if◌then◌else◌};
ghost use Rattle.std.specs.List.{list_any};
ghost use Rattle.prv_pool.specs.Folding.{is_number, negation};
ghost use Rattle.prv_pool.specs.Tables.{Makes, term_at, has_term};
ghost use Rattle.prv_general.specs.Answers.{terms_at};
ghost use Rattle.prv_general.specs.Conditions.{node_is_one};
ghost use Rattle.prv_part.specs.Literals.{without_repeats};
ghost use Rattle.prv_select.specs.Choices.{rising};
ghost use Rattle.prv_settle.specs.Making.{AreNodes, AreMarked};

use crate::room::negated;
use prv_pool::{Node, Pool};
use std::alloc::{AllocError, Global};

/// The nodes of a partition: the region's, and behind them those of the literals that the region hasn't
/// got, each once. The time is in proportion to the nodes of the pool and of the three lists.
pub(crate) fn partition(
    alloc: Global,
    pool: &Pool,
    region: &[u32],
    before: &[u32],
    after: &[u32],
) -> Result<Vec<u32>, AllocError>
    requires region { AreNodes pool.now.terms region.now }
    requires before { AreNodes pool.now.terms before.now }
    requires after { AreNodes pool.now.terms after.now }
    ensures nodes { IfOk result (λ v. AreNodes pool.now.terms v.items) }
    ensures terms { IfOk result (λ v. terms_at pool.now.terms v.items ≡
        terms_at pool.now.terms region.now ++ without_repeats (terms_at pool.now.terms region.now) (terms_at pool.now.terms before.now ++ terms_at pool.now.terms after.now)) }
{
    let mut nodes = Vec::from_slice(alloc, region)?;
    let mut has = vec![in alloc; false; pool.len() as usize]?;
    mark_all(&mut has, region);
    add_new(pool, &mut has, &mut nodes, before)?;
    add_new(pool, &mut has, &mut nodes, after)?;
    Ok(nodes)
}

/// Marks each of some nodes, where none is marked.
fn mark_all(has: &mut [bool], nodes: &[u32])
    requires none { (k : ℕ) → k < length has.old → slice_index_or has.old k false ≡ false }
    requires within { All (λ n. n < length has.old) nodes.now }
    ensures { AreMarked has.new nodes.now }
{
    for node in nodes {
        has[*node as usize] = true;
    }
}

/// Adds each node that isn't there yet.
fn add_new(
    pool: &Pool,
    has: &mut [bool],
    nodes: &mut Vec<u32>,
    more: &[u32],
) -> Result<(), AllocError>
    requires sized { length has.old ≡ length pool.now.terms }
    requires marked { AreMarked has.old nodes.old.items }
    requires nodes { AreNodes pool.now.terms nodes.old.items }
    requires more { AreNodes pool.now.terms more.now }
    ensures marked { OnOk result (AreMarked has.new nodes.new.items) }
    ensures nodes { OnOk result (AreNodes pool.now.terms nodes.new.items) }
    ensures terms { OnOk result (terms_at pool.now.terms nodes.new.items ≡
        terms_at pool.now.terms nodes.old.items ++ without_repeats (terms_at pool.now.terms nodes.old.items) (terms_at pool.now.terms more.now)) }
{
    let _ = pool.len();
    for node in more {
        add_one(has, nodes, *node)?;
    }
    Ok(())
}

/// Adds a node, if it isn't there yet.
fn add_one(has: &mut [bool], nodes: &mut Vec<u32>, node: u32) -> Result<(), AllocError>
    requires within { node < length has.old }
    requires marked { AreMarked has.old nodes.old.items }
    ensures marked { OnOk result (AreMarked has.new nodes.new.items) }
    ensures nodes { OnOk result (nodes.new.items ≡ nodes.old.items ++ (if list_any (nat_eq node) nodes.old.items then [] else node ∷ [])) }
{
    let at = node as usize;
    if !has[at] {
        nodes.push(node)?;
        has[at] = true;
    }
    Ok(())
}

/// Whether a node is among some nodes.
pub(crate) fn contains(nodes: &[u32], node: u32) -> bool
    ensures { result ≡ list_any (nat_eq node) nodes.now }
{
    nodes.iter().any(|other| node == *other)
}

/// The node that says that the versions compare as they do at the input: the equality, or its negation.
pub(crate) fn decided(pool: &mut Pool, equality: u32, agree: bool) -> Result<u32, AllocError>
    requires equality { equality < length pool.old.terms }
    requires room { length pool.old.terms + 2 ≤ pool.old.max_nodes }
    ensures makes { IfOk result (λ made. Makes (if agree then term_at pool.old.terms equality else negation (term_at pool.old.terms equality)) pool.old pool.new (Ok made)) }
    ensures few { length pool.new.terms ≤ length pool.old.terms + 2 }
{
    let _ = pool.len();
    if agree {
        Ok(equality)
    } else {
        negated(pool, equality)
    }
}

/// Whether a partition says so by itself.
pub(crate) fn is_granted(pool: &Pool, partition: &[u32], decided: u32) -> bool
    requires partition { AreNodes pool.now.terms partition.now }
    requires decided { decided < length pool.now.terms }
    ensures { result ≡ (is_number (pos 1) (term_at pool.now.terms decided) || has_term (terms_at pool.now.terms partition.now) (term_at pool.now.terms decided)) }
{
    is_one(pool.node(decided)) || contains(partition, decided)
}

/// Whether a node is the number 1.
fn is_one(node: Node) -> bool
    ensures { result ≡ node_is_one node }
{
    match node {
        Node::Num(n) => n == 1,
        _ => false,
    }
}

/// Some nodes with one more.
pub(crate) fn with_node(alloc: Global, nodes: &[u32], node: u32) -> Result<Vec<u32>, AllocError>
    ensures { IfOk result (λ v. v.items ≡ nodes.now ++ node ∷ []) }
{
    let mut all = Vec::from_slice(alloc, nodes)?;
    all.push(node)?;
    Ok(all)
}

/// The marks that contribute to one slice or the other, in rising order.
pub(crate) fn marks_of(alloc: Global, before: &[u8], after: &[u8]) -> Result<Vec<u8>, AllocError>
    ensures { IfOk result (λ v. v.items ≡ rising (λ mark. list_any (nat_eq mark) (before.now ++ after.now))) }
{
    let mut marks = Vec::new(alloc);
    for mark in 0..256u16 {
        push_mark(before, after, mark as u8, &mut marks)?;
    }
    Ok(marks)
}

/// Pushes a mark, if it is among the one marks or the others.
fn push_mark(before: &[u8], after: &[u8], mark: u8, marks: &mut Vec<u8>) -> Result<(), AllocError>
    ensures { OnOk result (marks.new.items ≡ marks.old.items ++ filter (λ m. list_any (nat_eq m) (before.now ++ after.now)) (mark ∷ [])) }
{
    if has_mark(before, mark) || has_mark(after, mark) {
        marks.push(mark)?;
    }
    Ok(())
}

/// Whether a mark is among some marks.
fn has_mark(marks: &[u8], mark: u8) -> bool
    ensures { result ≡ list_any (nat_eq mark) marks.now }
{
    marks.iter().any(|other| mark == *other)
}
