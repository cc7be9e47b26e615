//! A partition in the pool that it was made in, and the terms of its parts.
ghost use Rattle.std.specs.Prelude.{◌≡◌, ◌+◌, ◌-◌, ◌*◌, ◌<◌, ◌≤◌, ◌++◌, ◌∷◌, [], length, IfOk, OnOk};
ghost use Rattle.prv_pool.specs.Folding.{negation};
ghost use Rattle.prv_pool.specs.Tables.{Grown, term_at};
ghost use Rattle.prv_region.specs.declared.region.TheConstants.{MAX_REGION_NODES};
ghost use Rattle.prv_general.specs.Answers.{terms_at};
ghost use Rattle.prv_settle.specs.Making.{AreNodes, with_negations};
ghost use Rattle.prv_settle.specs.Rooms.{HasRoom};

use crate::parts::Terms;
use crate::room::negated;
use prv_pool::Pool;
use prv_region::{Cond, Region};
use std::alloc::{AllocError, Global};
use std::sync::Arc;

/// The nodes of a partition in their pool: the first ones are the region's, the others the literals.
#[derive(Drop)]
pub(crate) struct Cut {
    pub(crate) pool: Pool,
    pub(crate) partition: Vec<u32>,
    pub(crate) region: usize,
    pub(crate) marks: Vec<u8>,
}

impl Cut {
    /// How many literals there are.
    pub(crate) fn literals(&self) -> usize
        requires { self.now.region ≤ length self.now.partition.items }
        ensures { result ≡ length self.now.partition.items - self.now.region }
    {
        self.partition.len() - self.region
    }

    /// The terms of the partition, some more, and the negations of the literals, in a pool of their own.
    pub(crate) fn into_terms(self, alloc: Global, more: &[u32]) -> Result<Terms, AllocError>
        requires region { self.region ≤ length self.partition.items }
        requires partition { AreNodes self.pool.terms self.partition.items }
        requires more { AreNodes self.pool.terms more.now }
        requires room { HasRoom 0 self }
        ensures { IfOk result (λ terms. terms ≡ with_negations self.region (terms_at self.pool.terms self.partition.items) (terms_at self.pool.terms more.now)) }
    {
        let Cut {
            mut pool,
            partition,
            region,
            marks: _,
        } = self;
        let nodes = all_nodes(alloc, &mut pool, partition.as_slice(), region, more)?;
        terms_of(alloc, pool, nodes)
    }
}

/// The terms at some nodes, in a pool of their own. That of a settlement may have no more nodes than that of a region.
fn terms_of(alloc: Global, pool: Pool, nodes: Vec<u32>) -> Result<Terms, AllocError>
    requires nodes { AreNodes pool.terms nodes.items }
    requires small { pool.max_nodes ≤ MAX_REGION_NODES }
    ensures { IfOk result (λ terms. terms ≡ terms_at pool.terms nodes.items) }
{
    let _ = pool.len();
    let pool = Arc::new(alloc, pool)?;
    let nodes = Arc::new(alloc, nodes)?;
    Terms::of(alloc, &Region::new(pool, Cond::new(nodes)))
}

/// The nodes of a partition, some more, and the negations of the partition's literals.
fn all_nodes(
    alloc: Global,
    pool: &mut Pool,
    partition: &[u32],
    region: usize,
    more: &[u32],
) -> Result<Vec<u32>, AllocError>
    requires region { region ≤ length partition.now }
    requires partition { AreNodes pool.old.terms partition.now }
    requires more { AreNodes pool.old.terms more.now }
    requires room { length pool.old.terms + 2 * (length partition.now - region) ≤ pool.old.max_nodes }
    ensures nodes { IfOk result (λ v. AreNodes pool.new.terms v.items) }
    ensures terms { IfOk result (λ v. terms_at pool.new.terms v.items ≡ with_negations region (terms_at pool.old.terms partition.now) (terms_at pool.old.terms more.now)) }
    ensures limit { OnOk result (pool.new.max_nodes ≡ pool.old.max_nodes) }
{
    let mut nodes = joined(alloc, partition, more)?;
    for node in &partition[region..] {
        add_negation(pool, &mut nodes, *node)?;
    }
    Ok(nodes)
}

/// Adds the node of a negation at the end.
fn add_negation(pool: &mut Pool, nodes: &mut Vec<u32>, node: u32) -> Result<(), AllocError>
    requires nodes { AreNodes pool.old.terms nodes.old.items }
    requires node { node < length pool.old.terms }
    requires room { length pool.old.terms + 2 ≤ pool.old.max_nodes }
    ensures grows { OnOk result (Grown pool.old.terms pool.new.terms) }
    ensures nodes { OnOk result (AreNodes pool.new.terms nodes.new.items) }
    ensures terms { OnOk result (terms_at pool.new.terms nodes.new.items ≡ terms_at pool.old.terms nodes.old.items ++ negation (term_at pool.old.terms node) ∷ []) }
    ensures few { OnOk result (length pool.new.terms ≤ length pool.old.terms + 2) }
    ensures limit { OnOk result (pool.new.max_nodes ≡ pool.old.max_nodes) }
{
    let made = negated(pool, node)?;
    push(nodes, made)?;
    Ok(())
}

/// Some nodes and then some more.
fn joined(alloc: Global, nodes: &[u32], more: &[u32]) -> Result<Vec<u32>, AllocError>
    ensures { IfOk result (λ v. v.items ≡ nodes.now ++ more.now) }
{
    let mut all = Vec::from_slice(alloc, nodes)?;
    all.extend_from_slice(more)?;
    Ok(all)
}

/// Adds a node at the end.
fn push(nodes: &mut Vec<u32>, node: u32) -> Result<(), AllocError>
    ensures { OnOk result (nodes.new.items ≡ nodes.old.items ++ node ∷ []) }
{
    nodes.push(node)?;
    Ok(())
}
