//! Copies of a region's terms in another pool.
ghost use Rattle.std.specs.Prelude.{◌≡◌, ◌<◌, [], ◌∷◌, ◌++◌, MatchResult, Some, None, Err, length, map, All, IfOk, OnOk, OnErr, slice_get};
ghost use Rattle.prv_pool.specs.Tables.{Grown, add_terms, term_at};
ghost use Rattle.prv_region.specs.Numbers.{Stands, number_at as number_at_of};
ghost use Rattle.prv_region.specs.Copies.{Copies};

use crate::numbers::{Renumbering, node_in, number_at};
use crate::region::{Cond, Region};
use prv_pool::{Pool, PoolError};
use std::alloc::Global;
use std::sync::Arc;

impl Region {
    /// The condition of the region's terms in a pool.
    ///
    /// The terms are added in their order, each after those of its subterms that the pool hasn't got, in
    /// time in proportion to the nodes of the region's own pool. Where it fails, the pool is as it was.
    pub fn copy_into(&self, alloc: Global, pool: &mut Pool) -> Result<Cond, PoolError>
        ensures stands { IfOk result (λ cond. map (term_at pool.new.terms) cond ≡ self.now) }
        ensures within { IfOk result (λ cond. All (λ n. n < length pool.new.terms) cond) }
        ensures grows { OnOk result (pool.new.terms ≡ add_terms pool.old.terms self.now) }
        ensures limit { pool.new.max_nodes ≡ pool.old.max_nodes }
        ensures refused { OnErr result (pool.new ≡ pool.old) }
        ensures wide { result ≡ Err PoolError.Wide → pool.old.max_nodes < length (add_terms pool.old.terms self.now) }
    {
        let count = pool.len();
        let parts = self.parts();
        match copy_roots(pool, alloc, parts.pool, parts.roots) {
            Ok(roots) => match Arc::new(alloc, roots) {
                Ok(roots) => Ok(Cond::new(roots)),
                Err(_) => {
                    pool.truncate(count);
                    Err(PoolError::Memory)
                }
            },
            Err(error) => {
                pool.truncate(count);
                Err(error)
            }
        }
    }
}

/// The nodes of some terms of a pool in another, which gets what it hasn't got of them.
fn copy_roots(
    into: &mut Pool,
    alloc: Global,
    from: &Pool,
    roots: &[u32],
) -> Result<Vec<u32>, PoolError>
    requires { All (λ n. n < length from.now.terms) roots.now }
    ensures copied { IfOk result (λ copies. map (slice_get into.new.terms) copies.items ≡ map Some (map (term_at from.now.terms) roots.now)) }
    ensures grows { OnOk result (into.new.terms ≡ add_terms into.old.terms (map (term_at from.now.terms) roots.now)) }
    ensures kept { Grown into.old.terms into.new.terms }
    ensures limit { into.new.max_nodes ≡ into.old.max_nodes }
    ensures wide { result ≡ Err PoolError.Wide → into.old.max_nodes < length (add_terms into.old.terms (map (term_at from.now.terms) roots.now)) }
{
    let mut numbers = vec![in alloc; None; from.len() as usize]?;
    let mut waiting = Vec::new(alloc);
    let mut copies = Vec::new(alloc);
    for root in roots {
        let copy = copy_root(into, from, &mut numbers, &mut waiting, *root)?;
        push(&mut copies, copy)?;
    }
    Ok(copies)
}

/// The node of one term of a pool in another.
fn copy_root(
    into: &mut Pool,
    from: &Pool,
    numbers: &mut Vec<Option<u32>>,
    waiting: &mut Vec<u32>,
    root: u32,
) -> Result<u32, PoolError>
    requires within { root < length from.now.terms }
    requires sized { length numbers.old.items ≡ length from.now.terms }
    requires stands { Stands from.now.terms into.old.terms numbers.old.items }
    requires idle { waiting.old.items ≡ [] }
    ensures copies { Copies (term_at from.now.terms root) into.old into.new result }
    ensures sized { length numbers.new.items ≡ length from.now.terms }
    ensures stands { OnOk result (Stands from.now.terms into.new.terms numbers.new.items) }
    ensures idle { OnOk result (waiting.new.items ≡ []) }
{
    match number_at(numbers.as_slice(), root) {
        Some(n) => Ok(n),
        None => copy_new(into, from, numbers, waiting, root),
    }
}

/// The node of one term of a pool, which has no number yet, in another.
fn copy_new(
    into: &mut Pool,
    from: &Pool,
    numbers: &mut Vec<Option<u32>>,
    waiting: &mut Vec<u32>,
    root: u32,
) -> Result<u32, PoolError>
    requires within { root < length from.now.terms }
    requires sized { length numbers.old.items ≡ length from.now.terms }
    requires stands { Stands from.now.terms into.old.terms numbers.old.items }
    requires new { number_at_of numbers.old.items root ≡ None }
    requires idle { waiting.old.items ≡ [] }
    ensures copies { Copies (term_at from.now.terms root) into.old into.new result }
    ensures sized { length numbers.new.items ≡ length from.now.terms }
    ensures stands { OnOk result (Stands from.now.terms into.new.terms numbers.new.items) }
    ensures idle { OnOk result (waiting.new.items ≡ []) }
{
    let mut made = 0;
    push(waiting, root)?;
    while let Some(n) = waiting.pop() {
        match node_in(into, from, numbers.as_slice(), n) {
            Renumbering::Ready(node) => {
                made = into.intern(node)?;
                numbers[n as usize] = Some(made);
            }
            Renumbering::Lacks(operand) => {
                push(waiting, n)?;
                push(waiting, operand)?;
            }
        }
    }
    Ok(made)
}

/// Adds a number at the end of a list.
fn push(list: &mut Vec<u32>, n: u32) -> Result<(), PoolError>
    ensures { MatchResult result (λ _. list.new.items ≡ list.old.items ++ n ∷ []) (λ error. error ≡ PoolError.Memory) }
{
    match list.push(n) {
        Ok(()) => Ok(()),
        Err(_) => Err(PoolError::Memory),
    }
}
