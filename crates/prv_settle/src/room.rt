//! Room for nodes. A settlement's pool is made with room for what its parts need beside the terms that are counted, so
//! that a node of theirs is refused for want of memory alone.
ghost use Rattle.std.specs.Prelude.{◌+◌, ◌<◌, ◌≤◌, length, Ok, IfOk};
ghost use Rattle.prv_pool.specs.Folding.{negation};
ghost use Rattle.prv_pool.specs.Tables.{Makes, term_at};

use prv_pool::{Pool, PoolError};
use std::alloc::AllocError;

/// The node of a negation, where the pool has room for it and for 0, which it may be over.
pub(crate) fn negated(pool: &mut Pool, node: u32) -> Result<u32, AllocError>
    requires node { node < length pool.old.terms }
    requires room { length pool.old.terms + 2 ≤ pool.old.max_nodes }
    ensures makes { IfOk result (λ made. Makes (negation (term_at pool.old.terms node)) pool.old pool.new (Ok made)) }
    ensures few { length pool.new.terms ≤ length pool.old.terms + 2 }
{
    let _ = pool.len();
    match pool.not(node) {
        Ok(made) => Ok(made),
        Err(PoolError::Memory) => Err(AllocError),
        Err(PoolError::Wide) => unreachable!(),
    }
}
