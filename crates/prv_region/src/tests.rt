//! Regions by their terms: which inputs they hold, that two are one, and copies of them.
ghost use Rattle.std.specs.Prelude.{◌<◌, length, All, IfOk};

use crate::{Cond, MAX_REGION_NODES, Region, Scratch, same_region};
use prv_model::{Input, TermOp};
use prv_pool::{Pool, PoolError};
use std::process::Abort;
use std::sync::Arc;
use std::test::Fail;

/// The node of `a < 5`, which a number may stand before.
fn less_than_five(rt: &impl Abort, pool: &mut Pool, number_first: bool) -> Result<u32, PoolError>
    ensures { IfOk result (λ n. n < length pool.new.terms) }
{
    if number_first {
        pool.num(5)?;
    }
    let a = pool.param(0)?;
    let n = pool.num(5)?;
    let count = pool.len();
    assert!(rt; a < count && n < count);
    let less = pool.op(TermOp::Lt, a, n)?;
    let count = pool.len();
    assert!(rt; less < count);
    Ok(less)
}

/// The region of `a < 5`, in a pool in which the number stands before the parameter or behind it.
fn below_five(rt: &(impl AllocGlobal + Abort), number_first: bool) -> Result<Region, Fail> {
    let mut pool = Pool::new(rt.alloc(), 100);
    let less = less_than_five(rt, &mut pool, number_first)?;
    assert!(rt; pool.len() <= MAX_REGION_NODES);
    let roots = Arc::new(rt.alloc(), vec![in rt.alloc(); less]?)?;
    Ok(Region::new(Arc::new(rt.alloc(), pool)?, Cond::new(roots)))
}

/// Regions are one by their terms, not their numbers, and hold the same: `a < 5` holds 4 and not 5.
#[test]
fn regions_are_lists_of_terms(rt: HostRuntime) -> Result<(), Fail> {
    let region = below_five(&rt, true)?;
    let other = below_five(&rt, false)?;
    assert!(rt; same_region(rt.alloc(), &region, &other)?);
    let mut scratch = Scratch::new(rt.alloc());
    scratch.reserve_for_regions()?;
    assert!(rt; region.holds(&word(&rt, 4)?, &mut scratch));
    assert!(rt; !other.holds(&word(&rt, 5)?, &mut scratch));
    Ok(())
}

/// The input of one word.
fn word(rt: &impl AllocGlobal, word: i32) -> Result<Input, Fail> {
    let mut input = Input::new(rt.alloc());
    input.push(word)?;
    Ok(input)
}

/// Whether a condition of a pool holds on the input of one word.
fn holds_on(rt: &impl AllocGlobal, pool: &Pool, cond: &Cond, n: i32) -> Result<bool, Fail>
    requires { All (λ n. n < length pool.now.terms) cond.now }
{
    let mut scratch = Scratch::new(rt.alloc());
    scratch.reserve_for(pool)?;
    Ok(cond.holds(pool, &word(rt, n)?, &mut scratch))
}

/// A copy in a new pool holds what its region holds: `a < 5` on 4 and not on 5.
#[test]
fn a_copy_holds_what_its_region_holds(rt: HostRuntime) -> Result<(), Fail> {
    let region = below_five(&rt, true)?;
    let mut pool = Pool::new(rt.alloc(), 4);
    let cond = region.copy_into(rt.alloc(), &mut pool)?;
    assert!(rt; holds_on(&rt, &pool, &cond, 4)?);
    assert!(rt; !holds_on(&rt, &pool, &cond, 5)?);
    Ok(())
}

/// A pool of two nodes is too small for a copy of three.
#[test]
fn a_copy_may_be_too_wide(rt: HostRuntime) -> Result<(), Fail> {
    let region = below_five(&rt, true)?;
    let mut pool = Pool::new(rt.alloc(), 2);
    assert!(rt;
        matches!(
            region.copy_into(rt.alloc(), &mut pool),
            Err(PoolError::Wide)
        )
    );
    Ok(())
}
