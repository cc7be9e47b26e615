//! That formulas are made with ample memory, and the bound on their cost from both sides.
ghost use Rattle.std.specs.Prelude.{◌≡◌, ◌<◌, ◌≤◌, [], ◌∷◌, length, IfOk, OnOk};
ghost use Rattle.std.specs.List.{AllByRecursion};
ghost use Rattle.prv_model.specs.Terms.{IsTerm};

use crate::{BlastError, Blasted, blast};
use prv_model::TermOp;
use prv_pool::{Pool, PoolError};
use prv_region::Cond;
use std::alloc::{AllocError, Global};
use std::sync::Arc;
use std::test::Fail;

/// The node of an operator, in a pool whose terms are over at most 8 parameters.
fn op(pool: &mut Pool, op: TermOp, a: u32, b: u32) -> Result<u32, PoolError>
    requires known { AllByRecursion (IsTerm 8) pool.old.terms }
    requires first { a < length pool.old.terms }
    requires second { b < length pool.old.terms }
    ensures known { OnOk result (AllByRecursion (IsTerm 8) pool.new.terms) }
    ensures longer { OnOk result (length pool.old.terms ≤ length pool.new.terms) }
    ensures there { IfOk result (λ n. n < length pool.new.terms) }
{
    pool.op(op, a, b)
}

/// The root of `a == 5`.
fn equality(pool: &mut Pool) -> Result<u32, PoolError>
    requires known { AllByRecursion (IsTerm 8) pool.old.terms }
    ensures known { OnOk result (AllByRecursion (IsTerm 8) pool.new.terms) }
    ensures there { IfOk result (λ n. n < length pool.new.terms) }
{
    let a = pool.param(0)?;
    let five = pool.num(5)?;
    op(pool, TermOp::Eq, a, five)
}

/// The root of `a` times itself so many times.
fn power(pool: &mut Pool, times: u32) -> Result<u32, PoolError>
    requires known { AllByRecursion (IsTerm 8) pool.old.terms }
    ensures known { OnOk result (AllByRecursion (IsTerm 8) pool.new.terms) }
    ensures there { IfOk result (λ n. n < length pool.new.terms) }
{
    let a = pool.param(0)?;
    let mut product = a;
    for _ in 0..times {
        product = op(pool, TermOp::Mul, product, a)?;
    }
    Ok(product)
}

/// The condition of one root.
fn condition(alloc: Global, root: u32) -> Result<Cond, AllocError>
    ensures { IfOk result (λ c. c ≡ root ∷ []) }
{
    let roots = vec![in alloc; root]?;
    let roots = Arc::new(alloc, roots)?;
    Ok(Cond::new(roots))
}

/// The formula of the condition of one root.
fn formula_of(alloc: Global, pool: &Pool, root: u32) -> Result<Blasted, BlastError>
    requires known { AllByRecursion (IsTerm 8) pool.now.terms }
    requires there { root < length pool.now.terms }
{
    let cond = condition(alloc, root)?;
    blast(alloc, pool, &cond)
}

/// The bits of 5 are those of the variables, the highest first.
#[test]
fn an_equality_holds_on_the_bits_of_its_number(rt: HostRuntime) -> Result<(), Fail> {
    let mut pool = Pool::new(rt.alloc(), 10);
    let root = equality(&mut pool)?;
    let blasted = formula_of(rt.alloc(), &pool, root).expect(&rt, "a formula");
    assert_eq!(rt; blasted.params, 1);
    let mut values = Vec::new(rt.alloc());
    for k in 0..blasted.cnf.vars() {
        values.push(k >= 32 || k == 29 || k == 31)?;
    }
    assert_eq!(rt; values.len(), blasted.cnf.vars() as usize);
    assert!(rt; blasted.cnf.holds(values.as_slice()));
    let input = blasted.input_of(rt.alloc(), values.as_slice())?;
    assert!(rt; input.as_slice() == [5].as_slice());
    Ok(())
}

#[test]
fn products_up_to_the_limit_have_formulas(rt: HostRuntime) -> Result<(), Fail> {
    let mut pool = Pool::new(rt.alloc(), 1000);
    let root = power(&mut pool, 149)?;
    let blasted = formula_of(rt.alloc(), &pool, root).expect(&rt, "a formula");
    assert_eq!(rt; blasted.params, 1);
    Ok(())
}

#[test]
fn products_past_the_limit_are_refused(rt: HostRuntime) -> Result<(), Fail> {
    let mut pool = Pool::new(rt.alloc(), 1000);
    let root = power(&mut pool, 150)?;
    match formula_of(rt.alloc(), &pool, root) {
        Err(BlastError::Clauses { count }) => assert_eq!(rt; count, 1_500_040),
        _ => assert!(rt; false, "the condition has a formula"),
    }
    Ok(())
}
