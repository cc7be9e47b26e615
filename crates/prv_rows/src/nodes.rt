//! Nodes of a pool whose terms are over at most 8 parameters.
ghost use Rattle.std.specs.Prelude.{◌<◌, length, OnOk};
ghost use Rattle.std.specs.List.{AllByRecursion};
ghost use Rattle.prv_model.specs.Terms.{IsTerm};

use crate::refusal::Refusal;
use prv_model::TermOp;
use prv_pool::{Pool, PoolError};

/// The operator of a word.
pub fn op_of(word: &str) -> Option<TermOp> {
    match word {
        "+" => Some(TermOp::Add),
        "-" => Some(TermOp::Sub),
        "*" => Some(TermOp::Mul),
        "/" => Some(TermOp::Div),
        "%" => Some(TermOp::Rem),
        "<<" => Some(TermOp::Shl),
        ">>" => Some(TermOp::Shr),
        "&" => Some(TermOp::And),
        "|" => Some(TermOp::Or),
        "^" => Some(TermOp::Xor),
        "<" => Some(TermOp::Lt),
        "<=" => Some(TermOp::Le),
        "==" => Some(TermOp::Eq),
        "!=" => Some(TermOp::Ne),
        _ => None,
    }
}

/// The node of a parameter or a number.
pub fn node_of(pool: &mut Pool, word: &str) -> Result<u32, Refusal>
    requires known { AllByRecursion (IsTerm 8) pool.old.terms }
    ensures known { OnOk result (AllByRecursion (IsTerm 8) pool.new.terms) }
{
    let node = match word {
        "a" => param(pool, 0)?,
        "b" => param(pool, 1)?,
        "c" => param(pool, 2)?,
        _ => {
            let value: i32 = word.parse()?;
            num(pool, value)?
        }
    };
    Ok(node)
}

/// The node of a parameter.
fn param(pool: &mut Pool, k: u8) -> Result<u32, PoolError>
    requires known { AllByRecursion (IsTerm 8) pool.old.terms }
    requires few { k < 8 }
    ensures known { OnOk result (AllByRecursion (IsTerm 8) pool.new.terms) }
{
    pool.param(k)
}

/// The node of a number.
fn num(pool: &mut Pool, n: i32) -> Result<u32, PoolError>
    requires known { AllByRecursion (IsTerm 8) pool.old.terms }
    ensures known { OnOk result (AllByRecursion (IsTerm 8) pool.new.terms) }
{
    pool.num(n)
}

/// The node of an operator on two numbers that nodes have to have.
pub fn op_on(pool: &mut Pool, operator: TermOp, a: u32, b: u32) -> Result<u32, Refusal>
    requires known { AllByRecursion (IsTerm 8) pool.old.terms }
    ensures known { OnOk result (AllByRecursion (IsTerm 8) pool.new.terms) }
{
    let nodes = pool.len();
    if a >= nodes || b >= nodes {
        return Err(Refusal::Row);
    }
    let node = op(pool, operator, a, b)?;
    Ok(node)
}

/// The node of an operator.
fn op(pool: &mut Pool, op: TermOp, a: u32, b: u32) -> Result<u32, PoolError>
    requires known { AllByRecursion (IsTerm 8) pool.old.terms }
    requires first { a < length pool.old.terms }
    requires second { b < length pool.old.terms }
    ensures known { OnOk result (AllByRecursion (IsTerm 8) pool.new.terms) }
{
    pool.op(op, a, b)
}
