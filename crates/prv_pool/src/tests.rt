//! Which rule of folding applies, and what it just misses, row by row.
use crate::{Node, Pool, PoolError};
use prv_model::TermOp;
use std::process::Abort;
use std::test::Fail;

/// Operands of the rows: parameters, numbers, and comparisons of the parameters.
#[derive(Clone, Copy)]
enum Operand {
    A,
    B,
    Num(i32),
    Less,
    AtLeast,
    Equal,
    Unequal,
}

/// What an operator gives: this operand, or the operator on both in this or the other order.
#[derive(Clone, Copy)]
enum Gives {
    One(Operand),
    Itself,
    Exchanged,
}

/// Rules with operands that they change, and with operands that they just miss.
const FOLDINGS: [(TermOp, Operand, Operand, Gives); 16] = [
    (TermOp::Mul, Operand::Num(2), Operand::A, Gives::Exchanged),
    (TermOp::Sub, Operand::B, Operand::A, Gives::Itself),
    (
        TermOp::Div,
        Operand::Num(-2147483648),
        Operand::Num(-1),
        Gives::One(Operand::Num(-2147483648)),
    ),
    (
        TermOp::Add,
        Operand::Num(0),
        Operand::A,
        Gives::One(Operand::A),
    ),
    (TermOp::Add, Operand::A, Operand::Num(1), Gives::Itself),
    (TermOp::Div, Operand::A, Operand::Num(0), Gives::Itself),
    (
        TermOp::Shl,
        Operand::A,
        Operand::Num(32),
        Gives::One(Operand::A),
    ),
    (
        TermOp::Rem,
        Operand::A,
        Operand::Num(1),
        Gives::One(Operand::Num(0)),
    ),
    (
        TermOp::Sub,
        Operand::A,
        Operand::A,
        Gives::One(Operand::Num(0)),
    ),
    (TermOp::Add, Operand::A, Operand::A, Gives::Itself),
    (
        TermOp::And,
        Operand::Num(1),
        Operand::Less,
        Gives::One(Operand::Less),
    ),
    (TermOp::And, Operand::A, Operand::Num(1), Gives::Itself),
    (
        TermOp::Or,
        Operand::Unequal,
        Operand::Equal,
        Gives::One(Operand::Num(1)),
    ),
    (
        TermOp::Eq,
        Operand::Less,
        Operand::Num(0),
        Gives::One(Operand::AtLeast),
    ),
    (TermOp::Eq, Operand::A, Operand::Num(0), Gives::Itself),
    (
        TermOp::Ne,
        Operand::Num(0),
        Operand::Unequal,
        Gives::One(Operand::Unequal),
    ),
];

fn op(rt: &impl Abort, pool: &mut Pool, op: TermOp, a: u32, b: u32) -> Result<u32, PoolError> {
    let count = pool.len();
    assert!(rt; a < count && b < count);
    pool.op(op, a, b)
}

fn node_of(rt: &impl Abort, pool: &mut Pool, operand: Operand) -> Result<u32, PoolError> {
    let a = pool.param(0)?;
    let b = pool.param(1)?;
    match operand {
        Operand::A => Ok(a),
        Operand::B => Ok(b),
        Operand::Num(n) => pool.num(n),
        Operand::Less => op(rt, pool, TermOp::Lt, a, b),
        Operand::AtLeast => op(rt, pool, TermOp::Le, b, a),
        Operand::Equal => op(rt, pool, TermOp::Eq, a, b),
        Operand::Unequal => op(rt, pool, TermOp::Ne, a, b),
    }
}

fn node(rt: &impl Abort, pool: &Pool, n: u32) -> Node {
    let count = pool.len();
    assert!(rt; n < count);
    pool.node(n)
}

/// Asserts what an operator on two operands gives.
fn check_row(
    rt: &impl Abort,
    pool: &mut Pool,
    (of, left, right, gives): (TermOp, Operand, Operand, Gives),
) -> Result<(), PoolError> {
    let a = node_of(rt, pool, left)?;
    let b = node_of(rt, pool, right)?;
    let made = op(rt, pool, of, a, b)?;
    match gives {
        Gives::One(one) => {
            let wanted = node_of(rt, pool, one)?;
            assert_eq!(rt; made, wanted);
        }
        Gives::Itself => assert!(rt; node(rt, pool, made) == Node::Op(of, a, b)),
        Gives::Exchanged => assert!(rt; node(rt, pool, made) == Node::Op(of, b, a)),
    }
    Ok(())
}

#[test]
fn operators_fold_by_the_first_rule_that_applies(rt: HostRuntime) -> Result<(), Fail> {
    let mut pool = Pool::new(rt.alloc(), 100);
    for row in FOLDINGS {
        check_row(&rt, &mut pool, row)?;
    }
    Ok(())
}

fn pick(rt: &impl Abort, pool: &mut Pool, c: u32, a: u32, b: u32) -> Result<u32, PoolError> {
    let count = pool.len();
    assert!(rt; c < count && a < count && b < count);
    pool.pick(c, a, b)
}

fn not(rt: &impl Abort, pool: &mut Pool, a: u32) -> Result<u32, PoolError> {
    let count = pool.len();
    assert!(rt; a < count);
    pool.not(a)
}

fn truth(rt: &impl Abort, pool: &mut Pool, a: u32) -> Result<u32, PoolError> {
    let count = pool.len();
    assert!(rt; a < count);
    pool.truth(a)
}

/// With ample memory each call answers.
#[test]
fn calls_answer_the_nodes_of_their_terms(rt: HostRuntime) -> Result<(), Fail> {
    let mut pool = Pool::new(rt.alloc(), 100);
    let a = pool.param(0)?;
    let two = pool.num(2)?;
    let sum = op(&rt, &mut pool, TermOp::Add, a, two)?;
    let chosen = pick(&rt, &mut pool, sum, two, a)?;
    let nonzero = truth(&rt, &mut pool, sum)?;
    let zero = not(&rt, &mut pool, a)?;
    assert!(rt; node(&rt, &pool, sum) == Node::Op(TermOp::Add, a, two));
    assert!(rt; node(&rt, &pool, chosen) == Node::Pick(sum, two, a));
    assert!(rt; node(&rt, &pool, nonzero) == Node::Op(TermOp::Ne, sum, 4));
    assert!(rt; node(&rt, &pool, zero) == Node::Op(TermOp::Eq, a, 4));
    Ok(())
}
