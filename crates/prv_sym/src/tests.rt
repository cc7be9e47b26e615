//! The nodes of one run, counted by hand.
use crate::terms;
use prv_model::{BinOp, Expr, Input, Name, Program, Stmt, TermOp};
use prv_pool::{Node, Pool, PoolError};
use prv_run::trace;
use sqlite_items::{Boxed, Items};
use std::alloc::{AllocError, Global};
use std::test::Fail;

/// The variable of this number.
fn var(n: u8) -> Expr {
    Expr::Var(n)
}

fn of(alloc: Global, op: BinOp, a: Expr, b: Expr) -> Result<Expr, AllocError> {
    Ok(Expr::Bin(op, Boxed::new(alloc, a)?, Boxed::new(alloc, b)?))
}

/// `int main(int a) { int u = 0; u = a + 1; if (u < 5) out(1 / u); return u; }`.
fn program(alloc: Global) -> Result<Option<Program>, AllocError> {
    let mut names = Items::new(alloc);
    names.push(Name::new(alloc, b"a")?)?;
    names.push(Name::new(alloc, b"u")?)?;
    let mut body = Items::new(alloc);
    body.push(Stmt::Set {
        var: 1,
        value: Expr::Num(0),
    })?;
    body.push(Stmt::Set {
        var: 1,
        value: of(alloc, BinOp::Add, var(0), Expr::Num(1))?,
    })?;
    let divided = of(alloc, BinOp::Div, Expr::Num(1), var(1))?;
    body.push(Stmt::If {
        test: of(alloc, BinOp::Lt, var(1), Expr::Num(5))?,
        yes: Boxed::new(alloc, Stmt::Out(divided))?,
        no: None,
    })?;
    body.push(Stmt::Return(var(1)))?;
    Ok(Program::new(1, names, body))
}

/// The nodes of a run by hand, on an input that takes the branch, on one that faults in it, and on one
/// that doesn't take it; and a table with one node less.
#[test]
fn terms_of_a_run(rt: HostRuntime) -> Result<(), Fail> {
    let alloc = rt.alloc();
    let all = [
        Node::Num(0),
        Node::Num(1),
        Node::Param(0),
        Node::Op(TermOp::Add, 2, 1),
        Node::Num(5),
        Node::Op(TermOp::Lt, 3, 4),
        Node::Op(TermOp::Div, 1, 3),
        Node::Op(TermOp::Ne, 3, 0),
    ];
    let rows: [(i32, usize, &[u32], &[u32]); 3] = [
        (1, 8, &[0, 3, 5, 6, 3], &[1, 1, 1, 7, 1]),
        (-1, 8, &[0, 3, 5, 6], &[1, 1, 1, 7]),
        (9, 6, &[0, 3, 5, 3], &[1, 1, 1, 1]),
    ];
    let program = program(alloc)?;
    assert!(rt; program.is_some(), "the program is one");
    if let Some(program) = program {
        for (word, count, values, safes) in rows {
            let mut input = Input::new(alloc);
            input.push(word)?;
            assert!(rt; input.as_slice().len() == program.params as usize);
            let traced = trace(alloc, &program, &input, 4)?;
            let mut pool = Pool::new(alloc, count as u32);
            let symbols = terms(alloc, &program, &traced, &mut pool)?;
            assert!(rt; symbols.values.as_slice() == values, "values on {word}");
            assert!(rt; symbols.safes.as_slice() == safes, "safes on {word}");
            assert_eq!(rt; pool.len() as usize, count);
            for k in 0..count {
                assert!(rt; pool.node(k as u32) == all[k], "node {k} on {word}");
            }
            let mut small = Pool::new(alloc, count as u32 - 1);
            let refused = terms(alloc, &program, &traced, &mut small);
            assert!(rt;
                matches!(&refused, Err(PoolError::Wide)),
                "too small on {word}"
            );
        }
    }
    Ok(())
}
