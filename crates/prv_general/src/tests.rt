//! Slices worked out by hand. What no clause excludes is a body that always lacks memory, and one that is
//! refused by a pool that has just the room.
use crate::{GeneralError, Slice, generalise};
use prv_model::{BinOp, Ending, Expr, Input, Name, Program, Stmt};
use prv_pool::Pool;
use sqlite_items::{Boxed, Items};
use std::alloc::{AllocError, Global};
use std::test::Fail;

/// The variable of this number: 0 is the parameter `a`, and 1 is `u`.
fn var(n: u8) -> Expr {
    Expr::Var(n)
}

fn of(alloc: Global, op: BinOp, a: Expr, b: Expr) -> Result<Expr, AllocError> {
    Ok(Expr::Bin(op, Boxed::new(alloc, a)?, Boxed::new(alloc, b)?))
}

/// `1 / a`.
fn divided(alloc: Global) -> Result<Expr, AllocError> {
    of(alloc, BinOp::Div, Expr::Num(1), var(0))
}

fn set(value: Expr) -> Stmt {
    Stmt::Set { var: 1, value }
}

/// `@7 if (a < 5) chosen`.
fn marked_if(alloc: Global, chosen: Stmt) -> Result<Stmt, AllocError> {
    let test = of(alloc, BinOp::Lt, var(0), Expr::Num(5))?;
    let body = Stmt::If {
        test,
        yes: Boxed::new(alloc, chosen)?,
        no: None,
    };
    Ok(Stmt::Marked {
        mark: 7,
        body: Boxed::new(alloc, body)?,
    })
}

/// The first statement of a program.
fn first(alloc: Global, program: u8) -> Result<Stmt, AllocError> {
    match program {
        0 => marked_if(alloc, set(Expr::Num(1))),
        1 => marked_if(alloc, Stmt::Out(var(1))),
        2 => marked_if(alloc, set(Expr::Num(1))),
        3 => Ok(set(divided(alloc)?)),
        4 => Ok(Stmt::Skip),
        _ => Ok(Stmt::While {
            test: var(0),
            body: Boxed::new(alloc, Stmt::Skip)?,
        }),
    }
}

/// The second statement of a program.
fn second(alloc: Global, program: u8) -> Result<Stmt, AllocError> {
    match program {
        2 => Ok(Stmt::Assert(var(1))),
        4 => Ok(Stmt::Return(of(alloc, BinOp::AndAlso, var(0), divided(alloc)?)?)),
        _ => Ok(Stmt::Return(var(0))),
    }
}

/// The program `int main(int a) { int u; first second }`.
fn program(alloc: Global, program: u8) -> Result<Option<Program>, AllocError> {
    let mut names = Items::new(alloc);
    names.push(Name::new(alloc, b"a")?)?;
    names.push(Name::new(alloc, b"u")?)?;
    let mut body = Items::new(alloc);
    body.push(first(alloc, program)?)?;
    body.push(second(alloc, program)?)?;
    Ok(Program::new(1, names, body))
}

/// The slice of a program at an input of one word, with a pool of so many nodes.
fn sliced(
    alloc: Global,
    number: u8,
    word: i32,
    nodes: u32,
) -> Result<Option<Result<Slice, GeneralError>>, AllocError> {
    let mut input = Input::new(alloc);
    input.push(word)?;
    let mut pool = Pool::new(alloc, nodes);
    match program(alloc, number)? {
        None => Ok(None),
        Some(program) => {
            if input.as_slice().len() != program.params as usize {
                return Ok(None);
            }
            Ok(Some(generalise(alloc, &program, &input, 1, &mut pool)))
        }
    }
}

/// Whether a slice has these literals, outs, ending and count of marks.
fn is(
    slice: &Option<Result<Slice, GeneralError>>,
    literals: &[u32],
    outs: &[u32],
    how: Ending,
    marks: usize,
) -> bool {
    match slice {
        Some(Ok(slice)) => {
            slice.literals.as_slice() == literals
                && slice.outs.as_slice() == outs
                && slice.how == how
                && slice.marks.len() == marks
        }
        _ => false,
    }
}

/// Slices by hand, each in a pool of exactly the nodes that it needs, and in one of a node less: a branch
/// that matters to nothing, to what is put out, and to an assertion; a fault, a division that is none, one
/// that isn't evaluated, and a loop that wants a turn too many.
#[test]
fn slices(rt: HostRuntime) -> Result<(), Fail> {
    let alloc = rt.alloc();
    let rows: [(u8, i32, u32, &[u32], &[u32], Ending, usize); 7] = [
        (0, 3, 4, &[], &[0], Ending::Returned, 0),
        (1, 3, 5, &[3], &[4, 0], Ending::Returned, 1),
        (2, 3, 5, &[3], &[4], Ending::Returned, 1),
        (3, 0, 6, &[5], &[], Ending::Fault, 0),
        (3, 2, 5, &[4], &[1], Ending::Returned, 0),
        (4, 0, 8, &[], &[6], Ending::Returned, 0),
        (5, 1, 4, &[3, 3], &[], Ending::Long, 0),
    ];
    for (number, word, nodes, literals, outs, how, marks) in rows {
        let slice = sliced(alloc, number, word, nodes)?;
        assert!(rt;
            is(&slice, literals, outs, how, marks),
            "program {number} at {word}"
        );
        let refused = sliced(alloc, number, word, nodes - 1)?;
        assert!(rt;
            matches!(&refused, Some(Err(GeneralError::Wide))),
            "program {number} at {word}, too small"
        );
    }
    Ok(())
}
