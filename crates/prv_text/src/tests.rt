//! Where operands need parentheses, and where a line is cut.
ghost use Rattle.std.specs.Prelude.{◌≡◌, [], IfOk, IfSome};

use crate::board::{report, report_generated};
use crate::entry::push_entry;
use crate::last::Last;
use crate::term::push_literal;
use prv_board::{Board, Ended, Totals};
use prv_model::{Entry, Expr, Input, Kind, Name, Pair, Program, Reason, Stmt, Term, TermOp};
use prv_part::Caps;
use prv_pool::Pool;
use prv_region::{Cond, Region};
use sqlite_items::{Boxed, Items};
use std::alloc::{AllocError, Global};
use std::sync::Arc;
use std::test::Fail;

/// Names of 1, 63, 13 and 14 bytes.
fn names(rt: &HostRuntime) -> Result<Vec<Name>, Fail> {
    let alloc = rt.alloc();
    let mut names = Vec::new(alloc);
    for name in [
        "a",
        "x23456789012345678901234567890123456789012345678901234567890123",
        "y234567890123",
        "z2345678901234",
    ] {
        names.push(Name::new(alloc, name.as_bytes())?)?;
    }
    Ok(names)
}

fn op(rt: &HostRuntime, a: Term, op: TermOp, b: Term) -> Result<Term, Fail> {
    Ok(Term::Op(op, Boxed::new(rt.alloc(), a)?, Boxed::new(rt.alloc(), b)?))
}

fn pick(rt: &HostRuntime, test: Term, chosen: Term, other: Term) -> Result<Term, Fail> {
    Ok(Term::Pick(
        Boxed::new(rt.alloc(), test)?,
        Boxed::new(rt.alloc(), chosen)?,
        Boxed::new(rt.alloc(), other)?,
    ))
}

/// The text of a literal.
fn literal(rt: &HostRuntime, term: &Term) -> Result<Vec<u8>, Fail> {
    let mut out = Vec::new(rt.alloc());
    push_literal(&mut out, names(rt)?.as_slice(), term)?;
    Ok(out)
}

/// A choice, and nested operands.
#[test]
fn operands(rt: HostRuntime) -> Result<(), Fail> {
    let sum = op(&rt, Term::Param(0), TermOp::Add, Term::Num(1))?;
    let rest = op(&rt, Term::Param(0), TermOp::Rem, Term::Num(-3))?;
    let choice = pick(&rt, Term::Param(0), Term::Num(2), rest)?;
    let product = op(&rt, sum, TermOp::Mul, choice)?;
    assert_eq!(rt;
        literal(&rt, &product)?.as_slice(),
        b"(a + 1) * (a ? 2 : (a % -3))".as_slice()
    );
    Ok(())
}

/// Texts of 80 and of 81 bytes.
#[test]
fn lengths(rt: HostRuntime) -> Result<(), Fail> {
    let whole = op(&rt, Term::Param(1), TermOp::Eq, Term::Param(2))?;
    assert_eq!(rt;
        literal(&rt, &whole)?.as_slice(),
        b"x23456789012345678901234567890123456789012345678901234567890123 == y234567890123".as_slice()
    );
    let cut = op(&rt, Term::Param(1), TermOp::Ne, Term::Param(3))?;
    assert_eq!(rt;
        literal(&rt, &cut)?.as_slice(),
        b"x23456789012345678901234567890123456789012345678901234567890123 != z234567890123..".as_slice()
    );
    Ok(())
}

/// An entry whose condition is `a == 0`, so many times.
fn entry(
    rt: &HostRuntime,
    number: u32,
    kind: Kind,
    marks: &[u8],
    literals: u32,
) -> Result<Entry, Fail> {
    let mut terms = Items::new(rt.alloc());
    for _ in 0..literals {
        terms.push(op(rt, Term::Param(0), TermOp::Eq, Term::Num(0))?)?;
    }
    Ok(Entry {
        number,
        terms,
        kind,
        marks: Items::from_vec(Vec::from_slice(rt.alloc(), marks)?),
    })
}

/// The line of an entry.
fn line(
    rt: &HostRuntime,
    number: u32,
    kind: Kind,
    marks: &[u8],
    literals: u32,
) -> Result<Vec<u8>, Fail> {
    let entry = entry(rt, number, kind, marks, literals)?;
    let mut out = Vec::new(rt.alloc());
    push_entry(&mut out, names(rt)?.as_slice(), &entry)?;
    Ok(out)
}

/// Each kind of claim but two, with and without marks.
#[test]
fn kinds(rt: HostRuntime) -> Result<(), Fail> {
    assert_eq!(rt;
        line(&rt, 1, Kind::Same, &[], 0)?.as_slice(),
        b"1 same marks none: true\n".as_slice()
    );
    assert_eq!(rt;
        line(&rt, 3, Kind::Empty, &[3], 0)?.as_slice(),
        b"3 empty: true\n".as_slice()
    );
    assert_eq!(rt;
        line(&rt, 4, Kind::Beyond, &[2, 7, 255], 0)?.as_slice(),
        b"4 beyond marks 2,7,255: true\n".as_slice()
    );
    assert_eq!(rt;
        line(&rt, 9, Kind::Unexplored, &[1], 0)?.as_slice(),
        b"9 open: true\n".as_slice()
    );
    Ok(())
}

/// A difference with its sample.
#[test]
fn difference(rt: HostRuntime) -> Result<(), Fail> {
    let mut sample = Input::new(rt.alloc());
    sample.push(1)?;
    sample.push(-2)?;
    let text = line(&rt, 2, Kind::Different { sample }, &[], 1)?;
    assert_eq!(rt;
        text.as_slice(),
        b"2 different at 1 -2 marks none: a == 0\n".as_slice()
    );
    Ok(())
}

/// Whether the line of an entry that is undecided for this reason ends so.
fn tells(rt: &HostRuntime, reason: Reason, text: &str) -> Result<bool, Fail> {
    let mut want = Vec::from_slice(rt.alloc(), b"4294967295 undecided ")?;
    want.extend_from_slice(text.as_bytes())?;
    let got = line(rt, 4294967295, Kind::Undecided { reason }, &[1], 0)?;
    Ok(got.as_slice() == want.as_slice())
}

/// Each reason.
#[test]
fn reasons(rt: HostRuntime) -> Result<(), Fail> {
    assert!(rt; tells(&rt, Reason::Lines { budget: 2000 }, "lines 2000: true\n")?);
    assert!(rt; tells(&rt, Reason::Numbers { lines: 31 }, "numbers 31: true\n")?);
    assert!(rt;
        tells(
            &rt,
            Reason::Clauses {
                count: 5_000_000_000
            },
            "clauses 5000000000: true\n"
        )?
    );
    assert!(rt; tells(&rt, Reason::Wide, "nodes: true\n")?);
    assert!(rt; tells(&rt, Reason::Literals, "literals: true\n")?);
    Ok(())
}

/// Conditions of 32 and of 33 literals.
#[test]
fn conditions(rt: HostRuntime) -> Result<(), Fail> {
    for (literals, after) in [(32, "\n"), (33, " ; ..\n")] {
        let mut want = Vec::from_slice(rt.alloc(), b"5 open: a == 0")?;
        for _ in 0..31 {
            want.extend_from_slice(b" ; a == 0")?;
        }
        want.extend_from_slice(after.as_bytes())?;
        let got = line(&rt, 5, Kind::Unexplored, &[], literals)?;
        assert_eq!(rt; got.as_slice(), want.as_slice());
    }
    Ok(())
}

/// `int main(int a) { return n; }`.
fn program(alloc: Global, n: i32) -> Result<Option<Program>, AllocError>
    ensures { IfOk result (λ p. IfSome p (λ program. program.params ≡ 1)) }
{
    let mut names = Items::new(alloc);
    names.push(Name::new(alloc, b"a")?)?;
    let mut body = Items::new(alloc);
    body.push(Stmt::Return(Expr::Num(n)))?;
    Ok(Program::new(1, names, body))
}

/// A pair of two programs that return another number.
fn pair(alloc: Global) -> Result<Arc<Pair>, Fail> {
    match (program(alloc, 1)?, program(alloc, 2)?) {
        (Some(before), Some(after)) => {
            let pair = Pair {
                before,
                after,
                turns: 4,
            };
            Ok(Arc::new(alloc, pair)?)
        }
        _ => Err(Fail::from(AllocError)),
    }
}

/// The region of all inputs.
fn everything(alloc: Global) -> Result<Region, Fail>
    ensures { IfOk result (λ region. region ≡ []) }
{
    let roots = Arc::new(alloc, Vec::new(alloc))?;
    let pool = Arc::new(alloc, Pool::new(alloc, 1))?;
    Ok(Region::new(pool, Cond::new(roots)))
}

/// A board of all inputs to which nothing was applied.
fn board(alloc: Global) -> Result<Board, Fail> {
    let caps = Caps {
        entries: 9,
        numbers: 9,
        literals: 9,
    };
    let space = everything(alloc)?;
    Ok(Board::new(alloc, pair(alloc)?, space, caps)?)
}

/// Both reports of a board, and three last lines.
#[test]
fn boards(rt: HostRuntime) -> Result<(), Fail> {
    let alloc = rt.alloc();
    let board = board(alloc)?;
    let full = Last::Ended(Ended::Full(Totals {
        entries: 3,
        numbers: 5_000_000_000,
        literals: 0,
    }));
    assert_eq!(rt;
        report(alloc, &board, &full)?.as_slice(),
        b"regions 1\n0 open: true\nsame 0 different 0 empty 0 beyond 0 open 1 undecided 0\nend full 3 5000000000 0\n".as_slice()
    );
    let checked = Last::Checked { records: 12 };
    assert_eq!(rt;
        report_generated(alloc, 7, 2, &board, &checked)?.as_slice(),
        b"gen 7 2 settlements 0\nsame 0 different 0 empty 0 beyond 0 open 1 undecided 0\nend checked 12\n".as_slice()
    );
    Ok(())
}
