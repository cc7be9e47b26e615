//! Operators at the edges of words, and lists of entries that are and are not legal: that the definitions say
//! what was meant.
use crate::arithmetic::apply;
use crate::boards::places;
use crate::entry::{Entry, Kind};
use crate::input::Input;
use crate::name::Name;
use crate::op::{BinOp, TermOp};
use crate::outcome::{Ending, Outcome};
use crate::program::Program;
use crate::stmt::Stmt;
use crate::term::{Term, value_of};
use crate::verdict::{Verdict, compare};
use sqlite_items::{Boxed, Items};
use std::test::Fail;

const MIN: i32 = -2147483648;

const MAX: i32 = 2147483647;

/// Values worked out by hand from C's rules and this project's own at the edges.
#[test]
fn operators_at_the_edges(rt: HostRuntime) {
    let rows = [
        (BinOp::Add, MAX, 1, Some(MIN)),
        (BinOp::Sub, 0, MIN, Some(MIN)),
        (BinOp::Mul, MIN, -1, Some(MIN)),
        (BinOp::Mul, 65536, 65536, Some(0)),
        (BinOp::Div, -7, 2, Some(-3)),
        (BinOp::Div, 7, -2, Some(-3)),
        (BinOp::Div, MIN, -1, Some(MIN)),
        (BinOp::Div, 5, 0, None),
        (BinOp::Rem, -7, 2, Some(-1)),
        (BinOp::Rem, 7, -2, Some(1)),
        (BinOp::Rem, MIN, -1, Some(0)),
        (BinOp::Rem, 5, 0, None),
        (BinOp::Shl, 1, 31, Some(MIN)),
        (BinOp::Shl, 1, 33, Some(2)),
        (BinOp::Shl, 1, -1, Some(MIN)),
        (BinOp::Shr, -7, 1, Some(-4)),
        (BinOp::Shr, -8, 33, Some(-4)),
        (BinOp::Shr, MIN, -1, Some(-1)),
        (BinOp::And, -8, 13, Some(8)),
        (BinOp::Or, -8, 5, Some(-3)),
        (BinOp::Xor, -1, MAX, Some(MIN)),
        (BinOp::Lt, MIN, MAX, Some(1)),
        (BinOp::Lt, 3, 3, Some(0)),
        (BinOp::Le, 3, 3, Some(1)),
        (BinOp::Gt, -1, 0, Some(0)),
        (BinOp::Ge, 0, -1, Some(1)),
        (BinOp::Eq, MIN, MIN, Some(1)),
        (BinOp::Ne, MIN, MIN, Some(0)),
        (BinOp::AndAlso, -5, 7, Some(1)),
        (BinOp::AndAlso, 0, 7, Some(0)),
        (BinOp::OrElse, 0, 0, Some(0)),
        (BinOp::OrElse, 0, MIN, Some(1)),
    ];
    for (op, a, b, want) in rows {
        assert!(rt; apply(op, a, b) == want, "{op:?} of {a} and {b}");
    }
}

/// `a op n`.
fn operation(rt: &HostRuntime, op: TermOp, n: i32) -> Result<Term, Fail> {
    Ok(Term::Op(
        op,
        Boxed::new(rt.alloc(), Term::Param(0))?,
        Boxed::new(rt.alloc(), Term::Num(n))?,
    ))
}

fn input(rt: &HostRuntime, word: i32) -> Result<Input, Fail> {
    let mut input = Input::new(rt.alloc());
    input.push(word)?;
    Ok(input)
}

fn entry(rt: &HostRuntime, op: TermOp, n: i32, kind: Kind) -> Result<Entry, Fail> {
    let mut terms = Items::new(rt.alloc());
    terms.push(operation(rt, op, n)?)?;
    Ok(Entry {
        number: 1,
        terms,
        kind,
        marks: Items::new(rt.alloc()),
    })
}

/// A legal list, one with an overlap, one with a false claim, and one with a sample outside.
#[test]
fn lists_of_entries(rt: HostRuntime) -> Result<(), Fail> {
    let below = entry(
        &rt,
        TermOp::Lt,
        5,
        Kind::Different {
            sample: input(&rt, 4)?,
        },
    )?;
    let outside = Kind::Different {
        sample: input(&rt, 5)?,
    };
    assert!(rt; below.kind.shows_member(1, below.terms.as_slice()));
    assert!(rt; !below.kind.shows_member(2, below.terms.as_slice()));
    assert!(rt; !outside.shows_member(1, below.terms.as_slice()));
    assert!(rt; below.kind.claims(Verdict::Differ) && !Kind::Same.claims(Verdict::Differ));
    assert!(rt; !Kind::Empty.claims(Verdict::Same) && Kind::Unexplored.claims(Verdict::Same));
    let rest = entry(&rt, TermOp::Ne, 4, Kind::Unexplored)?;
    let entries = [below, rest];
    assert_eq!(rt; places(&entries, &input(&rt, 5)?), 1);
    assert_eq!(rt; places(&entries, &input(&rt, 4)?), 1);
    assert_eq!(rt; places(&entries, &input(&rt, 3)?), 2);
    assert_eq!(rt; value_of(&operation(&rt, TermOp::Div, 0)?, &[7]), 0);
    Ok(())
}

fn outcome(rt: &HostRuntime, word: i32, how: Ending) -> Result<Outcome, Fail> {
    Ok(Outcome {
        outs: Items::from_slice(rt.alloc(), &[1, word])?,
        how,
    })
}

/// Outcomes are compared as wholes, and a long run decides before that.
#[test]
fn outcomes_are_compared_as_wholes(rt: HostRuntime) -> Result<(), Fail> {
    let rows = [
        (2, Ending::Returned, Verdict::Same),
        (3, Ending::Returned, Verdict::Differ),
        (2, Ending::Fault, Verdict::Differ),
        (2, Ending::Long, Verdict::Beyond),
    ];
    let returned = outcome(&rt, 2, Ending::Returned)?;
    for (word, how, want) in rows {
        let other = outcome(&rt, word, how)?;
        assert!(rt; compare(&returned, &other) == want, "{word} {how:?}");
        assert!(rt;
            returned.same(&other) == (want == Verdict::Same),
            "{word} {how:?}"
        );
    }
    Ok(())
}

/// Parts make a program exactly within the limits: here of parameters and of statements.
#[test]
fn parts_of_programs(rt: HostRuntime) -> Result<(), Fail> {
    let rows = [
        (0, 0, false),
        (1, 1000, true),
        (1, 1001, false),
        (2, 1, false),
    ];
    for (params, statements, want) in rows {
        let mut names = Items::new(rt.alloc());
        names.push(Name::new(rt.alloc(), b"a")?)?;
        let mut body = Items::new(rt.alloc());
        for _ in 0..statements {
            body.push(Stmt::Skip)?;
        }
        assert!(rt;
            Program::new(params, names, body).is_some() == want,
            "{params} {statements}"
        );
    }
    Ok(())
}
