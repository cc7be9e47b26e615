//! Small formulas with their models, refutations and spent budgets; each log is checked.
use super::*;
use prv_check::{check, check_fresh};
use prv_cnf::{Cnf, Lit};
use std::alloc::AllocError;
use std::process::Abort;

/// What is found, with how many values are true, or how many lines the log has.
#[derive(Clone, Copy, Debug, PartialEq, Eq)]
enum Answer {
    Values(usize),
    Refuted(usize),
    Spent(usize),
}

/// The formula of these clauses, each ended by `;`.
fn formula_of(rt: &(impl AllocGlobal + Abort), vars: u32, text: &str) -> Result<Cnf, AllocError> {
    assert!(rt; vars <= 100_000);
    let mut cnf = Cnf::new(rt.alloc(), vars);
    for clause in text.split(';') {
        let mut lits = Vec::new(rt.alloc());
        for word in clause.split_whitespace() {
            lits.push(Lit(word.parse::<i32>().expect(rt, "a literal")))?;
        }
        push(rt, &mut cnf, lits.as_slice())?;
    }
    Ok(cnf)
}

/// The formula that makes the first variable true, and each after one that is true.
fn chain(rt: &(impl AllocGlobal + Abort), vars: u32) -> Result<Cnf, AllocError> {
    assert!(rt; vars <= 100_000);
    let mut cnf = Cnf::new(rt.alloc(), vars);
    for after in 1..vars {
        let var = (vars - after) as i32;
        push(rt, &mut cnf, &[Lit(-var), Lit(var + 1)])?;
    }
    push(rt, &mut cnf, &[Lit(1)])?;
    Ok(cnf)
}

/// Adds a clause of the formula's variables.
fn push(rt: &impl Abort, cnf: &mut Cnf, lits: &[Lit]) -> Result<(), AllocError> {
    let accepted = cnf.accepts(lits);
    assert!(rt; accepted);
    cnf.push_clause(lits)?;
    Ok(())
}

/// Solves a formula, and checks the log.
fn answer_to(
    rt: &(impl AllocGlobal + Abort),
    cnf: &Cnf,
    lines: u32,
    numbers: u32,
) -> Result<Answer, AllocError> {
    assert!(rt; lines > 0 && lines < 1000 && cnf.clauses().len() <= 100_000);
    match solve(rt.alloc(), cnf, lines, numbers)? {
        Found::Values(values) => Ok(Answer::Values(values.iter().filter(|value| **value).count())),
        Found::Refuted(log) => {
            let count = log.lines().len();
            assert!(rt; count < 1000);
            assert_eq!(rt; check(rt.alloc(), cnf, &log), Ok(()));
            Ok(Answer::Refuted(count))
        }
        Found::Spent { log, next } => {
            let count = log.lines().len();
            assert!(rt; next.is_none() && count < 1000);
            assert_eq!(rt; check_fresh(rt.alloc(), cnf, &log), Ok(()));
            Ok(Answer::Spent(count))
        }
    }
}

#[test]
fn solves(rt: HostRuntime) -> Result<(), AllocError> {
    for (vars, text, lines, numbers, want) in [
        (1, "1; -1", 5, 100, Answer::Refuted(1)),
        (2, "1 2; 1 -2; -1 2; -1 -2", 1, 1000, Answer::Spent(1)),
        (2, "1 2; 1 -2; -1 2; -1 -2", 9, 1000, Answer::Refuted(2)),
        (
            100_000,
            "99999 100000; 99999 -100000; -99999 100000; -99999 -100000",
            9,
            1000,
            Answer::Refuted(2),
        ),
    ] {
        let cnf = formula_of(&rt, vars, text)?;
        assert_eq!(rt; answer_to(&rt, &cnf, lines, numbers)?, want, "{text}");
    }
    let cnf = chain(&rt, 100_000)?;
    assert_eq!(rt;
        answer_to(&rt, &cnf, 1, 1_000_000)?,
        Answer::Values(100_000)
    );
    Ok(())
}
