//! Logs as text: a clause is its literals and `;`, a line its literals, `:`, its hints and `;`.
use super::*;
use crate::checker::size;
use prv_cnf::{Clause, Cnf, Lit};
use std::alloc::AllocError;
use std::process::Abort;

fn clauses_of<'a>(rt: &impl AllocGlobal, text: &'a str) -> Result<Vec<&'a str>, AllocError> {
    let mut parts = Vec::new(rt.alloc());
    for part in text.split(';') {
        parts.push(part)?;
    }
    let _ = parts.pop();
    Ok(parts)
}

fn lits_of(rt: &(impl AllocGlobal + Abort), text: &str) -> Result<Vec<Lit>, AllocError> {
    let mut lits = Vec::new(rt.alloc());
    for word in text.split_whitespace() {
        lits.push(Lit(word.parse::<i32>().expect(rt, "a literal")))?;
    }
    Ok(lits)
}

fn formula_of(rt: &(impl AllocGlobal + Abort), vars: u32, text: &str) -> Result<Cnf, AllocError> {
    assert!(rt; vars <= 10);
    let mut cnf = Cnf::new(rt.alloc(), vars);
    for clause in clauses_of(rt, text)?.as_slice() {
        let lits = lits_of(rt, clause)?;
        let accepted = cnf.accepts(lits.as_slice());
        assert!(rt; accepted);
        cnf.push_clause(lits.as_slice())?;
    }
    Ok(cnf)
}

fn line_of(rt: &(impl AllocGlobal + Abort), text: &str) -> Result<Line, AllocError> {
    let (lits, numbers) = text.split_once(':').expect(rt, "a colon");
    let mut hints = Vec::new(rt.alloc());
    for word in numbers.split_whitespace() {
        hints.push(word.parse::<u32>().expect(rt, "a hint"))?;
    }
    let lits = lits_of(rt, lits)?;
    Ok(Line::new(Clause::new(rt.alloc(), lits.as_slice())?, hints))
}

fn log_of(rt: &(impl AllocGlobal + Abort), text: &str) -> Result<Log, AllocError> {
    let mut log = Log::new(Vec::new(rt.alloc()));
    for line in clauses_of(rt, text)?.as_slice() {
        log.push(line_of(rt, line)?)?;
    }
    Ok(log)
}

fn refused(line: u32, why: LineWhy) -> Result<(), CheckError> {
    Err(CheckError::Refused { line, why })
}

/// Logs, what `check` answers, and what `check_fresh` answers.
#[test]
fn checks_logs(rt: HostRuntime) -> Result<(), AllocError> {
    let all = "1 2; 1 -2; -1 2; -1 -2;";
    let loose = refused(0, LineWhy::Loose);
    let contains = refused(0, LineWhy::Contains);
    let open = refused(1, LineWhy::NoEmpty);
    for (formula, log, want, want_fresh) in [
        ("1; -1;", ": 0 1;", Ok(()), contains),
        (
            all,
            "1 : 0 1; : 4 2 3;",
            Ok(()),
            refused(1, LineWhy::Contains),
        ),
        (
            all,
            "1 : 0 1; 2 : 2 4;",
            refused(2, LineWhy::NoEmpty),
            Ok(()),
        ),
        (all, "", refused(0, LineWhy::NoEmpty), Ok(())),
        (";", ": 0;", Ok(()), contains),
        // A literal that stands twice counts once, and a hint may come again while it is unit.
        ("1 1; -1 -1;", ": 0 0 1;", Ok(()), contains),
        // Five literals and more lie in an allocation of their own.
        (
            "1 2 3 4 5 6; 1 2 3 4 5 -6;",
            "5 4 3 2 1 : 0 1;",
            open,
            Ok(()),
        ),
        ("1 2; 1 -2;", "1 3 : 0 1;", open, loose),
        ("1 2; 1 -2; 1 3;", "1 : 2 0 1;", open, loose),
        ("1 2; 1 -2 -3; 1 3;", "1 : 2 0 1;", open, Ok(())),
        ("2 2 1 1; 1 -2;", "2 1 : 0;", open, contains),
        (
            "1;",
            "1 1 -2147483648 : 0;",
            refused(0, LineWhy::BadLiteral),
            refused(0, LineWhy::BadLiteral),
        ),
    ] {
        let cnf = formula_of(&rt, 6, formula)?;
        let log = log_of(&rt, log)?;
        assert!(rt; log.lines().len() < 100);
        assert_eq!(rt; check(rt.alloc(), &cnf, &log), want, "{formula} {log:?}");
        assert_eq!(rt;
            check_fresh(rt.alloc(), &cnf, &log),
            want_fresh,
            "{formula} {log:?}"
        );
    }
    Ok(())
}

/// Proofs: what `check_refutation` answers of a log, and what `check_spent` answers of its lines with the
/// last as the further one.
#[test]
fn checks_proofs(rt: HostRuntime) -> Result<(), AllocError> {
    let cnf = formula_of(&rt, 2, "1 2; 1 -2; -1 2; -1 -2;")?;
    let unrefuting = |line| Err(RefutationError::BadLine { line });
    let unspent = |line| Err(SpentError::BadLine { line });
    for (log, want, want_spent) in [
        ("1 : 0 1; : 4 2 3;", Ok(()), unspent(1)),
        ("1 : 0 1; 2 : 4 2;", Err(RefutationError::NoEmpty), Ok(())),
        ("1 : 0 1; 2 : 4 4 2;", unrefuting(1), unspent(1)),
        ("1 : 0 1; 2 : 4 5;", unrefuting(1), unspent(1)),
        ("1 : 0 1; 1 : 0 1; : 4 2 3;", Ok(()), unspent(1)),
        ("1 : 0 0; 2 : 4 4 2;", unrefuting(0), unspent(0)),
    ] {
        let log = log_of(&rt, log)?;
        assert!(rt; log.lines().len() < 100);
        assert_eq!(rt; check_refutation(rt.alloc(), &cnf, &log), want, "{log:?}");
        let mut lines = log.into_vec();
        let next = lines.pop();
        let log = Log::new(lines);
        assert!(rt; log.lines().len() < 100);
        assert_eq!(rt;
            check_spent(rt.alloc(), &cnf, &log, &next),
            want_spent,
            "{log:?} {next:?}"
        );
    }
    Ok(())
}

/// A line in room that was made before.
#[test]
fn checks_a_line_in_room(rt: HostRuntime) -> Result<(), AllocError> {
    let cnf = formula_of(&rt, 2, "1 2; 1 -2;")?;
    let log = log_of(&rt, "1 : 0 1;")?;
    let lines = log.lines();
    assert!(rt; lines.len() == 1);
    let size = size(&lines[0]);
    assert!(rt; size <= 3);
    assert_eq!(rt; log.numbers(), 5);
    let mut work = prepare(rt.alloc(), &cnf, 1, 5)?;
    assert_eq!(rt; check_line(&cnf, &log, 0, &mut work), Ok(()));
    Ok(())
}
