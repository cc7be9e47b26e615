//! Models of a formula, and the literals of its clauses.
use super::*;
use std::alloc::AllocError;

/// Two variables, and the clauses `1 2`, `-1 2`, `-2 -2 1`.
fn example(rt: &impl AllocGlobal) -> Result<Cnf, AllocError> {
    let mut cnf = Cnf::new(rt.alloc(), 1);
    let second = cnf.add_var();
    let _ = second;
    cnf.push_clause(&[Lit(1), Lit(2)])?;
    cnf.push_clause(&[Lit(-1), Lit(2)])?;
    cnf.push_clause(&[Lit(-2), Lit(-2), Lit(1)])?;
    Ok(cnf)
}

#[test]
fn tells_models_of_a_formula(rt: HostRuntime) -> Result<(), AllocError> {
    let mut cnf = example(&rt)?;
    assert_eq!(rt; cnf.vars(), 2);
    for (values, want) in [
        ([false, false], false),
        ([false, true], false),
        ([true, false], false),
        ([true, true], true),
    ] {
        assert!(rt; values.len() == cnf.vars() as usize);
        assert_eq!(rt; cnf.holds(&values), want, "{values:?}");
    }
    cnf.push_clause(&[])?;
    assert!(rt; cnf.vars() == 2);
    assert!(rt; !cnf.holds(&[true, true]));
    Ok(())
}

#[test]
fn keeps_the_literals_of_a_clause(rt: HostRuntime) -> Result<(), AllocError> {
    let cnf = example(&rt)?;
    let mut lengths = Vec::new(rt.alloc());
    for clause in cnf.clauses() {
        lengths.push(clause.lits().len())?;
    }
    assert_eq!(rt; lengths.as_slice(), [2, 2, 3].as_slice());
    let wild = [
        Lit(0),
        Lit(i32::MIN),
        Lit(i32::MAX),
        Lit(7),
        Lit(7),
        Lit(-7),
    ];
    let clause = Clause::new(rt.alloc(), &wild)?;
    assert_eq!(rt; clause.lits(), wild.as_slice());
    Ok(())
}
