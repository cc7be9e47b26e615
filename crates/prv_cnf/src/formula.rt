//! Formulas in conjunctive normal form, which only grow: by variables, and by clauses at the end.
ghost use Rattle.std.specs.Prelude.{◌≡◌, ◌+◌, ◌<◌, ◌≤◌, ◌↔◌, ◌++◌, ◌∷◌, [], length, IsTrue, OnOk, OnErr};
ghost use Rattle.std.specs.List.{AllByRecursion, list_all};
ghost use Rattle.prv_cnf.specs.Formulas.{IsLiteral};
ghost use Rattle.prv_cnf.specs.Models.{IsModel, is_clause_true, values_of};

use crate::clauses::Clause;
use crate::literal::Lit;
use std::alloc::{AllocError, Global};
use std::marker::Model;

/// The most variables that a formula has.
pub const MAX_VARS: u32 = 2_000_000;

/// A formula in conjunctive normal form: its variables are numbered from 1, and a model makes each
/// clause true.
#[derive(Debug, Drop)]
pub struct Cnf {
    /// How many variables there are.
    vars: u32,
    /// The clauses, in the order in which they were added.
    clauses: Vec<Clause>,
}

impl Model for Cnf {
    ghost use Rattle.prv_cnf.specs.Formulas.{Formula, IsFormula};

    ghost Value = { Formula };

    ghost view = { λ f. record { vars = f.vars; clauses = f.clauses.items } };

    ghost invariant = { λ f. IsFormula (record { vars = f.vars; clauses = f.clauses.items }) };
}

impl Cnf {
    ghost use Rattle.prv_cnf.specs.Formulas.{Formula, IsFormula, IsLiteral};

    /// The formula of so many variables, at most [`MAX_VARS`], with no clauses. It grows from
    /// `alloc`.
    pub fn new(alloc: Global, vars: u32) -> Cnf
        requires { vars ≤ MAX_VARS }
        ensures { result ≡ record { vars = vars; clauses = [] } }
    {
        Cnf {
            vars,
            clauses: Vec::new(alloc),
        }
    }

    /// Adds a variable, and answers its number, which is now the greatest.
    pub fn add_var(&mut self) -> u32
        requires { self.old.vars < MAX_VARS }
        ensures greatest { result ≡ self.new.vars }
        ensures one_more { self.new ≡ record self.old { vars = self.old.vars + 1 } }
    {
        self.vars += 1;
        self.vars
    }

    /// Whether each literal is of one of the variables, so that they may be added as a clause.
    pub fn accepts(&self, lits: &[Lit]) -> bool
        ensures { IsTrue result ↔ AllByRecursion (IsLiteral self.now.vars) lits.now }
    {
        all_within(self.vars, lits)
    }

    /// Adds a clause at the end. Want of memory leaves the formula as it was.
    pub fn push_clause(&mut self, lits: &[Lit]) -> Result<(), AllocError>
        requires { AllByRecursion (IsLiteral self.old.vars) lits.now }
        ensures ok { OnOk result (self.new ≡ record self.old { clauses = self.old.clauses ++ lits.now ∷ [] }) }
        ensures err { OnErr result (self.new ≡ self.old) }
    {
        let clause = Clause::new(*self.clauses.allocator(), lits)?;
        self.clauses.push(clause)?;
        Ok(())
    }

    /// Whether the values, one for each variable, are a model: each clause has a true literal.
    pub fn holds(&self, values: &[bool]) -> bool
        requires { length values.now ≡ self.now.vars }
        ensures { IsTrue result ↔ IsModel (values_of values.now) self.now }
    {
        all_true(self.clauses.as_slice(), values)
    }

    /// How many variables the formula has.
    pub fn vars(&self) -> u32
        ensures value { result ≡ self.now.vars }
        ensures bound { result ≤ MAX_VARS }
        ensures formula { IsFormula self.now }
    {
        self.vars
    }

    /// The clauses, in the order in which they were added.
    pub fn clauses(&self) -> &[Clause]
        ensures value { result.now ≡ self.now.clauses }
        ensures formula { IsFormula self.now }
    {
        self.clauses.as_slice()
    }
}

/// Whether each clause has a true literal.
fn all_true(clauses: &[Clause], values: &[bool]) -> bool
    ensures { result ≡ list_all (is_clause_true (values_of values.now)) clauses.now }
{
    clauses.iter().all(|clause| clause.is_true(values))
}

/// Whether each literal is of one of the first so many variables.
fn all_within(vars: u32, lits: &[Lit]) -> bool
    ensures { IsTrue result ↔ AllByRecursion (IsLiteral vars) lits.now }
{
    lits.iter()
        .all(|lit| lit.variable() > 0 && lit.variable() <= vars)
}
