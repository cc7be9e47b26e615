//! Assertions: one of some bits is to be true, and all that follows is known.
ghost use Rattle.std.specs.Prelude.{◌≡◌, ◌++◌, ◌∷◌, IfOk, OnOk, length, option_map};
ghost use Rattle.std.specs.List.{AllByRecursion};
ghost use Rattle.prv_cnf.specs.Formulas.{IsLiteral};
ghost use Rattle.prv_gate.specs.Bits.{IsBit};
ghost use Rattle.prv_gate.specs.Assertions.{asserted, with_asserted, clause_of, Asserts};

use crate::bit::Bit;
use crate::builder::Builder;
use prv_cnf::Lit;
use std::alloc::AllocError;

impl Builder {
    /// Adds that one of the bits is true: a clause of those that aren't known, unless one is known to
    /// be true. All that follows from the clauses so far by unit propagation is known from then on.
    /// Where the clauses contradict each other, and where no bit is left, the empty clause is added,
    /// and the formula has ended: later assertions add nothing. It adds at most two clauses.
    pub fn assert_any(&mut self, bits: &[Bit]) -> Result<(), AllocError>
        requires { AllByRecursion (IsBit self.old.formula.vars) bits.now }
        ensures run { OnOk result (self.new ≡ asserted bits.now self.old) }
        ensures asserts { OnOk result (Asserts bits.now self.old self.new) }
    {
        if self.is_ended() {
            return Ok(());
        }
        match self.clause_of(bits)? {
            None => Ok(()),
            Some(lits) => self.assert_clause(lits.as_slice()),
        }
    }

    /// Adds a clause of literals that aren't known, and makes known all that follows.
    fn assert_clause(&mut self, lits: &[Lit]) -> Result<(), AllocError>
        requires { AllByRecursion (IsLiteral self.old.formula.vars) lits.now }
        ensures { OnOk result (self.new ≡ with_asserted self.old lits.now) }
    {
        if lits.is_empty() {
            return self.end();
        }
        self.push(lits)?;
        self.settle()
    }

    /// The literals of the bits that aren't known, unless one is known to be true.
    fn clause_of(&self, bits: &[Bit]) -> Result<Option<Vec<Lit>>, AllocError>
        requires { AllByRecursion (IsBit self.now.formula.vars) bits.now }
        ensures { IfOk result (λ r. option_map (λ ls. ls.items) r ≡ clause_of self.now.known bits.now) }
    {
        let mut lits = Vec::new(self.alloc());
        for bit in bits {
            match self.known(*bit) {
                Bit::False => {}
                Bit::True => return Ok(None),
                Bit::Lit(lit) => lits.push(lit)?,
            }
        }
        Ok(Some(lits))
    }
}
