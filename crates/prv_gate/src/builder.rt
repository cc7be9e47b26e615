//! The builder of a circuit: its formula, the gates that were made, and what unit propagation knows of them.
//! Every gate goes through it, so sharing and known bits hold of all circuits alike.
ghost use Rattle.std.specs.Prelude.{◌≡◌, ◌+◌, ◌<◌, ◌≤◌, ℕ, Bool, None, List, [], ◌∷◌, IfOk, IfSome, OnOk};
ghost use Rattle.std.specs.List.{AllByRecursion};
ghost use Rattle.prv_cnf.specs.Formulas.{IsLiteral};
ghost use Rattle.prv_cnf.specs.Literals.{is_literal_true};
ghost use Rattle.prv_cnf.specs.Models.{IsModel};
ghost use Rattle.prv_gate.specs.Bits.{IsBit};
ghost use Rattle.prv_gate.specs.Gates.{gate_value, HoldsOfInputs};
ghost use Rattle.prv_gate.specs.Knowledge.{known_literal, reduced};
ghost use Rattle.prv_gate.specs.Circuits.{blank, find_gate, with_variable, with_clauses, with_gate, next_output, IsCircuit, IsFree};
ghost use Rattle.prv_gate.specs.Assertions.{settled, ended};

use crate::bit::Bit;
use crate::gate::Gate;
use crate::propagate::value_of;
use crate::propagator::Propagator;
use indexmap::IndexMap;
use prv_cnf::{Cnf, Lit, MAX_VARS};
use std::alloc::{AllocError, Global};
use std::marker::Model;

/// Makes a circuit gate by gate, and keeps its formula.
///
/// A gate answers a bit that has the gate's value in each model of the formula. It adds clauses and
/// variables for it only where none that is known or was made before has that value.
#[derive(Drop)]
pub struct Builder {
    /// The formula made so far.
    cnf: Cnf,
    /// The gates that were made, each with the literal of its output.
    gates: IndexMap<Gate, Lit>,
    /// What unit propagation knows of the formula.
    propagator: Propagator,
    /// Whether the formula has a contradiction, behind which nothing is added.
    is_ended: bool,
}

impl Model for Builder {
    ghost use Rattle.prv_gate.specs.Circuits.{Circuit, IsCircuit};
    ghost use Rattle.prv_gate.specs.Occurrences.{AreOpen};

    ghost Value = { Circuit };

    ghost view = { λ b. record { formula = b.cnf; gates = b.gates.entries; known = b.propagator.known.items; is_ended = b.is_ended } };

    ghost invariant = { λ b. IsCircuit (record { formula = b.cnf; gates = b.gates.entries; known = b.propagator.known.items; is_ended = b.is_ended }) × AreOpen b.cnf.clauses b.propagator.known.items b.propagator.entered b.propagator.occurrences };
}

impl Builder {
    /// A formula of so many variables, at most [`MAX_VARS`], with no clauses. It grows from `alloc`.
    pub fn new(alloc: Global, vars: u32) -> Builder
        requires { vars ≤ MAX_VARS }
        ensures { result ≡ blank vars }
    {
        Builder {
            cnf: Cnf::new(alloc, vars),
            gates: IndexMap::new(alloc),
            propagator: Propagator::new(alloc),
            is_ended: false,
        }
    }

    /// The formula made so far.
    pub fn into_cnf(self) -> Cnf
        ensures { result ≡ self.formula }
    {
        self.cnf
    }

    /// How many variables the formula has.
    pub fn vars(&self) -> u32
        ensures value { result ≡ self.now.formula.vars }
        ensures bound { result ≤ MAX_VARS }
        ensures circuit { IsCircuit self.now }
    {
        let _ = &self.propagator;
        self.cnf.vars()
    }

    /// Whether the formula was ended by the empty clause, since what was asserted contradicts itself.
    pub fn is_ended(&self) -> bool
        ensures value { result ≡ self.now.is_ended }
        ensures circuit { IsCircuit self.now }
    {
        self.is_ended
    }

    /// The bit, or the constant that it is known to be.
    pub fn known(&self, bit: Bit) -> Bit
        requires { IsBit self.now.formula.vars bit }
        ensures value { result ≡ reduced self.now.known bit }
        ensures free { IsFree self.now result }
        ensures circuit { IsCircuit self.now }
    {
        let _ = &self.is_ended;
        match bit {
            Bit::False => Bit::False,
            Bit::True => Bit::True,
            Bit::Lit(lit) => match self.value(lit) {
                None => Bit::Lit(lit),
                Some(value) => Bit::from(value),
            },
        }
    }

    /// The allocator from which the circuit grows.
    pub(crate) fn alloc(&self) -> Global {
        self.propagator.alloc()
    }

    /// What is known of a literal.
    fn value(&self, lit: Lit) -> Option<bool>
        ensures { result ≡ known_literal self.now.known lit }
    {
        value_of(self.propagator.known(), lit)
    }

    /// Adds a variable, and answers its literal.
    pub(crate) fn add_variable(&mut self) -> Lit
        requires { self.old.formula.vars < MAX_VARS }
        ensures literal { result ≡ next_output self.old }
        ensures circuit { self.new ≡ with_variable self.old }
    {
        Lit(self.cnf.add_var() as i32)
    }

    /// Adds a clause.
    pub(crate) fn push(&mut self, lits: &[Lit]) -> Result<(), AllocError>
        requires { AllByRecursion (IsLiteral self.old.formula.vars) lits.now }
        ensures { OnOk result (self.new ≡ with_clauses (lits.now ∷ []) self.old) }
    {
        self.cnf.push_clause(lits)
    }

    /// The output of a gate that was made before.
    pub(crate) fn find(&self, gate: Gate) -> Option<Lit>
        ensures value { result ≡ find_gate gate self.now.gates }
        ensures inside { IfSome result (λ out. IsLiteral self.now.formula.vars out) }
    {
        self.gates.get(&gate).copied()
    }

    /// Adds a gate to the table, with its output.
    pub(crate) fn remember(&mut self, gate: Gate, out: Lit) -> Result<(), AllocError>
        requires new { find_gate gate self.old.gates ≡ None }
        requires inside { IsLiteral self.old.formula.vars out }
        requires value { (v : ℕ → Bool) → IsModel v self.old.formula → is_literal_true v out ≡ gate_value v gate }
        ensures { OnOk result (self.new ≡ with_gate gate out self.old) }
    {
        self.gates.insert(gate, out)?;
        Ok(())
    }

    /// Makes known all that follows from the clauses, or ends the formula where they contradict each
    /// other.
    pub(crate) fn settle(&mut self) -> Result<(), AllocError>
        ensures { OnOk result (self.new ≡ settled self.old) }
    {
        let vars = self.cnf.vars();
        if self.propagator.propagate(vars, self.cnf.clauses())? {
            return Ok(());
        }
        self.end()
    }

    /// Ends the formula by the empty clause.
    pub(crate) fn end(&mut self) -> Result<(), AllocError>
        ensures { OnOk result (self.new ≡ ended self.old) }
    {
        self.cnf.push_clause(&[])?;
        self.propagator.clear();
        self.is_ended = true;
        Ok(())
    }
}
