//! Gates made once each: the table of gates, and the clauses of a new one.
ghost use Rattle.std.specs.Prelude.{◌≡◌, ◌<◌, ◌≤◌, IfOk, OnOk};
ghost use Rattle.prv_cnf.specs.Formulas.{IsLiteral};
ghost use Rattle.prv_gate.specs.Gates.{gate_clauses, HoldsOfInputs};
ghost use Rattle.prv_gate.specs.Circuits.{made, defined, find_gate, with_clauses, IsFreeGate};
ghost use Rattle.prv_gate.specs.declared.gate.Gate.TheVariants.{And, Xor, Mux, Majority, Parity};

use crate::builder::Builder;
use crate::gate::Gate;
use prv_cnf::{Lit, MAX_VARS};
use std::alloc::AllocError;

impl Builder {
    /// The output of a gate: that of the table, or a new variable's.
    #[tactic(auto, unfolding(crate::specs::Circuits::made))]
    pub(crate) fn make(&mut self, gate: Gate) -> Result<Lit, AllocError>
        requires inside { IsFreeGate self.old gate }
        requires room { self.old.formula.vars < MAX_VARS }
        ensures run { IfOk result (λ out. record { out = out; circuit = self.new } ≡ made gate self.old) }
        ensures inside { IfOk result (λ out. IsLiteral MAX_VARS out) }
    {
        match self.find(gate) {
            Some(out) => Ok(out),
            None => self.define(gate),
        }
    }

    /// Makes a gate that isn't in the table.
    fn define(&mut self, gate: Gate) -> Result<Lit, AllocError>
        requires inside { IsFreeGate self.old gate }
        requires room { self.old.formula.vars < MAX_VARS }
        requires new { find_gate gate self.old.gates ≡ None }
        ensures { IfOk result (λ out. record { out = out; circuit = self.new } ≡ defined gate self.old) }
    {
        let out = self.add_variable();
        self.push_gate(gate, out)?;
        self.remember(gate, out)?;
        Ok(out)
    }

    /// Adds the clauses of a gate with this output.
    fn push_gate(&mut self, gate: Gate, out: Lit) -> Result<(), AllocError>
        requires inside { HoldsOfInputs (IsLiteral self.old.formula.vars) gate }
        requires out { IsLiteral self.old.formula.vars out }
        requires bound { self.old.formula.vars ≤ MAX_VARS }
        ensures { OnOk result (self.new ≡ with_clauses (gate_clauses gate out) self.old) }
    {
        match gate {
            Gate::And(a, b) => self.push_and(a, b, out),
            Gate::Xor(a, b) => self.push_xor(a, b, out),
            Gate::Mux(s, a, b) => self.push_mux(s, a, b, out),
            Gate::Majority(a, b, c) => self.push_majority(a, b, c, out),
            Gate::Parity(a, b, c) => self.push_parity(a, b, c, out),
        }
    }

    fn push_and(&mut self, a: Lit, b: Lit, out: Lit) -> Result<(), AllocError>
        requires inside { HoldsOfInputs (IsLiteral self.old.formula.vars) (And a b) }
        requires out { IsLiteral self.old.formula.vars out }
        requires bound { self.old.formula.vars ≤ MAX_VARS }
        ensures { OnOk result (self.new ≡ with_clauses (gate_clauses (And a b) out) self.old) }
    {
        self.push(&[out.negated(), a])?;
        self.push(&[out.negated(), b])?;
        self.push(&[out, a.negated(), b.negated()])
    }

    fn push_xor(&mut self, a: Lit, b: Lit, out: Lit) -> Result<(), AllocError>
        requires inside { HoldsOfInputs (IsLiteral self.old.formula.vars) (Xor a b) }
        requires out { IsLiteral self.old.formula.vars out }
        requires bound { self.old.formula.vars ≤ MAX_VARS }
        ensures { OnOk result (self.new ≡ with_clauses (gate_clauses (Xor a b) out) self.old) }
    {
        self.push(&[out.negated(), a, b])?;
        self.push(&[out.negated(), a.negated(), b.negated()])?;
        self.push(&[out, a.negated(), b])?;
        self.push(&[out, a, b.negated()])
    }

    fn push_mux(&mut self, s: Lit, a: Lit, b: Lit, out: Lit) -> Result<(), AllocError>
        requires inside { HoldsOfInputs (IsLiteral self.old.formula.vars) (Mux s a b) }
        requires out { IsLiteral self.old.formula.vars out }
        requires bound { self.old.formula.vars ≤ MAX_VARS }
        ensures { OnOk result (self.new ≡ with_clauses (gate_clauses (Mux s a b) out) self.old) }
    {
        self.push(&[out.negated(), s.negated(), a])?;
        self.push(&[out, s.negated(), a.negated()])?;
        self.push(&[out.negated(), s, b])?;
        self.push(&[out, s, b.negated()])
    }

    fn push_majority(&mut self, a: Lit, b: Lit, c: Lit, out: Lit) -> Result<(), AllocError>
        requires inside { HoldsOfInputs (IsLiteral self.old.formula.vars) (Majority a b c) }
        requires out { IsLiteral self.old.formula.vars out }
        requires bound { self.old.formula.vars ≤ MAX_VARS }
        ensures { OnOk result (self.new ≡ with_clauses (gate_clauses (Majority a b c) out) self.old) }
    {
        self.push(&[out.negated(), a, b])?;
        self.push(&[out.negated(), a, c])?;
        self.push(&[out.negated(), b, c])?;
        self.push(&[out, a.negated(), b.negated()])?;
        self.push(&[out, a.negated(), c.negated()])?;
        self.push(&[out, b.negated(), c.negated()])
    }

    fn push_parity(&mut self, a: Lit, b: Lit, c: Lit, out: Lit) -> Result<(), AllocError>
        requires inside { HoldsOfInputs (IsLiteral self.old.formula.vars) (Parity a b c) }
        requires out { IsLiteral self.old.formula.vars out }
        requires bound { self.old.formula.vars ≤ MAX_VARS }
        ensures { OnOk result (self.new ≡ with_clauses (gate_clauses (Parity a b c) out) self.old) }
    {
        self.push(&[out.negated(), a, b, c])?;
        self.push(&[out.negated(), a, b.negated(), c.negated()])?;
        self.push(&[out.negated(), a.negated(), b, c.negated()])?;
        self.push(&[out.negated(), a.negated(), b.negated(), c])?;
        self.push(&[out, a.negated(), b, c])?;
        self.push(&[out, a, b.negated(), c])?;
        self.push(&[out, a, b, c.negated()])?;
        self.push(&[out, a.negated(), b.negated(), c.negated()])
    }
}
