//! Choices between two bits by a third, of which nothing is known.
ghost use Rattle.std.specs.Prelude.{◌≡◌, ◌<◌, IfOk};
ghost use Rattle.prv_gate.specs.Circuits.{IsFree, IsFreeLiteral};
ghost use Rattle.prv_gate.specs.Folding.{mux_made as mux_made_run, mux_signed as mux_signed_run, mux_of as mux_run, mux_bits as mux_bits_run};

use crate::bit::Bit;
use crate::builder::Builder;
use crate::folding::is_negative;
use crate::gate::Gate;
use prv_cnf::{Lit, MAX_VARS};
use std::alloc::AllocError;

impl Builder {
    /// A choice between two literals whose first is made positive.
    #[tactic(auto, unfolding(crate::specs::Folding::mux_made))]
    fn mux_made(&mut self, c: Lit, a: Lit, b: Lit) -> Result<Bit, AllocError>
        requires selector { IsFreeLiteral self.old c }
        requires first { IsFreeLiteral self.old a }
        requires second { IsFreeLiteral self.old b }
        requires room { self.old.formula.vars < MAX_VARS }
        ensures { IfOk result (λ out. record { out = out; circuit = self.new } ≡ mux_made_run c a b self.old) }
    {
        if is_negative(a) {
            let out = self.make(Gate::Mux(c, a.negated(), b.negated()))?;
            return Ok(Bit::Lit(out).negated());
        }
        let out = self.make(Gate::Mux(c, a, b))?;
        Ok(Bit::Lit(out))
    }

    /// A choice between two literals by a selector that is made positive.
    #[tactic(auto, unfolding(crate::specs::Folding::mux_signed))]
    fn mux_signed(&mut self, c: Lit, a: Lit, b: Lit) -> Result<Bit, AllocError>
        requires selector { IsFreeLiteral self.old c }
        requires first { IsFreeLiteral self.old a }
        requires second { IsFreeLiteral self.old b }
        requires room { self.old.formula.vars < MAX_VARS }
        ensures { IfOk result (λ out. record { out = out; circuit = self.new } ≡ mux_signed_run c a b self.old) }
    {
        if is_negative(c) {
            return self.mux_made(c.negated(), b, a);
        }
        self.mux_made(c, a, b)
    }

    /// The first literal chooses between the others.
    #[tactic(auto, unfolding(crate::specs::Folding::mux_of))]
    fn mux_of(&mut self, c: Lit, a: Lit, b: Lit) -> Result<Bit, AllocError>
        requires selector { IsFreeLiteral self.old c }
        requires first { IsFreeLiteral self.old a }
        requires second { IsFreeLiteral self.old b }
        requires room { self.old.formula.vars < MAX_VARS }
        ensures { IfOk result (λ out. record { out = out; circuit = self.new } ≡ mux_run c a b self.old) }
    {
        if a == b {
            return Ok(Bit::Lit(a));
        }
        if a == b.negated() {
            let differ = self.xor_of(c, a)?;
            return Ok(differ.negated());
        }
        if a == c {
            return self.or_of(c, b);
        }
        if a == c.negated() {
            return self.and_of(a, b);
        }
        if b == c {
            return self.and_of(c, a);
        }
        if b == c.negated() {
            return self.or_of(b, a);
        }
        self.mux_signed(c, a, b)
    }

    /// The first bit chooses between the others.
    #[tactic(auto, unfolding(crate::specs::Folding::mux_bits))]
    pub(crate) fn mux_bits(&mut self, c: Bit, a: Bit, b: Bit) -> Result<Bit, AllocError>
        requires selector { IsFree self.old c }
        requires first { IsFree self.old a }
        requires second { IsFree self.old b }
        requires room { self.old.formula.vars < MAX_VARS }
        ensures { IfOk result (λ out. record { out = out; circuit = self.new } ≡ mux_bits_run c a b self.old) }
    {
        match (c, a, b) {
            (Bit::False, _, b) => Ok(b),
            (Bit::True, a, _) => Ok(a),
            (Bit::Lit(c), Bit::False, b) => self.and_bits(Bit::Lit(c.negated()), b),
            (Bit::Lit(c), Bit::True, b) => self.or_bits(Bit::Lit(c), b),
            (Bit::Lit(c), Bit::Lit(a), Bit::False) => self.and_of(c, a),
            (Bit::Lit(c), Bit::Lit(a), Bit::True) => self.or_of(c.negated(), a),
            (Bit::Lit(c), Bit::Lit(a), Bit::Lit(b)) => self.mux_of(c, a, b),
        }
    }
}
