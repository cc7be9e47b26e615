//! Majorities and parities of three bits of which nothing is known.
ghost use Rattle.std.specs.Prelude.{◌≡◌, ◌<◌, IfOk};
ghost use Rattle.prv_gate.specs.Circuits.{IsFree, IsFreeLiteral};
ghost use Rattle.prv_gate.specs.Folding.{majority_made as majority_made_run, majority_ordered as majority_ordered_run, majority_of as majority_run, majority_bits as majority_bits_run, equal_bits as equal_bits_run, parity_of as parity_run, parity_bits as parity_bits_run};

use crate::bit::Bit;
use crate::builder::Builder;
use crate::folding::{is_negative, ordered};
use crate::gate::Gate;
use prv_cnf::{Lit, MAX_VARS};
use std::alloc::AllocError;

impl Builder {
    /// The majority of three literals in order, of which the first is made positive.
    #[tactic(auto, unfolding(crate::specs::Folding::majority_made))]
    fn majority_made(&mut self, a: Lit, b: Lit, c: Lit) -> Result<Bit, AllocError>
        requires first { IsFreeLiteral self.old a }
        requires second { IsFreeLiteral self.old b }
        requires third { IsFreeLiteral self.old c }
        requires room { self.old.formula.vars < MAX_VARS }
        ensures { IfOk result (λ out. record { out = out; circuit = self.new } ≡ majority_made_run a b c self.old) }
    {
        if is_negative(a) {
            let out = self.make(Gate::Majority(a.negated(), b.negated(), c.negated()))?;
            return Ok(Bit::Lit(out).negated());
        }
        let out = self.make(Gate::Majority(a, b, c))?;
        Ok(Bit::Lit(out))
    }

    /// The majority of three literals, which are put in order.
    #[tactic(auto, unfolding(crate::specs::Folding::majority_ordered))]
    fn majority_ordered(&mut self, a: Lit, b: Lit, c: Lit) -> Result<Bit, AllocError>
        requires first { IsFreeLiteral self.old a }
        requires second { IsFreeLiteral self.old b }
        requires third { IsFreeLiteral self.old c }
        requires room { self.old.formula.vars < MAX_VARS }
        ensures { IfOk result (λ out. record { out = out; circuit = self.new } ≡ majority_ordered_run a b c self.old) }
    {
        let (low, high) = ordered(a, b);
        let (middle, greatest) = ordered(high, c);
        let (least, middle) = ordered(low, middle);
        self.majority_made(least, middle, greatest)
    }

    /// At least two of the literals are true.
    #[tactic(auto, unfolding(crate::specs::Folding::majority_of))]
    fn majority_of(&mut self, a: Lit, b: Lit, c: Lit) -> Result<Bit, AllocError>
        requires first { IsFreeLiteral self.old a }
        requires second { IsFreeLiteral self.old b }
        requires third { IsFreeLiteral self.old c }
        requires room { self.old.formula.vars < MAX_VARS }
        ensures { IfOk result (λ out. record { out = out; circuit = self.new } ≡ majority_run a b c self.old) }
    {
        if a == b {
            return Ok(Bit::Lit(a));
        }
        if a == b.negated() {
            return Ok(Bit::Lit(c));
        }
        if a == c {
            return Ok(Bit::Lit(a));
        }
        if a == c.negated() {
            return Ok(Bit::Lit(b));
        }
        if b == c {
            return Ok(Bit::Lit(b));
        }
        if b == c.negated() {
            return Ok(Bit::Lit(a));
        }
        self.majority_ordered(a, b, c)
    }

    /// At least two of the bits are true.
    #[tactic(auto, unfolding(crate::specs::Folding::majority_bits))]
    pub(crate) fn majority_bits(&mut self, a: Bit, b: Bit, c: Bit) -> Result<Bit, AllocError>
        requires first { IsFree self.old a }
        requires second { IsFree self.old b }
        requires third { IsFree self.old c }
        requires room { self.old.formula.vars < MAX_VARS }
        ensures { IfOk result (λ out. record { out = out; circuit = self.new } ≡ majority_bits_run a b c self.old) }
    {
        match (a, b, c) {
            (Bit::False, b, c) => self.and_bits(b, c),
            (Bit::True, b, c) => self.or_bits(b, c),
            (Bit::Lit(a), Bit::False, c) => self.and_bits(Bit::Lit(a), c),
            (Bit::Lit(a), Bit::True, c) => self.or_bits(Bit::Lit(a), c),
            (Bit::Lit(a), Bit::Lit(b), Bit::False) => self.and_of(a, b),
            (Bit::Lit(a), Bit::Lit(b), Bit::True) => self.or_of(a, b),
            (Bit::Lit(a), Bit::Lit(b), Bit::Lit(c)) => self.majority_of(a, b, c),
        }
    }

    /// The bits are equal.
    #[tactic(auto, unfolding(crate::specs::Folding::equal_bits))]
    fn equal_bits(&mut self, a: Bit, b: Bit) -> Result<Bit, AllocError>
        requires first { IsFree self.old a }
        requires second { IsFree self.old b }
        requires room { self.old.formula.vars < MAX_VARS }
        ensures { IfOk result (λ out. record { out = out; circuit = self.new } ≡ equal_bits_run a b self.old) }
    {
        let differ = self.xor_bits(a, b)?;
        Ok(differ.negated())
    }

    /// An odd number of the literals is true.
    #[tactic(auto, unfolding(crate::specs::Folding::parity_of))]
    fn parity_of(&mut self, a: Lit, b: Lit, c: Lit) -> Result<Bit, AllocError>
        requires first { IsFreeLiteral self.old a }
        requires second { IsFreeLiteral self.old b }
        requires third { IsFreeLiteral self.old c }
        requires room { self.old.formula.vars < MAX_VARS }
        ensures { IfOk result (λ out. record { out = out; circuit = self.new } ≡ parity_run a b c self.old) }
    {
        let out = self.make(Gate::Parity(a, b, c))?;
        Ok(Bit::Lit(out))
    }

    /// An odd number of the bits is true, by one gate.
    #[tactic(auto, unfolding(crate::specs::Folding::parity_bits))]
    pub(crate) fn parity_bits(&mut self, a: Bit, b: Bit, c: Bit) -> Result<Bit, AllocError>
        requires first { IsFree self.old a }
        requires second { IsFree self.old b }
        requires third { IsFree self.old c }
        requires room { self.old.formula.vars < MAX_VARS }
        ensures { IfOk result (λ out. record { out = out; circuit = self.new } ≡ parity_bits_run a b c self.old) }
    {
        match (a, b, c) {
            (Bit::False, b, c) => self.xor_bits(b, c),
            (Bit::True, b, c) => self.equal_bits(b, c),
            (Bit::Lit(a), Bit::False, c) => self.xor_bits(Bit::Lit(a), c),
            (Bit::Lit(a), Bit::True, c) => self.equal_bits(Bit::Lit(a), c),
            (Bit::Lit(a), Bit::Lit(b), Bit::False) => self.xor_bits(Bit::Lit(a), Bit::Lit(b)),
            (Bit::Lit(a), Bit::Lit(b), Bit::True) => self.equal_bits(Bit::Lit(a), Bit::Lit(b)),
            (Bit::Lit(a), Bit::Lit(b), Bit::Lit(c)) => self.parity_of(a, b, c),
        }
    }
}
