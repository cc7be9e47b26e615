//! Gates of two inputs of which nothing is known: those that fold, and those that are made.
ghost use Rattle.std.specs.Prelude.{◌≡◌, ◌<◌, ◌≤◌, IfOk};
ghost use Rattle.prv_cnf.specs.Literals.{variable, negate, same_literal};
ghost use Rattle.prv_gate.specs.Bits.{IsBit};
ghost use Rattle.prv_gate.specs.Gates.{positive as positive_of, ordered as ordered_pair, is_negative as is_negative_literal};
ghost use Rattle.prv_gate.specs.Circuits.{IsFree, IsFreeLiteral, IsFreeGate};
ghost use Rattle.prv_gate.specs.Folding.{and_of as and_run, or_of as or_run, and_bits as and_bits_run, or_bits as or_bits_run, xor_of as xor_run, xor_bits as xor_bits_run};

use crate::bit::Bit;
use crate::builder::Builder;
use crate::gate::Gate;
use prv_cnf::{Lit, MAX_VARS};
use std::alloc::AllocError;

impl Builder {
    /// Both literals are true.
    #[tactic(auto, unfolding(crate::specs::Folding::and_of))]
    pub(crate) fn and_of(&mut self, a: Lit, b: Lit) -> Result<Bit, AllocError>
        requires first { IsFreeLiteral self.old a }
        requires second { IsFreeLiteral self.old b }
        requires room { self.old.formula.vars < MAX_VARS }
        ensures run { IfOk result (λ out. record { out = out; circuit = self.new } ≡ and_run a b self.old) }
        ensures inside { IfOk result (λ out. IsBit MAX_VARS out) }
    {
        if a == b {
            return Ok(Bit::Lit(a));
        }
        if a == b.negated() {
            return Ok(Bit::False);
        }
        let (low, high) = ordered(a, b);
        let out = self.make(Gate::And(low, high))?;
        Ok(Bit::Lit(out))
    }

    /// One of the literals is true.
    #[tactic(auto, unfolding(crate::specs::Folding::or_of))]
    pub(crate) fn or_of(&mut self, a: Lit, b: Lit) -> Result<Bit, AllocError>
        requires first { IsFreeLiteral self.old a }
        requires second { IsFreeLiteral self.old b }
        requires room { self.old.formula.vars < MAX_VARS }
        ensures { IfOk result (λ out. record { out = out; circuit = self.new } ≡ or_run a b self.old) }
    {
        let none = self.and_of(a.negated(), b.negated())?;
        Ok(none.negated())
    }

    /// Both bits are true.
    #[tactic(auto, unfolding(crate::specs::Folding::and_bits))]
    pub(crate) fn and_bits(&mut self, a: Bit, b: Bit) -> Result<Bit, AllocError>
        requires first { IsFree self.old a }
        requires second { IsFree self.old b }
        requires room { self.old.formula.vars < MAX_VARS }
        ensures run { IfOk result (λ out. record { out = out; circuit = self.new } ≡ and_bits_run a b self.old) }
        ensures inside { IfOk result (λ out. IsBit MAX_VARS out) }
    {
        match (a, b) {
            (Bit::False, _) => Ok(Bit::False),
            (Bit::True, b) => Ok(b),
            (Bit::Lit(_), Bit::False) => Ok(Bit::False),
            (Bit::Lit(a), Bit::True) => Ok(Bit::Lit(a)),
            (Bit::Lit(a), Bit::Lit(b)) => self.and_of(a, b),
        }
    }

    /// One of the bits is true.
    #[tactic(auto, unfolding(crate::specs::Folding::or_bits))]
    pub(crate) fn or_bits(&mut self, a: Bit, b: Bit) -> Result<Bit, AllocError>
        requires first { IsFree self.old a }
        requires second { IsFree self.old b }
        requires room { self.old.formula.vars < MAX_VARS }
        ensures { IfOk result (λ out. record { out = out; circuit = self.new } ≡ or_bits_run a b self.old) }
    {
        let none = self.and_bits(a.negated(), b.negated())?;
        Ok(none.negated())
    }

    /// The literals differ.
    #[tactic(auto, unfolding(crate::specs::Folding::xor_of))]
    pub(crate) fn xor_of(&mut self, a: Lit, b: Lit) -> Result<Bit, AllocError>
        requires first { IsFreeLiteral self.old a }
        requires second { IsFreeLiteral self.old b }
        requires room { self.old.formula.vars < MAX_VARS }
        ensures run { IfOk result (λ out. record { out = out; circuit = self.new } ≡ xor_run a b self.old) }
        ensures inside { IfOk result (λ out. IsBit MAX_VARS out) }
    {
        let differ = is_negative(a) != is_negative(b);
        if a.variable() == b.variable() {
            return Ok(Bit::from(differ));
        }
        let (low, high) = ordered(a, b);
        let out = self.make(Gate::Xor(positive(low), positive(high)))?;
        Ok(Bit::Lit(out).flipped(differ))
    }

    /// The bits differ.
    #[tactic(auto, unfolding(crate::specs::Folding::xor_bits))]
    pub(crate) fn xor_bits(&mut self, a: Bit, b: Bit) -> Result<Bit, AllocError>
        requires first { IsFree self.old a }
        requires second { IsFree self.old b }
        requires room { self.old.formula.vars < MAX_VARS }
        ensures run { IfOk result (λ out. record { out = out; circuit = self.new } ≡ xor_bits_run a b self.old) }
        ensures inside { IfOk result (λ out. IsBit MAX_VARS out) }
    {
        match (a, b) {
            (Bit::False, b) => Ok(b),
            (Bit::True, b) => Ok(b.negated()),
            (Bit::Lit(a), Bit::False) => Ok(Bit::Lit(a)),
            (Bit::Lit(a), Bit::True) => Ok(Bit::Lit(a.negated())),
            (Bit::Lit(a), Bit::Lit(b)) => self.xor_of(a, b),
        }
    }
}

/// Whether the literal is of a negated variable.
pub(crate) fn is_negative(lit: Lit) -> bool
    ensures { result ≡ is_negative_literal lit }
{
    lit.0 < 0
}

/// The literal of the variable itself.
pub(crate) fn positive(lit: Lit) -> Lit
    requires { variable lit ≤ MAX_VARS }
    ensures { result ≡ positive_of lit }
{
    Lit(lit.variable() as i32)
}

/// Two literals in the order of their variables.
pub(crate) fn ordered(a: Lit, b: Lit) -> (Lit, Lit)
    ensures { result ≡ ordered_pair a b }
{
    if a.variable() <= b.variable() {
        (a, b)
    } else {
        (b, a)
    }
}
