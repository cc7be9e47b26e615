//! The gates: each first takes its operands as what is known of them.
ghost use Rattle.std.specs.Prelude.{◌≡◌, ◌+◌, ◌<◌, ◌≤◌, ◌&&◌, Bool, IfOk, OnOk, if◌then◌else◌};
ghost use Rattle.prv_gate.specs.Bits.{IsBit, bit_value};
ghost use Rattle.prv_gate.specs.Gates.{differ, majority as majority_value};
ghost use Rattle.prv_gate.specs.Folding.{and_gate, xor_gate, mux_gate, majority_gate, sum_gate, full_adder as adder_run};
ghost use Rattle.prv_gate.specs.Growth.{Gives};
ghost use Rattle.prv_gate.specs.Adders.{AreBits, bit_values, sum_and_carry};

use crate::bit::Bit;
use crate::builder::Builder;
use prv_cnf::MAX_VARS;
use std::alloc::AllocError;

/// Each gate wants bits of the formula's variables, and at most [`MAX_VARS`] - 2 variables. Its
/// answer has the gate's value in each model of the formula, and each assignment of the earlier
/// variables that was a model has one extension. Where an operand is known, or operands are equal or
/// opposite, and where the gate was made before, nothing is added. After want of memory the formula
/// may have a part of the gate's clauses.
impl Builder {
    /// Both bits are true. It adds at most 3 clauses.
    pub fn and(&mut self, a: Bit, b: Bit) -> Result<Bit, AllocError>
        requires first { IsBit self.old.formula.vars a }
        requires second { IsBit self.old.formula.vars b }
        requires room { self.old.formula.vars + 2 ≤ MAX_VARS }
        ensures run { IfOk result (λ out. record { out = out; circuit = self.new } ≡ and_gate a b self.old) }
        ensures gives { IfOk result (λ out. Gives IsBit bit_value 3 self.old (record { out = out; circuit = self.new }) (λ v. bit_value v a && bit_value v b)) }
        ensures variables { OnOk result (self.new.formula.vars ≤ self.old.formula.vars + 1) }
    {
        let a = self.known(a);
        let b = self.known(b);
        self.and_bits(a, b)
    }

    /// The bits differ. It adds at most 4 clauses.
    pub fn xor(&mut self, a: Bit, b: Bit) -> Result<Bit, AllocError>
        requires first { IsBit self.old.formula.vars a }
        requires second { IsBit self.old.formula.vars b }
        requires room { self.old.formula.vars + 2 ≤ MAX_VARS }
        ensures run { IfOk result (λ out. record { out = out; circuit = self.new } ≡ xor_gate a b self.old) }
        ensures gives { IfOk result (λ out. Gives IsBit bit_value 4 self.old (record { out = out; circuit = self.new }) (λ v. differ (bit_value v a) (bit_value v b))) }
        ensures variables { OnOk result (self.new.formula.vars ≤ self.old.formula.vars + 1) }
    {
        let a = self.known(a);
        let b = self.known(b);
        self.xor_bits(a, b)
    }

    /// The bit `a` where `c` is true, else `b`. It adds at most 4 clauses.
    pub fn mux(&mut self, c: Bit, a: Bit, b: Bit) -> Result<Bit, AllocError>
        requires selector { IsBit self.old.formula.vars c }
        requires first { IsBit self.old.formula.vars a }
        requires second { IsBit self.old.formula.vars b }
        requires room { self.old.formula.vars + 2 ≤ MAX_VARS }
        ensures run { IfOk result (λ out. record { out = out; circuit = self.new } ≡ mux_gate c a b self.old) }
        ensures gives { IfOk result (λ out. Gives IsBit bit_value 4 self.old (record { out = out; circuit = self.new }) (λ v. if bit_value v c then bit_value v a else bit_value v b)) }
        ensures variables { OnOk result (self.new.formula.vars ≤ self.old.formula.vars + 1) }
    {
        let c = self.known(c);
        let a = self.known(a);
        let b = self.known(b);
        self.mux_bits(c, a, b)
    }

    /// At least two of the bits are true. It adds at most 6 clauses.
    pub fn majority(&mut self, a: Bit, b: Bit, c: Bit) -> Result<Bit, AllocError>
        requires first { IsBit self.old.formula.vars a }
        requires second { IsBit self.old.formula.vars b }
        requires third { IsBit self.old.formula.vars c }
        requires room { self.old.formula.vars < MAX_VARS }
        ensures run { IfOk result (λ out. record { out = out; circuit = self.new } ≡ majority_gate a b c self.old) }
        ensures gives { IfOk result (λ out. Gives IsBit bit_value 6 self.old (record { out = out; circuit = self.new }) (λ v. majority_value (bit_value v a) (bit_value v b) (bit_value v c))) }
        ensures variables { OnOk result (self.new.formula.vars ≤ self.old.formula.vars + 1) }
    {
        let a = self.known(a);
        let b = self.known(b);
        let c = self.known(c);
        self.majority_bits(a, b, c)
    }

    /// An odd number of the bits is true: by two gates that others may share, or by one where the
    /// variables run out. It adds at most 8 clauses.
    fn sum(&mut self, a: Bit, b: Bit, c: Bit) -> Result<Bit, AllocError>
        requires first { IsBit self.old.formula.vars a }
        requires second { IsBit self.old.formula.vars b }
        requires third { IsBit self.old.formula.vars c }
        requires room { self.old.formula.vars + 2 ≤ MAX_VARS }
        ensures run { IfOk result (λ out. record { out = out; circuit = self.new } ≡ sum_gate a b c self.old) }
        ensures gives { IfOk result (λ out. Gives IsBit bit_value 8 self.old (record { out = out; circuit = self.new }) (λ v. differ (differ (bit_value v a) (bit_value v b)) (bit_value v c))) }
        ensures room { OnOk result (self.new.formula.vars < MAX_VARS) }
    {
        if self.vars() + 2 < MAX_VARS {
            let differ = self.xor(a, b)?;
            return self.xor(differ, c);
        }
        let a = self.known(a);
        let b = self.known(b);
        let c = self.known(c);
        self.parity_bits(a, b, c)
    }

    /// The sum of three bits: its low bit, and its carry. It adds at most 14 clauses.
    pub fn full_adder(&mut self, a: Bit, b: Bit, c: Bit) -> Result<(Bit, Bit), AllocError>
        requires first { IsBit self.old.formula.vars a }
        requires second { IsBit self.old.formula.vars b }
        requires third { IsBit self.old.formula.vars c }
        requires room { self.old.formula.vars + 2 ≤ MAX_VARS }
        ensures run { IfOk result (λ out. record { out = out; circuit = self.new } ≡ adder_run a b c self.old) }
        ensures gives { IfOk result (λ out. Gives AreBits bit_values 14 self.old (record { out = out; circuit = self.new }) (λ v. sum_and_carry (bit_value v a) (bit_value v b) (bit_value v c))) }
    {
        let low = self.sum(a, b, c)?;
        let carry = self.majority(a, b, c)?;
        Ok((low, carry))
    }
}
