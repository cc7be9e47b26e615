//! Words, and the circuits of operators on them.
ghost use Rattle.std.specs.Prelude.{◌≡◌, ◌+◌, ◌≤◌, IfOk, if◌then◌else◌};
ghost use Rattle.prv_cnf.specs.declared.formula.TheConstants.{MAX_VARS};
ghost use Rattle.prv_model.specs.Words.{is_zero};
ghost use Rattle.prv_model.specs.Terms.{total};
ghost use Rattle.prv_gate.specs.Growth.{Gives};
ghost use Rattle.prv_arith.specs.Lists.{AllBits};
ghost use Rattle.prv_arith.specs.Costs.{op_cost, pick_cost};
ghost use Rattle.prv_arith.specs.Words.{word_value, op_bits, pick_bits};

use crate::operators::operate;
use crate::pairs::{PairGate, pair, some};
use prv_gate::{Bit, Builder};
use prv_model::TermOp;
use std::alloc::AllocError;

/// The 32 bits of a word in two's complement, bit 31 first.
#[derive(Clone, Copy)]
pub struct Word {
    /// The bits, the highest first.
    pub bits: [Bit; 32],
}

/// The word of an operator on two words, which are of the builder.
///
/// In each model of the formula it has the operator's total value: a division by 0 gives 0, as does its
/// remainder, MIN / -1 is MIN, and shifts go by the lowest five bits. It adds at most as many clauses,
/// and at most as many variables, as `op_cost` says, and so many variables have to be left. After want of
/// memory the formula may have a part of the circuit's clauses.
pub fn word_op(builder: &mut Builder, op: TermOp, a: &Word, b: &Word) -> Result<Word, AllocError>
    requires first { AllBits builder.old.formula.vars a.now.bits }
    requires second { AllBits builder.old.formula.vars b.now.bits }
    requires room { builder.old.formula.vars + op_cost op ≤ MAX_VARS }
    ensures run { IfOk result (λ w. record { out = w.bits; circuit = builder.new } ≡ op_bits op a.now.bits b.now.bits builder.old) }
    ensures gives { IfOk result (λ w. Gives AllBits word_value (op_cost op) builder.old (record { out = w.bits; circuit = builder.new }) (λ v. total op (word_value v a.now.bits) (word_value v b.now.bits))) }
{
    let _ = builder.vars();
    let bits = operate(builder, op, &a.bits, &b.bits)?;
    Ok(Word { bits })
}

/// The first word where the selector isn't 0, else the second. It adds at most 256 clauses and variables.
pub fn word_pick(builder: &mut Builder, c: &Word, a: &Word, b: &Word) -> Result<Word, AllocError>
    requires selector { AllBits builder.old.formula.vars c.now.bits }
    requires first { AllBits builder.old.formula.vars a.now.bits }
    requires second { AllBits builder.old.formula.vars b.now.bits }
    requires room { builder.old.formula.vars + pick_cost ≤ MAX_VARS }
    ensures run { IfOk result (λ w. record { out = w.bits; circuit = builder.new } ≡ pick_bits c.now.bits a.now.bits b.now.bits builder.old) }
    ensures gives { IfOk result (λ w. Gives AllBits word_value pick_cost builder.old (record { out = w.bits; circuit = builder.new }) (λ v. if is_zero (word_value v c.now.bits) then word_value v b.now.bits else word_value v a.now.bits)) }
{
    let _ = builder.vars();
    let chosen = some(builder, Bit::False, &c.bits)?;
    let mut bits = [Bit::False; 32];
    pair(builder, PairGate::Mux(chosen), &a.bits, &b.bits, &mut bits)?;
    Ok(Word { bits })
}
