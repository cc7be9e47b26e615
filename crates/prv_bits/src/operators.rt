//! The operators of terms.
ghost use Rattle.std.specs.Prelude.{◌≡◌, ◌<◌, ℤ, Bool, List, length, if◌then◌else◌};
ghost use Rattle.prv_model.specs.Words.{IsWord, is_zero};
ghost use Rattle.prv_model.specs.Terms.{total};
ghost use Rattle.prv_model.specs.declared.op.TermOp.{TermOp};
ghost use Rattle.prv_bits.specs.Numbers.{word};
ghost use Rattle.prv_bits.specs.Operators.{operate, pick};

/// The bits of an operator's value on two words: its total value, which is a word, and 0 for a division
/// by 0.
pub fn values()
    ensures width { (op : TermOp) (xs ys : List Bool) → length xs ≡ length ys → 0 < length xs → length (operate op xs ys) ≡ length xs }
    ensures value { (op : TermOp) (xs ys : List Bool) → length xs ≡ 32 → length ys ≡ 32 → word (operate op xs ys) ≡ total op (word xs) (word ys) }
    ensures in_range { (op : TermOp) (a b : ℤ) → IsWord a → IsWord b → IsWord (total op a b) }
{}

/// The bits of the choice by a word: the first where it is nonzero, else the second.
pub fn choices()
    ensures width { (cs xs ys : List Bool) → length xs ≡ length ys → length (pick cs xs ys) ≡ length xs }
    ensures value { (cs xs ys : List Bool) → length cs ≡ 32 → length xs ≡ length ys → word (pick cs xs ys) ≡ (if is_zero (word cs) then word ys else word xs) }
{}
