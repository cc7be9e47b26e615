//! Quotients and remainders.
ghost use Rattle.std.specs.Prelude.{◌≡◌, ◌+◌, ◌*◌, ◌/◌, ◌%◌, ◌^◌, ◌<◌, ℕ, Bool, true, List, [], ◌++◌, length};
ghost use Rattle.prv_bits.specs.Numbers.{bit, number, zeros};
ghost use Rattle.prv_bits.specs.Quotients.{quotient, rest, divided, left_over};

/// A restoring division gives quotient and remainder at any widths of the dividend and the divisor, and
/// turns on the numbers alone; both are 0 where they are masked.
pub fn division()
    ensures whole { (d r xs : List Bool) → number r < number d → number d * number (quotient d r xs) + number (rest d r xs) ≡ number r * 2 ^ length xs + number xs }
    ensures less { (d r xs : List Bool) → number r < number d → number (rest d r xs) < number d }
    ensures one_quotient { (d e r s xs : List Bool) → number d ≡ number e → number r ≡ number s → number r < number d → quotient d r xs ≡ quotient e s xs }
    ensures one_rest { (d e r s xs : List Bool) → number d ≡ number e → number r ≡ number s → number r < number d → number (rest d r xs) ≡ number (rest e s xs) }
    ensures divided { (c : Bool) (xs d : List Bool) → (c ≡ true → 0 < number d) → number (divided c xs d) ≡ bit c * (number xs / number d) }
    ensures left_over { (c : Bool) (xs d : List Bool) → (c ≡ true → 0 < number d) → number (left_over c xs d) ≡ bit c * (number xs % number d) }
{}

/// Zeros that lead the dividend or the divisor may be left out of a division: those of the dividend lead
/// both answers.
pub fn leading_zeros()
    ensures quotient { (k : ℕ) (d xs : List Bool) → 0 < number d → quotient d [] (zeros k ++ xs) ≡ zeros k ++ quotient d [] xs }
    ensures rest { (k : ℕ) (d xs : List Bool) → 0 < number d → number (rest d [] (zeros k ++ xs)) ≡ number (rest d [] xs) }
    ensures divided { (c : Bool) (j k : ℕ) (xs d : List Bool) → (c ≡ true → 0 < number d) → divided c (zeros k ++ xs) (zeros j ++ d) ≡ zeros k ++ divided c xs d }
    ensures left_over { (c : Bool) (j k : ℕ) (xs d : List Bool) → (c ≡ true → 0 < number d) → left_over c (zeros k ++ xs) (zeros j ++ d) ≡ zeros k ++ left_over c xs d }
{}
