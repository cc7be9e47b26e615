//! Sums, differences and negatives.
ghost use Rattle.std.specs.Prelude.{◌≡◌, ◌+◌, ◌-◌, ◌*◌, ◌%◌, ◌^◌, Bool, true, false, List, length, nat_le, nat_abs};
ghost use Rattle.prv_bits.specs.Numbers.{bit, number, word};
ghost use Rattle.prv_bits.specs.Sums.{add as add_bits, carry, subtract, reaches, negate_if, magnitude};

/// A sum with its carry is the sum of the numbers; a difference is taken in as many bits, and exact where
/// the second number is at most the first.
pub fn adder()
    ensures sum { (c : Bool) (xs ys : List Bool) → length xs ≡ length ys → bit (carry c xs ys) * 2 ^ length xs + number (add_bits c xs ys) ≡ number xs + number ys + bit c }
    ensures difference { (xs ys : List Bool) → length xs ≡ length ys → number (subtract xs ys) ≡ (number xs + (2 ^ length xs - number ys)) % 2 ^ length xs }
    ensures at_most { (xs ys : List Bool) → length xs ≡ length ys → reaches xs ys ≡ nat_le (number ys) (number xs) }
    ensures exact { (xs ys : List Bool) → length xs ≡ length ys → reaches xs ys ≡ true → number (subtract xs ys) + number ys ≡ number xs }
{}

/// A list whose negative isn't asked for stays, a negative is taken in as many bits, and a magnitude is
/// how far a word is from 0.
pub fn negatives()
    ensures kept { (bs : List Bool) → negate_if false bs ≡ bs }
    ensures negated { (bs : List Bool) → number (negate_if true bs) ≡ (2 ^ length bs - number bs) % 2 ^ length bs }
    ensures magnitude { (bs : List Bool) → length bs ≡ 32 → number (magnitude bs) ≡ nat_abs (word bs) }
{}
