//! Comparisons.
ghost use Rattle.std.specs.Prelude.{◌≡◌, ◌↔◌, Bool, false, List, length, nat_lt, int_lt};
ghost use Rattle.prv_bits.specs.Numbers.{number, word};
ghost use Rattle.prv_bits.specs.Orders.{below, signed_below, differ};

/// The comparisons of lists of bits are those of their numbers and words, and two lists of one width don't
/// differ where they are one.
pub fn comparisons()
    ensures numbers { (xs ys : List Bool) → length xs ≡ length ys → below xs ys ≡ nat_lt (number xs) (number ys) }
    ensures words { (xs ys : List Bool) → length xs ≡ 32 → length ys ≡ 32 → signed_below xs ys ≡ int_lt (word xs) (word ys) }
    ensures equal { (xs ys : List Bool) → length xs ≡ length ys → (differ xs ys ≡ false) ↔ (xs ≡ ys) }
{}
