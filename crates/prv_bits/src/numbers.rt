//! Lists of bits are numbers, and those of 32 bits are words.
ghost use Rattle.std.specs.Prelude.{◌≡◌, ◌%◌, ◌^◌, ℕ, ℤ, Bool, not, List, length};
ghost use Rattle.prv_model.specs.Words.{IsWord, is_zero};
ghost use Rattle.prv_bits.specs.Numbers.{number, digits, word, bits_of, any};

/// A number has one list of bits at each width, its digits.
pub fn one_list()
    ensures one { (xs ys : List Bool) → length xs ≡ length ys → number xs ≡ number ys → xs ≡ ys }
    ensures width { (k n : ℕ) → length (digits k n) ≡ k }
    ensures value { (k n : ℕ) → number (digits k n) ≡ n % 2 ^ k }
{}

/// A word has one list of 32 bits, and each list of 32 bits is a word; it is 0 where no bit is set.
pub fn words()
    ensures width { (z : ℤ) → length (bits_of z) ≡ 32 }
    ensures word { (z : ℤ) → IsWord z → word (bits_of z) ≡ z }
    ensures bits { (bs : List Bool) → length bs ≡ 32 → bits_of (word bs) ≡ bs }
    ensures in_range { (bs : List Bool) → length bs ≡ 32 → IsWord (word bs) }
    ensures zero { (bs : List Bool) → length bs ≡ 32 → is_zero (word bs) ≡ not (any bs) }
{}
