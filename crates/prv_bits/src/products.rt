//! Products.
ghost use Rattle.std.specs.Prelude.{◌≡◌, ◌*◌, ◌%◌, ◌^◌, ◌<◌, ◌≤◌, Bool, false, List, ◌∷◌, length};
ghost use Rattle.prv_bits.specs.Numbers.{number};
ghost use Rattle.prv_bits.specs.Products.{product};

/// The shifted rows sum up to the product in as many bits as the first operand has; a row whose bit isn't
/// set may be left out.
pub fn rows()
    ensures product { (xs ys : List Bool) → length ys ≤ length xs → number (product xs ys) ≡ (number xs * number ys) % 2 ^ length xs }
    ensures skipped { (xs ys : List Bool) → length ys < length xs → product xs (false ∷ ys) ≡ product xs ys }
{}
