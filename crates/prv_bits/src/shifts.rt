//! Shifts.
ghost use Rattle.std.specs.Prelude.{◌≡◌, ◌*◌, ◌/◌, ◌%◌, ◌^◌, Bool, true, false, List, length};
ghost use Rattle.prv_bits.specs.Numbers.{number, flip};
ghost use Rattle.prv_bits.specs.Shifts.{shift_up, shift_down};

/// The stages of a shift multiply by the power that the amount says, or divide by it and round down.
pub fn stages()
    ensures up { (amount bs : List Bool) → number (shift_up amount bs) ≡ (number bs * 2 ^ number amount) % 2 ^ length bs }
    ensures down { (amount bs : List Bool) → number (shift_down false amount bs) ≡ number bs / 2 ^ number amount }
    ensures ones { (amount bs : List Bool) → flip (shift_down true amount bs) ≡ shift_down false amount (flip bs) }
{}
