//! Bits of a circuit: constants, which cost nothing, and literals of the formula.
ghost use Rattle.std.specs.Prelude.{◌≡◌};
ghost use Rattle.prv_cnf.specs.declared.formula.TheConstants.{MAX_VARS};
ghost use Rattle.prv_gate.specs.Bits.{IsBit, negate_bit, flip_bit};

use prv_cnf::Lit;

/// A bit of a circuit: a constant, or the value of a literal.
#[derive(Clone, Copy, Debug, PartialEq, Eq)]
pub enum Bit {
    False,
    True,
    Lit(Lit),
}

impl Bit {
    /// The bit with the other value.
    #[tactic(auto, using(crate::proofs::Frames::literals))]
    pub fn negated(self) -> Bit
        requires { IsBit MAX_VARS self }
        ensures value { result ≡ negate_bit self }
        ensures inside { IsBit MAX_VARS result }
    {
        match self {
            Bit::False => Bit::True,
            Bit::True => Bit::False,
            Bit::Lit(lit) => Bit::Lit(lit.negated()),
        }
    }

    /// The bit, with the other value where the flag is set.
    pub(crate) fn flipped(self, flag: bool) -> Bit
        requires { IsBit MAX_VARS self }
        ensures value { result ≡ flip_bit flag self }
        ensures inside { IsBit MAX_VARS result }
    {
        if flag { self.negated() } else { self }
    }
}

impl From<bool> for Bit {
    ghost use Rattle.prv_gate.specs.Bits.{constant};

    ghost from_gives = { λ value bit. bit ≡ constant value };

    fn from(value: bool) -> Bit {
        if value { Bit::True } else { Bit::False }
    }
}
