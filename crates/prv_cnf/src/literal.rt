//! Literals, as in the DIMACS format: a number for a variable, and its negative for the negation.
ghost use Rattle.std.specs.Prelude.{◌≡◌, ◌+◌, ◌*◌, ◌<◌, ◌≤◌, ◌^◌};
ghost use Rattle.prv_cnf.specs.Literals.{negate, variable, is_literal_true};
ghost use Rattle.prv_cnf.specs.Places.{place_of};
ghost use Rattle.prv_cnf.specs.Models.{values_of};

/// A literal: the number of a variable, from 1, or its negative for the negated variable.
///
/// A formula has no literal 0. A literal that was read from bytes may be any number.
#[derive(Clone, Copy, Debug, Default, PartialEq, Eq, Hash)]
pub struct Lit(pub i32);

impl Lit {
    /// The number of the literal's variable: the literal's absolute value.
    pub fn variable(self) -> u32
        ensures value { result ≡ variable self }
        ensures bound { result ≤ 2 ^ 31 }
    {
        self.0.unsigned_abs()
    }

    /// The literal of the same variable with the other sign. `i32::MIN` has none that fits.
    pub fn negated(self) -> Lit
        requires { variable self < 2 ^ 31 }
        ensures { result ≡ negate self }
    {
        Lit(-self.0)
    }

    /// The literal's place in a table by literal, in which 0, -1, 1, -2, 2 and so on stand in this order:
    /// the literals of the first n variables are below 2n + 1.
    #[inline(always)]
    pub fn place(self) -> usize
        ensures value { result ≡ place_of self }
        ensures bound { result < 2 ^ 32 }
        ensures by_variable { result ≤ 2 * variable self }
        ensures variable { 2 * variable self ≤ result + 1 }
    {
        2 * self.variable() as usize - usize::from(self.0 < 0)
    }

    /// The place of the literal's negation in a table by literal.
    #[inline(always)]
    pub fn negated_place(self) -> usize
        ensures value { result ≡ place_of (negate self) }
        ensures by_variable { result ≤ 2 * variable self }
    {
        2 * self.variable() as usize - usize::from(self.0 > 0)
    }

    /// Whether the literal is true where variable k has the value `values[k - 1]`. A variable past
    /// the values counts as false.
    pub fn is_true(self, values: &[bool]) -> bool
        ensures { result ≡ is_literal_true (values_of values.now) self }
    {
        let index = (self.variable() as usize).saturating_sub(1);
        let value = values.get(index).copied().unwrap_or(false);
        if self.0 < 0 { !value } else { value }
    }
}
