//! Whether literals are the same.
ghost use Rattle.std.specs.Prelude.{◌≡◌};
ghost use Rattle.prv_cnf.specs.Literals.{same_literal};

use prv_cnf::Lit;

/// Whether two literals are the same.
#[inline(always)]
pub fn is_same(one: Lit, other: Lit) -> bool
    ensures { result ≡ same_literal one other }
{
    one.0 == other.0
}
