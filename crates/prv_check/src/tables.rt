//! Tables by literal.
ghost use Rattle.std.specs.Prelude.{◌≡◌, ◌&&◌, ◌||◌, length, nat_lt};
ghost use Rattle.prv_cnf.specs.Literals.{has_literal};
ghost use Rattle.prv_cnf.specs.Places.{place_of};
ghost use Rattle.prv_check.specs.Inner.Tables.{flag, are_flagged};

use crate::flags::Flags;
use prv_cnf::Lit;

/// Whether the literal's flag is set.
pub fn is_flagged(flags: &Flags, lit: Lit) -> bool
    ensures { result ≡ flag flags.now lit }
{
    flags.has(lit.place())
}

/// Whether each literal's flag is set.
pub fn all_flagged(flags: &Flags, lits: &[Lit]) -> bool
    ensures { result ≡ are_flagged flags.now lits.now }
{
    lits.iter().all(|lit| is_flagged(flags, *lit))
}

/// Sets the flag of each literal that has one.
pub fn flag_all(flags: &mut Flags, lits: &[Lit])
    ensures size { length flags.new ≡ length flags.old }
    ensures flagged { (l : Lit) → flag flags.new l ≡ (flag flags.old l || (nat_lt (place_of l) (length flags.old) && has_literal lits.now l)) }
{
    for lit in lits {
        let at = lit.place();
        if at < flags.len() {
            flags.set(at);
        }
    }
}
