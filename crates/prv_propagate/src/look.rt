//! What a clause asks for once one of its watched literals is false.
ghost use Rattle.std.specs.Prelude.{◌≡◌, true, false, IfNone, IfSome};
ghost use Rattle.prv_cnf.specs.Literals.{same_literal, has_literal};
ghost use Rattle.prv_check.specs.Propagation.{is_false};
ghost use Rattle.prv_propagate.specs.Trails.{trues};
ghost use Rattle.prv_propagate.specs.Reasons.{are_others_false};
ghost use Rattle.prv_propagate.specs.Soundness.{Finds};

use crate::trail::Trail;
use crate::watches::Pair;
use prv_cnf::Lit;

/// What is to be done about a clause.
#[derive(Clone, Copy)]
pub enum Finding {
    /// Nothing: it doesn't watch the literal any more.
    Stale,
    /// Nothing: the other watched literal, told here, is true.
    Satisfied(Lit),
    /// Another literal, told last, is not false: it is to be watched beside the other one.
    Free(Pair),
    /// The other watched literal is to be made true: each literal but it is false.
    Unit(Lit),
    /// Each literal is false.
    Conflict,
}

/// Looks at a clause whose watched literal `lit` is false.
#[inline(always)]
pub fn look(lits: &[Lit], pair: Pair, lit: Lit, trail: &Trail) -> Finding
    ensures { Finds (trues trail.now.steps) lits.now pair lit result }
{
    let other = if pair.first.0 == lit.0 {
        pair.second
    } else if pair.second.0 == lit.0 {
        pair.first
    } else {
        return Finding::Stale;
    };
    if trail.is_true(other) {
        return Finding::Satisfied(other);
    }
    match find_free(lits, other, trail) {
        Some(free) => Finding::Free(Pair {
            first: free,
            second: other,
        }),
        None => {
            if trail.is_false(other) {
                Finding::Conflict
            } else {
                Finding::Unit(other)
            }
        }
    }
}

/// The first literal that is not false and is not the other watched one.
#[inline(always)]
fn find_free(lits: &[Lit], other: Lit, trail: &Trail) -> Option<Lit>
    ensures none { IfNone result (are_others_false (trues trail.now.steps) lits.now other ≡ true) }
    ensures some { IfSome result (λ l. (has_literal lits.now l ≡ true) × (is_false (trues trail.now.steps) l ≡ false) × (same_literal l other ≡ false)) }
{
    for lit in lits {
        if !trail.is_false(*lit) && lit.0 != other.0 {
            return Some(*lit);
        }
    }
    None
}
