//! The clauses of a formula, before anything is decided.
ghost use Rattle.std.specs.Prelude.{◌≡◌, ◌+◌, ◌*◌, ◌^◌, ◌<◌, ◌⊎◌, [], length, replicate, true, false, IfOk, IfNone, IfSome, OnOk, MatchBool};
ghost use Rattle.std.specs.List.{list_all};
ghost use Rattle.prv_cnf.specs.Literals.{same_literal, has_literal};
ghost use Rattle.prv_check.specs.Lines.{known};
ghost use Rattle.prv_propagate.specs.Guards.{is_pair};
ghost use Rattle.prv_propagate.specs.Soundness.{IsConflict};
ghost use Rattle.prv_propagate.specs.Loading.{AreImplied, IsLoading, IsLoaded};
ghost use Rattle.prv_propagate.specs.Reasons.{AreJustified};

use crate::clauses::clause_at;
use crate::same::is_same;
use crate::trail::Trail;
use crate::watches::{Pair, Watches};
use prv_cnf::{Cnf, Lit};
use std::alloc::AllocError;

/// Gives each clause of the formula a pair, and makes true what clauses of one literal, however
/// often it stands there, imply. It answers the number of a clause whose literals are all false, if
/// there is one.
pub fn load(cnf: &Cnf, watches: &mut Watches, trail: &mut Trail) -> Result<Option<u32>, AllocError>
    requires few { length cnf.now.clauses < 2 ^ 32 }
    requires vars { trail.old.vars ≡ cnf.now.vars }
    requires steps { trail.old.steps ≡ [] }
    requires pairs { watches.old.pairs ≡ [] }
    requires lists { watches.old.lists ≡ replicate (2 * cnf.now.vars + 1) [] }
    ensures loaded { IfOk result (IsLoaded (known cnf.now []) trail.new watches.new) }
    ensures vars { OnOk result (trail.new.vars ≡ trail.old.vars) }
{
    let count = cnf.clauses().len();
    for number in 0..count {
        if load_clause(cnf, number, watches, trail)? {
            return Ok(Some(number as u32));
        }
    }
    Ok(None)
}

/// Loads the next clause, and answers whether each of its literals is false.
fn load_clause(
    cnf: &Cnf,
    number: usize,
    watches: &mut Watches,
    trail: &mut Trail,
) -> Result<bool, AllocError>
    requires loading { IsLoading (known cnf.now []) number trail.old watches.old }
    requires inside { number < length cnf.now.clauses }
    ensures step { IfOk result (λ conflict. MatchBool conflict (IsConflict (known cnf.now []) trail.new.steps number) (IsLoading (known cnf.now []) (number + 1) trail.new watches.new)) }
    ensures justified { OnOk result (AreJustified (known cnf.now []) trail.new.steps) }
    ensures implied { OnOk result (AreImplied trail.new.steps) }
    ensures vars { OnOk result (trail.new.vars ≡ trail.old.vars) }
{
    let lits = clause_at(cnf, &[], number);
    let Some(pair) = pair_of(lits) else {
        return Ok(true);
    };
    watches.attach(number as u32, pair)?;
    if !is_same(pair.first, pair.second) {
        return Ok(false);
    }
    if trail.is_true(pair.first) {
        return Ok(false);
    }
    if trail.is_false(pair.first) {
        return Ok(true);
    }
    trail.imply(pair.first, number as u32);
    Ok(false)
}

/// The first literal of a clause and the first that differs from it, or the same where none does.
/// The empty clause has none.
fn pair_of(lits: &[Lit]) -> Option<Pair>
    ensures none { IfNone result (lits.now ≡ []) }
    ensures some { IfSome result (λ p. is_pair lits.now p ≡ true) }
{
    let first = *lits.first()?;
    Some(Pair {
        first,
        second: other_than(lits, first),
    })
}

/// The first literal that differs from this one, or this one where none does.
fn other_than(lits: &[Lit], first: Lit) -> Lit
    ensures { ((same_literal first result ≡ false) × (has_literal lits.now result ≡ true)) ⊎ ((result ≡ first) × (list_all (same_literal first) lits.now ≡ true)) }
{
    for lit in lits {
        if lit.0 != first.0 {
            return *lit;
        }
    }
    first
}
