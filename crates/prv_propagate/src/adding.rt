//! A line of the log that is added to the clauses.
ghost use Rattle.std.specs.Prelude.{◌≡◌, ◌+◌, ◌^◌, ◌<◌, ◌-◌, ◌≤◌, ◌++◌, ◌∷◌, [], length, true, false, OnOk};
ghost use Rattle.std.specs.List.{list_all};
ghost use Rattle.prv_cnf.specs.Literals.{has_literal};
ghost use Rattle.prv_check.specs.Propagation.{is_false};
ghost use Rattle.prv_check.specs.Lines.{known, is_within};
ghost use Rattle.prv_propagate.specs.Trails.{trues, IsAssignment};
ghost use Rattle.prv_propagate.specs.Soundness.{IsSound, ArePropagated};
ghost use Rattle.prv_propagate.specs.Loading.{IsAsserting};
ghost use Rattle.prv_propagate.specs.Walking.{false_by};

use crate::clauses::known_count;
use crate::trail::Trail;
use crate::watches::{Pair, Watches};
use prv_check::Line;
use prv_cnf::{Cnf, Lit};
use std::alloc::AllocError;

/// Adds a line after those that there are, and makes true the literal that it implies: its other
/// literals are false by the first `keep` steps, the last of which falsifies one of them.
pub fn add_line(
    cnf: &Cnf,
    lines: &[Line],
    line: &Line,
    lit: Lit,
    keep: usize,
    watches: &mut Watches,
    trail: &mut Trail,
) -> Result<(), AllocError>
    requires sound { IsSound (known cnf.now lines.now) trail.old watches.old }
    requires propagated { ArePropagated (known cnf.now lines.now) watches.old.pairs trail.old.steps (length trail.old.steps) }
    requires few { length (known cnf.now lines.now) + 1 < 2 ^ 32 }
    requires within { list_all (is_within trail.old.vars) line.now.clause ≡ true }
    requires not_true { has_literal (trues trail.old.steps) lit ≡ false }
    requires not_false { is_false (trues trail.old.steps) lit ≡ false }
    requires asserting { IsAsserting trail.old.steps line.now.clause lit keep }
    ensures sound { OnOk result (IsSound (known cnf.now (lines.now ++ line.now ∷ [])) trail.new watches.new) }
    ensures propagated { OnOk result (ArePropagated (known cnf.now (lines.now ++ line.now ∷ [])) watches.new.pairs trail.new.steps (length trail.old.steps)) }
    ensures longer { OnOk result (length trail.new.steps ≡ length trail.old.steps + 1) }
    ensures vars { OnOk result (trail.new.vars ≡ trail.old.vars) }
{
    let number = known_count(cnf, lines) as u32;
    let second = second_of(lit, keep, trail);
    watches.attach(number, Pair { first: lit, second })?;
    trail.imply(lit, number);
    Ok(())
}

/// The literal that the last of the steps falsifies, or the first literal again where there is none.
fn second_of(lit: Lit, keep: usize, trail: &Trail) -> Lit
    requires { keep ≤ length trail.now.steps }
    ensures none { keep ≡ 0 → result ≡ lit }
    ensures some { 0 < keep → result ≡ false_by trail.now.steps (keep - 1) }
    ensures assigned { IsAssignment trail.now }
{
    let steps = trail.steps();
    if keep == 0 {
        lit
    } else {
        steps[keep - 1].lit.negated()
    }
}
