//! Unit propagation.
ghost use Rattle.std.specs.Prelude.{◌≡◌, ◌≤◌, length, IfOk, OnOk};
ghost use Rattle.prv_check.specs.Lines.{known};
ghost use Rattle.prv_propagate.specs.Soundness.{IsSound, IsExtended, IsSpread, ArePropagated};

use crate::trail::Trail;
use crate::walk::walk;
use crate::watches::Watches;
use prv_check::Line;
use prv_cnf::Cnf;
use std::alloc::AllocError;

/// Makes true what the clauses imply, one literal after another, from the step at `from` on. It
/// answers the number of a clause whose literals are all false, if there is one; else all steps are
/// propagated. Want of memory leaves the watches in no useful state.
pub fn propagate(
    cnf: &Cnf,
    lines: &[Line],
    from: usize,
    watches: &mut Watches,
    trail: &mut Trail,
) -> Result<Option<u32>, AllocError>
    requires sound { IsSound (known cnf.now lines.now) trail.old watches.old }
    requires inside { from ≤ length trail.old.steps }
    requires before { ArePropagated (known cnf.now lines.now) watches.old.pairs trail.old.steps from }
    ensures sound { OnOk result (IsSound (known cnf.now lines.now) trail.new watches.new) }
    ensures spread { IfOk result (IsSpread (known cnf.now lines.now) watches.new.pairs trail.new.steps (length trail.new.steps)) }
    ensures extended { OnOk result (IsExtended trail.old.steps trail.new.steps) }
    ensures vars { OnOk result (trail.new.vars ≡ trail.old.vars) }
{
    let mut at = from;
    while at < trail.steps().len() {
        if let Some(conflict) = walk(cnf, lines, at, watches, trail)? {
            return Ok(Some(conflict));
        }
        at += 1;
    }
    Ok(None)
}
