//! What follows from a conflict: the clause that is learnt at the first unique implication point, with
//! the hints that derive it, or the empty clause.
ghost use Rattle.std.specs.Prelude.{◌≡◌, [], reverse, IfOk, OnOk};
ghost use Rattle.prv_check.specs.Lines.{known};
ghost use Rattle.prv_propagate.specs.Reasons.{AreJustified};
ghost use Rattle.prv_propagate.specs.Soundness.{IsConflict};
ghost use Rattle.prv_sat.specs.Analyses.{AreOpen, IsDerived, IsUniquePoint};
ghost use Rattle.prv_propagate.specs.Trails.{trues};
ghost use Rattle.prv_sat.specs.Conclusions.{IsConclusion, IsEnd};

use crate::analysis::{UniquePoint, analyze, reach};
use crate::marks::Marks;
use crate::minimize::minimize;
use prv_check::Line;
use prv_cnf::{Clause, Cnf, Lit};
use prv_propagate::Trail;
use std::alloc::{AllocError, Global};

/// What follows from a conflict.
#[derive(Drop)]
pub enum Conclusion {
    /// The empty line: the formula has no model.
    Refuted(Line),
    /// A learnt clause, which implies its literal `lit` once the trail is cut to `keep` steps.
    Learnt { line: Line, lit: Lit, keep: usize },
}

/// What follows from the clause with this number, whose literals are all false.
pub fn learn(
    alloc: Global,
    cnf: &Cnf,
    lines: &[Line],
    trail: &Trail,
    conflict: u32,
    marks: &mut Marks,
    places: &mut Vec<u32>,
) -> Result<Conclusion, AllocError>
    requires justified { AreJustified (known cnf.now lines.now) trail.now.steps }
    requires conflict { IsConflict (known cnf.now lines.now) trail.now.steps conflict }
    requires decisions { AreOpen (known cnf.now lines.now) trail.now.steps }
    requires formula { trail.now.vars ≡ cnf.now.vars }
    requires marked { marks.old.marked ≡ [] }
    requires vars { marks.old.vars ≡ trail.now.vars }
    ensures concluded { IfOk result (IsConclusion cnf.now lines.now trail.now.steps) }
    ensures vars { OnOk result (marks.new.vars ≡ marks.old.vars) }
{
    let mut hints = Vec::new(alloc);
    let found = analyze(cnf, lines, trail, conflict, marks, &mut hints)?;
    match found {
        None => {
            let line = end_line(alloc, cnf, lines, trail, marks, hints)?;
            Ok(Conclusion::Refuted(line))
        }
        Some(point) => {
            let conclusion = line_at(alloc, cnf, lines, trail, point, marks, hints, places)?;
            Ok(conclusion)
        }
    }
}

/// The empty line with these hints, which come last to first.
fn end_line(
    alloc: Global,
    cnf: &Cnf,
    lines: &[Line],
    trail: &Trail,
    marks: &Marks,
    hints: Vec<u32>,
) -> Result<Line, AllocError>
    requires formula { trail.now.vars ≡ cnf.now.vars }
    requires derived { IsDerived (known cnf.now lines.now) (trues trail.now.steps) [] marks.now.marked (reverse hints.items) }
    ensures { IfOk result (IsEnd cnf.now lines.now) }
{
    // The steps' contract says that the true literals are an assignment.
    let _ = trail.steps();
    let clause = Clause::new(alloc, &[])?;
    Ok(Line::new(clause, reversed(hints)))
}

/// The learnt clause of a unique implication point, whose hints come last to first.
fn line_at(
    alloc: Global,
    cnf: &Cnf,
    lines: &[Line],
    trail: &Trail,
    point: UniquePoint,
    marks: &mut Marks,
    mut hints: Vec<u32>,
    places: &mut Vec<u32>,
) -> Result<Conclusion, AllocError>
    requires justified { AreJustified (known cnf.now lines.now) trail.now.steps }
    requires decisions { AreOpen (known cnf.now lines.now) trail.now.steps }
    requires formula { trail.now.vars ≡ cnf.now.vars }
    requires vars { marks.old.vars ≡ trail.now.vars }
    requires derived { IsDerived (known cnf.now lines.now) (trues trail.now.steps) marks.old.marked marks.old.marked (reverse hints.items) }
    requires point { IsUniquePoint trail.now.steps marks.old.marked point }
    ensures concluded { IfOk result (IsConclusion cnf.now lines.now trail.now.steps) }
    ensures vars { OnOk result (marks.new.vars ≡ marks.old.vars) }
{
    let lit = trail.steps()[point.at].lit;
    minimize(cnf, lines, trail, lit, marks, &mut hints, places)?;
    let keep = reach(marks, trail, lit);
    let lits = marks.negations(alloc)?;
    let clause = Clause::from_vec(lits);
    Ok(Conclusion::Learnt {
        line: Line::new(clause, reversed(hints)),
        lit: lit.negated(),
        keep,
    })
}

/// The numbers, last to first.
fn reversed(numbers: Vec<u32>) -> Vec<u32>
    ensures { result.items ≡ reverse numbers.items }
{
    let mut numbers = numbers;
    numbers.as_mut_slice().reverse();
    numbers
}
