//! The clauses that have a number: those of the formula, then the lines of the log.
ghost use Rattle.std.specs.Prelude.{◌≡◌, ◌<◌, length};
ghost use Rattle.prv_check.specs.Lines.{known};
ghost use Rattle.prv_propagate.specs.Reasons.{clause_of};

use prv_check::Line;
use prv_cnf::{Cnf, Lit};

/// The literals of the clause with this number.
pub fn clause_at<'a>(cnf: &'a Cnf, lines: &'a [Line], number: usize) -> &'a [Lit]
    requires { number < length (known cnf.now lines.now) }
    ensures { result.now ≡ clause_of (known cnf.now lines.now) number }
{
    let clauses = cnf.clauses();
    if number < clauses.len() {
        clauses[number].lits()
    } else {
        lines[number - clauses.len()].clause().lits()
    }
}

/// How many clauses there are.
pub fn known_count(cnf: &Cnf, lines: &[Line]) -> usize
    ensures { result ≡ length (known cnf.now lines.now) }
{
    cnf.clauses().len() + lines.len()
}
