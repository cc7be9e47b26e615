//! The clauses that a line may name by number: those of the formula, then those of the earlier lines.
ghost use Rattle.std.specs.Prelude.{◌≡◌, ◌<◌, [], length, slice_index_or, nat_lt};
ghost use Rattle.std.specs.List.{list_all};
ghost use Rattle.prv_check.specs.Lines.{known};

use crate::log::Line;
use prv_cnf::{Cnf, Lit};

/// The literals of the clause with this number.
pub fn clause_at<'a>(cnf: &'a Cnf, earlier: &'a [Line], number: usize) -> &'a [Lit]
    requires { number < length (known cnf.now earlier.now) }
    ensures { result.now ≡ slice_index_or (known cnf.now earlier.now) number [] }
{
    let clauses = cnf.clauses();
    if number < clauses.len() {
        clauses[number].lits()
    } else {
        earlier[number - clauses.len()].clause().lits()
    }
}

/// How many clauses there are to name.
pub fn known_count(cnf: &Cnf, earlier: &[Line]) -> usize
    ensures { result ≡ length (known cnf.now earlier.now) }
{
    cnf.clauses().len() + earlier.len()
}

/// Whether each number is below the count.
pub fn all_below(numbers: &[u32], count: usize) -> bool
    ensures { result ≡ list_all (λ n. nat_lt n count) numbers.now }
{
    numbers.iter().all(|number| (*number as usize) < count)
}
