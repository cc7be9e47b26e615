//! How two outcomes on one input compare. Exactly one of the three verdicts holds, which is what makes claims
//! about regions exclude each other.
ghost use Rattle.std.specs.Prelude.{◌≡◌};
ghost use Rattle.prv_model.specs.Comparison.{compare as compare_of, is_long as is_long_of, outcome_eq};

use crate::outcome::{Ending, Outcome};

/// How the runs of both versions on one input compare.
#[derive(Clone, Copy, Debug, PartialEq, Eq)]
pub enum Verdict {
    /// Some run passed the bound on turns.
    Beyond,
    /// Both runs have the same outcome.
    Same,
    /// The outcomes differ.
    Differ,
}

/// Compares the outcomes of both versions on one input.
pub fn compare(before: &Outcome, after: &Outcome) -> Verdict
    ensures { result ≡ compare_of before.now after.now }
{
    if is_long(before.how) || is_long(after.how) {
        Verdict::Beyond
    } else if same_outcome(before, after) {
        Verdict::Same
    } else {
        Verdict::Differ
    }
}

fn is_long(how: Ending) -> bool
    ensures { result ≡ is_long_of how }
{
    match how {
        Ending::Long => true,
        _ => false,
    }
}

/// Whether two outcomes are one, as wholes.
pub fn same_outcome(before: &Outcome, after: &Outcome) -> bool
    ensures { result ≡ outcome_eq before.now after.now }
{
    before.how == after.how && before.outs.as_slice() == after.outs.as_slice()
}
