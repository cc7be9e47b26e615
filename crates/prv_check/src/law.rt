//! Laws of logs: facts that follow from the definitions alone, each for the callers that rest on it.
//! They have nothing to run.
ghost use Rattle.std.specs.Prelude.{ℕ, ◌+◌, ◌-◌, ◌*◌, ◌^◌, ◌≤◌, List, length, take, Option, IsTrue};
ghost use Rattle.std.specs.List.{AllByRecursion};
ghost use Rattle.prv_cnf.specs.Formulas.{Formula, IsFormula};
ghost use Rattle.prv_cnf.specs.Models.{HasNoModel};
ghost use Rattle.prv_check.specs.LogLines.{LogLine, line_numbers};
ghost use Rattle.prv_check.specs.Lines.{Follows};
ghost use Rattle.prv_check.specs.Logs.{IsAccepted};
ghost use Rattle.prv_check.specs.Spending.{IsSpent, AreLearnt, are_distinct, log_numbers};
ghost use Rattle.prv_check.specs.Bounds.{IsBounded, HasDistinctHints, known_count};

/// The law of accepted logs: no values of the variables, of all that there are, satisfy a formula
/// that has one. It speaks of the same formulas, logs and acceptance as [`check`](crate::check), and
/// has nothing to run.
pub fn accepted_has_no_model()
    ensures { (f : Formula) (log : List LogLine) → IsFormula f → IsAccepted f log → HasNoModel f }
{}

/// The law of spent logs: over v variables and c clauses no log is spent on a budget of at least 3^v
/// lines and 3^v * (v + c + 3^v + 2) numbers. There are fewer than 3^v fresh lines, and each has at
/// most v literals and c + 3^v hints.
pub fn ample_budget_is_not_spent()
    ensures { (f : Formula) (log : List LogLine) (next : Option LogLine) (lines numbers : ℕ) → 3 ^ f.vars ≤ lines → 3 ^ f.vars * (f.vars + length f.clauses + 3 ^ f.vars + 2) ≤ numbers → IsSpent f log next lines numbers → ⊥ }
{}

/// The bounds of a line: where it follows and names no clause twice, its literals are of the formula's
/// variables, at most one of each, and its hints are of the clauses before it, at most one of each.
pub fn line_is_bounded()
    ensures bounded { (f : Formula) (earlier : List LogLine) (s : LogLine) → Follows f earlier s → IsTrue (are_distinct s.hints) → IsBounded f.vars (known_count f earlier) s }
    ensures numbers { (f : Formula) (earlier : List LogLine) (s : LogLine) → Follows f earlier s → IsTrue (are_distinct s.hints) → line_numbers s ≤ f.vars + known_count f earlier + 2 }
{}

/// The bounds of a log whose lines are worth their numbers, as those of a spent log are: each line is
/// bounded by the formula and the whole log.
pub fn learnt_log_is_bounded()
    ensures { (f : Formula) (log : List LogLine) → AreLearnt f log → AllByRecursion (IsBounded f.vars (known_count f log)) log }
{}

/// The bounds of an accepted log that names no clause twice in a line: each line is bounded by the
/// formula and the whole log, and the last line, which is empty, adds at most its hints and two counts
/// to the numbers of those before it.
pub fn accepted_log_is_bounded()
    ensures bounded { (f : Formula) (log : List LogLine) → IsAccepted f log → HasDistinctHints log → AllByRecursion (IsBounded f.vars (known_count f log)) log }
    ensures numbers { (f : Formula) (log : List LogLine) → IsAccepted f log → HasDistinctHints log → log_numbers log ≤ log_numbers (take (length log - 1) log) + known_count f log + 1 }
{}
