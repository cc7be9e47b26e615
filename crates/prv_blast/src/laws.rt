//! Laws of formulas, each the contract of a function that does nothing.
ghost use Rattle.std.specs.Prelude.{◌≤◌, ℕ, List, All};
ghost use Rattle.prv_model.specs.Terms.{IsTerm};
ghost use Rattle.prv_model.specs.declared.term.Term.{Term};
ghost use Rattle.prv_blast.specs.Subterms.{cost, param_count};
ghost use Rattle.prv_blast.specs.Formulas.{formula, StandsFor, IsWithinCost};

/// The formula of a condition on at most 8 parameters, within the limit on its cost, stands for the
/// condition in both directions, and is no larger than the condition costs.
pub fn formulas_stand_for_conditions()
    ensures stands { (terms : List Term) → All (IsTerm 8) terms → cost terms ≤ 1500000 → StandsFor (param_count terms) (formula terms) terms }
    ensures size { (terms : List Term) → All (IsTerm 8) terms → cost terms ≤ 1500000 → IsWithinCost (param_count terms) (formula terms) terms }
{}

/// A condition has as many parameters as the least number that is above each in it.
pub fn param_count_is_least()
    ensures over { (m : ℕ) (terms : List Term) → All (IsTerm m) terms → All (IsTerm (param_count terms)) terms }
    ensures least { (m : ℕ) (terms : List Term) → All (IsTerm m) terms → param_count terms ≤ m }
{}
