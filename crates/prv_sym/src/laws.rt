//! Laws of symbols.
ghost use Rattle.std.specs.Prelude.{◌≡◌, ℕ, ℤ, List, All, length, true};
ghost use Rattle.prv_model.specs.Words.{IsWord};
ghost use Rattle.prv_model.specs.Programs.{expr_over};
ghost use Rattle.prv_model.specs.declared.expr.Expr.{Expr};
ghost use Rattle.prv_model.specs.declared.term.Term.{Term};
ghost use Rattle.prv_sym.specs.Judgements.{AreTerms, IsSaid};

/// On every input the safety of an expression is 1 exactly where the expression has a value in the state
/// that the variables' terms have there, and else 0; and its term has that value. Both are terms over the
/// parameters.
pub fn symbols_say_what_is_evaluated()
    ensures { (n : ℕ) (y : List ℤ) → All IsWord y → (env : List Term) → AreTerms n env → (e : Expr) → expr_over (length env) e ≡ true → IsSaid n y env e }
{}
