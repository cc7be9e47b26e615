//! Laws of slices.
ghost use Rattle.std.specs.Prelude.{◌≡◌, ℕ, ℤ, List, map, true};
ghost use Rattle.prv_model.specs.Boards.{IsInput};
ghost use Rattle.std.specs.List.{AllByRecursion};
ghost use Rattle.prv_model.specs.Terms.{IsTerm, holds, term_value};
ghost use Rattle.prv_model.specs.Outcomes.{outcome};
ghost use Rattle.prv_model.specs.declared.program.Program.{Program};
ghost use Rattle.prv_general.specs.Slices.{slice};

/// On every input on which the literals of a slice hold, the program puts out the values of its terms and
/// ends in its way.
pub fn slice_fixes_outcome()
    ensures { (p : Program) (turns : ℕ) (x y : List ℤ) → IsInput p.params x → IsInput p.params y →
        holds (slice p turns x).literals y ≡ true →
        outcome p turns y ≡ record { outs = map (λ t. term_value t y) (slice p turns x).outs; how = (slice p turns x).how } }
{}

/// The literals of a slice hold on the input that it is made from.
pub fn slice_holds_its_input()
    ensures { (p : Program) (turns : ℕ) (x : List ℤ) → IsInput p.params x → holds (slice p turns x).literals x ≡ true }
{}

/// The literals of a slice and the terms of what it puts out are terms over the program's parameters.
pub fn slice_is_over_parameters()
    ensures literals { (p : Program) (turns : ℕ) (x : List ℤ) → AllByRecursion (IsTerm p.params) (slice p turns x).literals }
    ensures outs { (p : Program) (turns : ℕ) (x : List ℤ) → AllByRecursion (IsTerm p.params) (slice p turns x).outs }
{}
