//! Laws of the choice, each the contract of a function that does nothing.
ghost use Rattle.std.specs.Prelude.{◌≡◌, ℕ, Bool, length};
ghost use Rattle.prv_run.specs.Runs.{Run, events};
ghost use Rattle.prv_select.specs.Choices.{choose};

/// The choice has a flag for each evaluation that is told of a run, in its order.
pub fn one_flag_each()
    ensures { (run : Run) (needed : ℕ → Bool) → length (choose run needed).kept ≡ length (events run) }
{}
