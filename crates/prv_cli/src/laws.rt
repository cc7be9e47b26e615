//! Laws of the definitions, each the contract of a function that does nothing.

ghost use Rattle.std.specs.Prelude.{◌≡◌, ◌≢◌, ℕ, List, Result};
ghost use Rattle.prv_io.specs.Files.{Known, Unknown};
ghost use Rattle.prv_cli.specs.Steps.{Told, Trace};
ghost use Rattle.prv_cli.specs.Commands.{says};
ghost use Rattle.prv_line.specs.Commands.{Command};
ghost use Rattle.prv_line.specs.Readings.{Reads};
ghost use Rattle.prv_cli.specs.Answers.{Agree, Searches, AreAlike};
ghost use Rattle.prv_cli.specs.declared.status.Status.{Status};
ghost use Rattle.prv_cli.specs.declared.refusal.Refusal.{Refusal};

/// Where it is known of each file what it holds or that it is absent, words do one thing and have one answer,
/// but for a read or a write that fails and for want of memory. Where a command searches, two answers that
/// show something may differ by what was found of the one pair.
pub fn one_answer()
    ensures one { (told : Told) (words : List (List ℕ)) (trace other : Trace) (answer another : Result Status Refusal) → ((name : List ℕ) → told name ≢ Unknown)
        → ((c : Command) → Reads c words → Searches c → ⊥) → says words told trace answer → says words told other another → Agree trace answer other another }
    ensures alike { (told : Told) (words : List (List ℕ)) (c : Command) (trace other : Trace) (answer another : Result Status Refusal) → ((name : List ℕ) → told name ≢ Unknown)
        → Reads c words → says words told trace answer → says words told other another → AreAlike c trace answer other another }
{}
