//! Laws of the definitions, each the contract of a function that does nothing.
ghost use Rattle.std.specs.Prelude.{◌≡◌, ◌⊎◌, ℕ, List};
ghost use Rattle.prv_line.specs.Commands.{Command};
ghost use Rattle.prv_line.specs.Readings.{Reads};
ghost use Rattle.prv_line.specs.Usages.{IsUsage};

/// Words read as one command at most.
pub fn one_command()
    ensures { (words : List (List ℕ)) (a b : Command) → Reads a words → Reads b words → a ≡ b }
{}

/// Words read as a command, or one of them is refused.
pub fn command_or_usage()
    ensures { (words : List (List ℕ)) → ((c : Command) × Reads c words) ⊎ ((k : ℕ) × IsUsage words k) }
{}

/// Words are refused at one word at most, and only where they read as no command.
pub fn one_usage()
    ensures one { (words : List (List ℕ)) (j k : ℕ) → IsUsage words j → IsUsage words k → j ≡ k }
    ensures no_command { (words : List (List ℕ)) (k : ℕ) (c : Command) → IsUsage words k → Reads c words → ⊥ }
{}
