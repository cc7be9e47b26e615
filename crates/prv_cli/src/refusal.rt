//! Why the program doesn't show what it is asked for. A refusal has no memory of its own; its status and its line
//! come from it alone.
ghost use Rattle.std.specs.Prelude.{◌≡◌};
ghost use Rattle.prv_cli.specs.Refusals.{refusal_number};
ghost use Rattle.prv_cli.specs.declared.refusal.Refusal.TheVariants.{Memory};

use prv_marks::PairError;
use prv_version::VersionError;
use std::alloc::AllocError;

/// The file that a refusal names.
#[derive(Clone, Copy, Debug, PartialEq, Eq)]
pub enum Who {
    /// The version before.
    Old,
    /// The version after.
    New,
    /// The one file of a command.
    Only,
}

/// The bound that a slice passes.
#[derive(Clone, Copy, Debug, PartialEq, Eq)]
pub enum Bound {
    /// That on the nodes of the table of terms.
    Nodes,
    /// That on literals.
    Literals,
}

/// Why the program doesn't show what it is asked for.
#[derive(Debug, Drop)]
pub enum Refusal {
    /// The words have no reading; it is refused at this word.
    Usage { word: u32 },
    /// The command isn't built yet.
    Later,
    /// A file is refused, and not for want of memory.
    File { who: Who, why: VersionError },
    /// The versions make no pair.
    Pair(PairError),
    /// The input has another number of words than the program has parameters.
    Inputs { given: usize, wanted: u8 },
    /// The slice passes a bound.
    Slice(Bound),
    /// A file couldn't be read.
    Read,
    /// What was to be shown couldn't be written.
    Write,
    /// Out of memory.
    Memory,
}

impl From<AllocError> for Refusal {
    ghost from_gives = { λ _ e. e ≡ Memory };

    fn from(_: AllocError) -> Self {
        Refusal::Memory
    }
}

impl Refusal {
    /// The number with which the program ends.
    pub fn number(&self) -> u8
        ensures { result ≡ refusal_number self.now }
    {
        match self {
            Refusal::Usage { word: _ } | Refusal::Later => 3,
            Refusal::File { who: _, why: _ }
            | Refusal::Pair(_)
            | Refusal::Inputs {
                given: _,
                wanted: _,
            }
            | Refusal::Slice(_) => 4,
            Refusal::Read => 5,
            Refusal::Write => 6,
            Refusal::Memory => 9,
        }
    }
}
