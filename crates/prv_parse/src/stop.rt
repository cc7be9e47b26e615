//! Why the parser stops. The place isn't part of it: the cursor stands at the token in question.

use std::alloc::{AllocError, AllocFailed};

/// Why the reader stops; it stands at the token in question then.
#[derive(Clone, Copy, Debug)]
pub enum Stop {
    /// The token fits no text, or there is none.
    Syntax,
    /// The token is inside too many constructs.
    Depth,
    /// The token is an operator too many.
    Operators,
    /// Memory ran out.
    Memory,
}

impl From<AllocError> for Stop {
    ghost use Rattle.std.specs.Prelude.{◌≡◌};
    ghost use Rattle.prv_parse.specs.declared.stop.Stop.TheVariants.{Memory};

    ghost from_gives = { λ _ s. s ≡ Memory };

    fn from(_e: AllocError) -> Stop {
        Stop::Memory
    }
}

impl<T: Drop> From<AllocFailed<T>> for Stop {
    ghost use Rattle.std.specs.Prelude.{◌≡◌};
    ghost use Rattle.prv_parse.specs.declared.stop.Stop.TheVariants.{Memory};

    ghost from_gives = { λ _ s. s ≡ Memory };

    fn from(_e: AllocFailed<T>) -> Stop {
        Stop::Memory
    }
}
