//! What may be wrong with the names of a program, each at the place of the name, and the limits on counts.
use std::alloc::{AllocError, AllocFailed};
use thiserror::Error;

/// Of what a program has too many.
#[derive(Clone, Copy, Debug, PartialEq, Eq)]
pub enum What {
    /// More than 8 parameters.
    Params,
    /// More than 64 variables, the parameters with them.
    Vars,
    /// More than 1,000 statements and declarations.
    Stmts,
}

/// What keeps a tree from being a program.
#[derive(Debug, Drop, Error)]
pub enum NameError {
    /// A name of which no declaration has ended before this place.
    #[error("unknown name at {place}")]
    Unknown { place: u32 },
    /// A second declaration of a name.
    #[error("second declaration at {place}")]
    Twice { place: u32 },
    /// A name whose block has ended before this place.
    #[error("name out of scope at {place}")]
    NotInScope { place: u32 },
    /// So many of a kind, where all names are right.
    #[error("too many {what:?}: {count}")]
    TooMany { what: What, count: u32 },
    /// Memory ran out.
    #[error("out of memory")]
    Memory,
}

impl From<AllocError> for NameError {
    ghost use Rattle.std.specs.Prelude.{◌≡◌};
    ghost use Rattle.prv_names.specs.declared.error.NameError.TheVariants.{Memory};

    ghost from_gives = { λ _ e. e ≡ Memory };

    fn from(_e: AllocError) -> NameError {
        NameError::Memory
    }
}

impl<T: Drop> From<AllocFailed<T>> for NameError {
    ghost use Rattle.std.specs.Prelude.{◌≡◌};
    ghost use Rattle.prv_names.specs.declared.error.NameError.TheVariants.{Memory};

    ghost from_gives = { λ _ e. e ≡ Memory };

    fn from(_e: AllocFailed<T>) -> NameError {
        NameError::Memory
    }
}
