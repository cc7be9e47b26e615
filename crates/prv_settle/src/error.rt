//! Why a settlement isn't made. A settlement always comes to something; what is refused is an input that isn't the
//! region's.

use std::alloc::AllocError;
use thiserror::Error;

/// Why a region wasn't settled at an input.
#[derive(Clone, Copy, Debug, PartialEq, Eq, Error)]
pub enum SettleAtError {
    /// The input isn't in the region.
    #[error("the input isn't in the region")]
    NotInRegion,
    /// Want of memory.
    #[error("out of memory")]
    Memory,
}

impl From<AllocError> for SettleAtError {
    ghost use Rattle.std.specs.Prelude.{◌≡◌};
    ghost use Rattle.prv_settle.specs.declared.error.SettleAtError.TheVariants.{Memory};

    ghost from_gives = { λ _ e. e ≡ Memory };

    fn from(_: AllocError) -> SettleAtError {
        SettleAtError::Memory
    }
}
