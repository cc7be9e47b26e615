//! A board once more.
ghost use Rattle.std.specs.Prelude.{◌≡◌, map, IfOk};
ghost use Rattle.std.specs.Arc.{arc_value};

use crate::board::{Board, unexplored};
use prv_part::Settlement;
use std::alloc::{AllocError, Global};
use std::sync::Arc;

/// The same settlements, shared.
fn share(alloc: Global, settlements: &[Arc<Settlement>]) -> Result<Vec<Arc<Settlement>>, AllocError>
    ensures { IfOk result (λ shared. map (λ s. arc_value s) shared.items ≡ map (λ s. arc_value s) settlements.now) }
{
    let mut shared = Vec::with_capacity(alloc, settlements.len())?;
    for settlement in settlements {
        shared.push(Arc::try_clone(settlement)?)?;
    }
    Ok(shared)
}

impl Board {
    /// The same board once more. It shares the settlements.
    pub fn copy(&self) -> Result<Board, AllocError>
        ensures { IfOk result (λ copied. copied.replay ≡ self.now.replay) }
    {
        let pair = Arc::try_clone(&self.pair)?;
        let region = self.whole.region.share()?;
        let settlements = share(self.alloc, self.settlements.as_slice())?;
        let origins = Vec::from_slice(self.alloc, self.origins.as_slice())?;
        let retired = Vec::from_slice(self.alloc, self.retired.as_slice())?;
        Ok(Board {
            alloc: self.alloc,
            pair,
            caps: self.caps,
            whole: unexplored(self.alloc, region),
            settlements,
            origins,
            retired,
            counts: self.counts,
            totals: self.totals,
            spare: 0,
        })
    }
}
