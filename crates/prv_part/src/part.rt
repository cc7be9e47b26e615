//! A part of a region: a smaller region with what is claimed of each input in it, and the caps of a board
//! that keeps parts as its entries.
ghost use Rattle.std.specs.Prelude.{◌≡◌, IfOk};

use prv_model::Kind;
use prv_region::Region;
use sqlite_items::Items;
use std::alloc::{AllocError, Global};

/// One part of a region, with what is claimed of it and the marks of the changes that contribute.
#[derive(Drop)]
pub struct Part {
    /// The inputs of the part.
    pub region: Region,
    /// What is claimed of each of them.
    pub kind: Kind,
    /// The marks of the changes that contribute, in rising order; none where nothing was run.
    pub marks: Items<u8>,
}

impl Part {
    /// The same part once more. It shares the region.
    pub fn copy(&self, alloc: Global) -> Result<Part, AllocError>
        ensures { IfOk result (λ copied. copied ≡ self.now) }
    {
        Ok(Part {
            region: self.region.share()?,
            kind: self.kind.copy(alloc)?,
            marks: Items::from_slice(alloc, self.marks.as_slice())?,
        })
    }
}

/// The most that a board may hold.
#[derive(Clone, Copy, Debug, PartialEq, Eq)]
pub struct Caps {
    /// Live entries.
    pub entries: u32,
    /// The numbers of all settlements and the count of their parts, together.
    pub numbers: u64,
    /// The literals of the live entries.
    pub literals: u64,
}
