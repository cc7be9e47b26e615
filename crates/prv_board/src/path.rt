//! The path of entries down to the one that holds an input.
ghost use Rattle.std.specs.Prelude.{◌≡◌, true, length, ◌≤◌, IfOk};
ghost use Rattle.prv_model.specs.Terms.{holds};
ghost use Rattle.prv_board.specs.Paths.{IsPath};

use crate::board::Board;
use prv_model::Input;
use prv_region::{MAX_REGION_NODES, Scratch};
use std::alloc::AllocError;

impl Board {
    /// The numbers of the entries that hold an input of the space, from 0 to the live one. Each comes from the
    /// one before it.
    pub fn path(&self, input: &Input, scratch: &mut Scratch) -> Result<Vec<u32>, AllocError>
        requires arity { length input.now ≡ self.now.replay.pair.before.params }
        requires inside { holds self.now.replay.space input.now ≡ true }
        requires reserved { MAX_REGION_NODES ≤ scratch.old }
        ensures path { IfOk result (λ path. IsPath self.now.replay input.now path.items) }
        ensures room { scratch.new ≡ scratch.old }
    {
        let mut path = Vec::new(self.allocator());
        let mut number = 0;
        path.push(number)?;
        while let Some(next) = self.step(number, input, scratch) {
            path.push(next)?;
            number = next;
        }
        Ok(path)
    }
}
