//! A board as it stood behind the first settlements of its history.
ghost use Rattle.std.specs.Prelude.{◌≡◌, ◌≤◌, length, IfOk, OnOk};
ghost use Rattle.std.specs.Arc.{arc_value};
ghost use Rattle.prv_board.specs.Replays.{prefix as prefix_of, unsettled, with_one_more, Applies};

use crate::board::Board;
use prv_part::Settlement;
use std::alloc::AllocError;
use std::sync::Arc;

impl Board {
    /// The board of the first settlements of the history, so many of them. It shares them and tests none again,
    /// and takes time and memory in proportion to their parts.
    pub fn prefix(&self, count: usize) -> Result<Board, AllocError>
        requires { count ≤ length self.now.replay.history }
        ensures { IfOk result (λ board. board.replay ≡ prefix_of count self.now.replay) }
    {
        self.is_legal();
        let history = self.history();
        let mut board = self.begun()?;
        for k in 0..count {
            board.apply_known(&history[k])?;
        }
        Ok(board)
    }

    /// The board as it began.
    fn begun(&self) -> Result<Board, AllocError>
        ensures { IfOk result (λ board. board.replay ≡ unsettled self.now.replay.pair self.now.replay.space self.now.replay.caps) }
    {
        let pair = Arc::try_clone(self.pair())?;
        let space = self.space().share()?;
        Board::new(self.allocator(), pair, space, self.caps())
    }

    /// Applies a settlement that is known to apply.
    fn apply_known(&mut self, settlement: &Arc<Settlement>) -> Result<(), AllocError>
        requires { Applies self.old.replay (arc_value settlement.now) }
        ensures { OnOk result (self.new.replay ≡ with_one_more self.old.replay (arc_value settlement.now)) }
    {
        self.make_room(settlement.parts().len() as u32)?;
        let settlement = Arc::try_clone(settlement)?;
        self.apply_ready(settlement);
        Ok(())
    }
}
