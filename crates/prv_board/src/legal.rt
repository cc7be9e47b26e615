//! A board is legal.
ghost use Rattle.std.specs.List.{AllByRecursion};
ghost use Rattle.prv_part.specs.Settlements.{IsSettlement};
ghost use Rattle.prv_board.specs.Replays.{IsReplay};
ghost use Rattle.prv_board.specs.Legality.{IsLegalBoard};

use crate::board::Board;

impl Board {
    /// Whatever was applied, each settlement applies to the board of those before it, and the board is legal:
    /// each input of its space lies in exactly one live entry, no other input lies in one, and what an entry
    /// claims is true of every input that it holds.
    pub fn is_legal(&self)
        ensures replay { IsReplay self.now.replay }
        ensures settlements { AllByRecursion IsSettlement self.now.replay.history }
        ensures legal { IsLegalBoard self.now.replay }
    {
        let _ = &self.pair;
    }
}
