//! Laws of boards, each the contract of a function that does nothing.
ghost use Rattle.std.specs.Prelude.{◌↔◌, IsTrue};
ghost use Rattle.prv_part.specs.Settlements.{Finding};
ghost use Rattle.prv_board.specs.Applying.{applies};
ghost use Rattle.prv_board.specs.Replays.{Replay, Applies};

/// A test decides whether a settlement applies to a board.
pub fn applying_is_decided()
    ensures { (board : Replay) (settlement : Finding) → IsTrue (applies board settlement) ↔ Applies board settlement }
{}
