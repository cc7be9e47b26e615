//! Which entry holds an input. The way goes from the first entry along the settlements that retired entries, so its cost
//! depends on how deep the entry lies and not on how many entries there are.
ghost use Rattle.std.specs.Prelude.{◌≡◌, ◌≤◌, true, length, OnOk};
ghost use Rattle.std.specs.Option.{MatchOption};
ghost use Rattle.prv_model.specs.Terms.{holds};
ghost use Rattle.prv_board.specs.Replays.{slots};
ghost use Rattle.prv_board.specs.Paths.{Holds, HoldsAlone, IsStep};

use crate::board::Board;
use crate::tree::retired_by;
use prv_model::Input;
use prv_region::{MAX_REGION_NODES, Scratch};
use std::alloc::AllocError;

impl Board {
    /// Makes room in a scratch for `find`, `path` and `in_space`. Where memory is short, the room stays as it was.
    pub fn reserve(&self, scratch: &mut Scratch) -> Result<(), AllocError>
        ensures reserved { OnOk result (MAX_REGION_NODES ≤ scratch.new) }
        ensures kept { scratch.old ≤ scratch.new }
    {
        let _ = &self.pair;
        scratch.reserve_for_regions()
    }

    /// Whether an input lies in the space that the board covers. It takes no memory.
    pub fn in_space(&self, input: &Input, scratch: &mut Scratch) -> bool
        requires reserved { MAX_REGION_NODES ≤ scratch.old }
        ensures value { result ≡ holds self.now.replay.space input.now }
        ensures room { scratch.new ≡ scratch.old }
    {
        self.whole.region.holds(input, scratch)
    }

    /// The number of the one live entry that holds an input of the space.
    ///
    /// It goes from entry 0 along the settlements that retired entries. Each settlement on the way costs one
    /// pass over the nodes of one table, however many parts it has. It takes no memory.
    pub fn find(&self, input: &Input, scratch: &mut Scratch) -> u32
        requires arity { length input.now ≡ self.now.replay.pair.before.params }
        requires inside { holds self.now.replay.space input.now ≡ true }
        requires reserved { MAX_REGION_NODES ≤ scratch.old }
        ensures found { HoldsAlone (slots self.now.replay) input.now result }
        ensures room { scratch.new ≡ scratch.old }
    {
        let mut number = 0;
        while let Some(next) = self.step(number, input, scratch) {
            number = next;
        }
        number
    }

    /// The part of a retired entry that holds an input, as the entry does; none where the entry is live.
    pub(crate) fn step(&self, number: u32, input: &Input, scratch: &mut Scratch) -> Option<u32>
        requires arity { length input.now ≡ self.now.replay.pair.before.params }
        requires inside { holds self.now.replay.space input.now ≡ true }
        requires reserved { MAX_REGION_NODES ≤ scratch.old }
        requires here { Holds (slots self.now.replay) input.now number }
        ensures step { MatchOption result (HoldsAlone (slots self.now.replay) input.now number) (IsStep self.now.replay input.now number) }
        ensures room { scratch.new ≡ scratch.old }
    {
        // An input's words are in range.
        let _words = input.as_slice();
        match retired_by(self.retired.as_slice(), number) {
            Some(by) => {
                let settlement = &self.settlements[by.settlement as usize];
                Some(by.first + settlement.part_of(input, scratch))
            }
            None => None,
        }
    }
}
