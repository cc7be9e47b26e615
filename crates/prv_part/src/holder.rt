//! Which part of a settlement holds an input. The parts are cut from the region by one list of literals, each by the
//! negation of the next one, so the first literal that is 0 on the input names its part: one evaluation of the first
//! part's literals serves for all parts.
ghost use Rattle.std.specs.Prelude.{◌≡◌, ◌≤◌, ◌<◌, ◌^◌, true};
ghost use Rattle.prv_model.specs.Terms.{holds};
ghost use Rattle.prv_part.specs.Holders.{HoldsPart, part_without as part_without_of};

use crate::settlement::Settlement;
use crate::shape::Shape;
use prv_model::Input;
use prv_region::{MAX_REGION_NODES, Scratch};

/// Which part has the inputs on which the literal at this place of the first part is the first that is 0. The
/// first part has `all` literals, of which `known` are those of the region.
fn part_without(shape: Shape, known: usize, all: usize, place: usize) -> usize
    requires behind { known ≤ place }
    requires few { place < 2 ^ 62 }
    ensures { result ≡ part_without_of shape known all place }
{
    match shape {
        Shape::Split => {
            if place + 1 == all {
                1
            } else {
                2 + (place - known)
            }
        }
        Shape::Empty | Shape::Stuck | Shape::Whole | Shape::Beyond => 1 + (place - known),
    }
}

impl Settlement {
    /// The place of the part that holds an input of the region, from 0.
    ///
    /// It is one pass over the nodes of the first part's table and one over its literals, however many parts
    /// there are. It takes no memory.
    pub fn part_of(&self, input: &Input, scratch: &mut Scratch) -> u32
        requires inside { holds self.now.region input.now ≡ true }
        requires reserved { MAX_REGION_NODES ≤ scratch.old }
        ensures part { HoldsPart self.now.parts input.now result }
        ensures room { scratch.new ≡ scratch.old }
    {
        let first = &self.parts()[0].region;
        let Some(place) = first.first_zero(input, scratch) else {
            return 0;
        };
        let known = self.region().parts().roots.len();
        let all = first.parts().roots.len();
        part_without(self.shape(), known, all, place) as u32
    }
}
