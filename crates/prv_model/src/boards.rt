//! The tests of a list of entries, at one input.
ghost use Rattle.std.specs.Prelude.{◌≡◌, ◌↔◌, IsTrue, map, length};
ghost use Rattle.prv_model.specs.Boards.{places as places_of, Claims, ShowsMember};

use crate::entry::{Entry, Kind};
use crate::input::Input;
use crate::term::{Term, holds};
use crate::verdict::Verdict;

/// In how many of the entries an input lies: in exactly one, where they cover all inputs.
pub fn places(entries: &[Entry], input: &Input) -> usize
    ensures { result ≡ places_of (map (λ e. e.terms) entries.now) input.now }
{
    let words = input.as_slice();
    let mut count = 0;
    for entry in entries {
        if holds(entry.terms.as_slice(), words) {
            count += 1;
        }
    }
    count
}

impl Kind {
    /// Whether what the kind claims is true of an input on which the versions compare so.
    pub fn claims(&self, verdict: Verdict) -> bool
        ensures { IsTrue result ↔ Claims self.now verdict }
    {
        match self {
            Kind::Same => verdict == Verdict::Same,
            Kind::Different { sample: _ } => verdict == Verdict::Differ,
            Kind::Empty => false,
            Kind::Beyond => verdict == Verdict::Beyond,
            Kind::Unexplored => true,
            Kind::Undecided { reason: _ } => true,
        }
    }

    /// Whether the sample that the kind shows, if it shows one, is an input of so many words in the region.
    pub fn shows_member(&self, params: usize, region: &[Term]) -> bool
        ensures { IsTrue result ↔ ShowsMember params self.now region.now }
    {
        match self {
            Kind::Different { sample } => {
                let words = sample.as_slice();
                words.len() == params && holds(region, words)
            }
            _ => true,
        }
    }
}
