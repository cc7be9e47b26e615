//! Rows of flags that are all taken back in one step.
ghost use Rattle.std.specs.Prelude.{◌≡◌, ◌<◌, map, nat_eq, length, replicate, slice_index_or, slice_set, false, true, IfOk};

use std::alloc::{AllocError, Global};
use std::marker::Model;

/// A row of flags. Each keeps the number of the round in which it was set last, and those of earlier
/// rounds count as not set.
#[derive(Debug, Drop)]
pub struct Flags {
    /// The round that counts.
    round: u32,
    /// Under each flag the round in which it was set last.
    rounds: Vec<u32>,
}

impl Model for Flags {
    ghost use Rattle.std.specs.Prelude.{◌≤◌, nat_eq, map, List, Bool};
    ghost use Rattle.std.specs.List.{All};

    ghost Value = { List Bool };

    ghost view = { λ f. map (nat_eq f.round) f.rounds.items };

    ghost invariant = { λ f. All (λ r. r ≤ f.round) f.rounds.items };
}

impl Flags {
    /// So many flags, of which none is set.
    pub fn new(alloc: Global, count: usize) -> Result<Flags, AllocError>
        ensures { IfOk result (λ f. f ≡ replicate count false) }
    {
        let rounds = vec![in alloc; 0u32; count]?;
        Ok(Flags { round: 1, rounds })
    }

    /// How many flags there are.
    pub fn len(&self) -> usize
        ensures { result ≡ length self.now }
    {
        self.rounds.len()
    }

    /// Whether there is a flag at this place that is set.
    pub fn has(&self, at: usize) -> bool
        ensures { result ≡ slice_index_or self.now at false }
    {
        at < self.rounds.len() && self.rounds[at] == self.round
    }

    /// The rounds in which the flags were set, and the round that counts.
    pub fn rounds(&self) -> (&[u32], u32)
        ensures { map (nat_eq result.1) result.0.now ≡ self.now }
    {
        (self.rounds.as_slice(), self.round)
    }

    /// Sets the flag at this place.
    pub fn set(&mut self, at: usize)
        requires { at < length self.old }
        ensures { self.new ≡ slice_set self.old at true }
    {
        self.rounds[at] = self.round;
    }

    /// Takes all flags back.
    pub fn clear(&mut self)
        ensures { self.new ≡ replicate (length self.old) false }
    {
        if self.round == u32::MAX {
            self.rounds.fill(0);
            self.round = 0;
        }
        self.round += 1;
    }
}
