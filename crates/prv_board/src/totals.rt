//! How much a board holds: the totals that its caps bound.
ghost use Rattle.std.specs.Prelude.{◌≡◌, ◌↔◌, ◌+◌, ◌<◌, ◌^◌, IsTrue};
ghost use Rattle.prv_board.specs.Replays.{Fits, literals_of};

use prv_part::{Caps, Part};
use std::fmt::{self, Display, Formatter, Write};

/// How much a board holds.
#[derive(Clone, Copy, Debug, PartialEq, Eq)]
pub struct Totals {
    /// The live entries.
    pub entries: u32,
    /// The numbers of all settlements and the count of their parts, together.
    pub numbers: u64,
    /// The literals of the live entries.
    pub literals: u64,
}

impl Totals {
    /// Whether no total passes its cap.
    pub fn fit(&self, caps: &Caps) -> bool
        ensures { IsTrue result ↔ Fits caps.now self.now }
    {
        self.entries <= caps.entries
            && self.numbers <= caps.numbers
            && self.literals <= caps.literals
    }
}

impl Display for Totals {
    fn fmt<W: Write>(&self, f: &mut Formatter<W>) -> fmt::Result {
        let Totals {
            entries,
            numbers,
            literals,
        } = self;
        write!(
            f,
            "{entries} entries, {numbers} numbers, {literals} literals"
        )
    }
}

/// The literals of some parts.
pub fn literals(parts: &[Part]) -> u64
    requires { literals_of parts.now < 2 ^ 62 }
    ensures { result ≡ literals_of parts.now }
{
    let mut count: u64 = 0;
    for part in parts {
        count += part.region.parts().roots.len() as u64;
    }
    count
}
