//! How many entries there are of each kind. A board keeps the counts, so that reading them visits no entry.
ghost use Rattle.std.specs.Prelude.{◌≡◌, ◌+◌};
ghost use Rattle.prv_board.specs.Replays.{counts_of_kind, counts_of};
ghost use Rattle.prv_board.specs.Counting.{IsWithin, IsSum, AreSmall};

use prv_model::Kind;
use prv_part::Part;

/// How many live entries there are of each kind.
#[derive(Clone, Copy, Debug, PartialEq, Eq)]
pub struct Counts {
    /// Both versions end alike on each input.
    pub same: u32,
    /// Both versions end differently on each input.
    pub different: u32,
    /// No input lies in the entry.
    pub empty: u32,
    /// Some version passes the bound on turns on each input.
    pub beyond: u32,
    /// Not worked on yet.
    pub unexplored: u32,
    /// Worked on, and nothing was decided.
    pub undecided: u32,
}

impl Counts {
    /// No entry of any kind.
    pub const NONE: Counts = Counts {
        same: 0,
        different: 0,
        empty: 0,
        beyond: 0,
        unexplored: 0,
        undecided: 0,
    };

    /// One entry, by its kind.
    pub fn of_kind(kind: &Kind) -> Counts
        ensures { result ≡ counts_of_kind kind.now }
    {
        let none = Counts::NONE;
        match kind {
            Kind::Same => Counts { same: 1, ..none },
            Kind::Different { sample: _ } => Counts {
                different: 1,
                ..none
            },
            Kind::Empty => Counts { empty: 1, ..none },
            Kind::Beyond => Counts { beyond: 1, ..none },
            Kind::Unexplored => Counts {
                unexplored: 1,
                ..none
            },
            Kind::Undecided { reason: _ } => Counts {
                undecided: 1,
                ..none
            },
        }
    }

    /// Both counts together.
    pub fn plus(self, added: Counts) -> Counts
        requires { AreSmall self added }
        ensures { IsSum self added result }
    {
        Counts {
            same: self.same + added.same,
            different: self.different + added.different,
            empty: self.empty + added.empty,
            beyond: self.beyond + added.beyond,
            unexplored: self.unexplored + added.unexplored,
            undecided: self.undecided + added.undecided,
        }
    }

    /// The counts without those that are taken away.
    pub(crate) fn minus(self, taken: Counts) -> Counts
        requires { IsWithin taken self }
        ensures { IsSum result taken self }
    {
        Counts {
            same: self.same - taken.same,
            different: self.different - taken.different,
            empty: self.empty - taken.empty,
            beyond: self.beyond - taken.beyond,
            unexplored: self.unexplored - taken.unexplored,
            undecided: self.undecided - taken.undecided,
        }
    }

    /// The counts with those of some parts.
    pub(crate) fn plus_parts(self, parts: &[Part]) -> Counts
        requires { AreSmall self (counts_of parts.now) }
        ensures { IsSum self (counts_of parts.now) result }
    {
        let mut made = self;
        for part in parts {
            made = made.plus(Counts::of_kind(&part.kind));
        }
        made
    }
}
