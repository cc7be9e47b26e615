//! Why no more is done on a board: what an exploration answers and the last line of a report says.
use crate::totals::Totals;

/// Why an exploration of a board ended.
#[derive(Clone, Copy, Debug, PartialEq, Eq)]
pub enum Ended {
    /// No entry is left that can be worked on with the budget.
    Done,
    /// The next settlement would pass a cap of the board. These are the totals that would be reached.
    Full(Totals),
    /// A stop was asked for.
    Stop,
    /// As many settlements were made as were allowed.
    Settlements { limit: u32 },
}
