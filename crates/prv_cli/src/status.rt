//! The statuses under which something was shown.
ghost use Rattle.std.specs.Prelude.{◌≡◌, ◌<◌, ◌^◌, length};
ghost use Rattle.prv_cli.specs.Statuses.{status_number, counts_status, entries_status as status_is, board_status as board_status_is};

use prv_board::{Board, Counts};
use prv_model::Entry;
use prv_text::count_entries;

/// What the program's end says of what was shown.
#[derive(Clone, Copy, Debug, PartialEq, Eq)]
pub enum Status {
    /// A run or a slice was shown, or each entry is Same or Empty.
    Done,
    /// An entry is Different.
    Different,
    /// No entry is Different, and one is Beyond, open or undecided.
    Unsettled,
}

impl Status {
    /// The number with which the program ends.
    pub fn number(self) -> u8
        ensures { result ≡ status_number self }
    {
        match self {
            Status::Done => 0,
            Status::Different => 1,
            Status::Unsettled => 2,
        }
    }
}

/// The status of a list of entries, of fewer than 2^32.
pub fn entries_status(entries: &[Entry]) -> Status
    requires { length entries.now < 2 ^ 32 }
    ensures { result ≡ status_is entries.now }
{
    status_of(&count_entries(entries))
}

/// The status of the live entries of a board.
pub fn board_status(board: &Board) -> Status
    ensures { result ≡ board_status_is board.now.replay }
{
    status_of(&board.counts())
}

/// The status of entries of which there are so many of each kind.
fn status_of(counts: &Counts) -> Status
    ensures { result ≡ counts_status counts.now }
{
    if counts.different > 0 {
        Status::Different
    } else if counts.beyond > 0 || counts.unexplored > 0 || counts.undecided > 0 {
        Status::Unsettled
    } else {
        Status::Done
    }
}
