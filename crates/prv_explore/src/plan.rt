//! How much work an exploration is allowed: the budget of each search, the count of settlements, and the caps of its
//! board.
use prv_part::Caps;

/// How much work is to be done.
#[derive(Clone, Copy, Debug, PartialEq, Eq)]
pub struct Plan {
    /// The budget of each search in lines of its log, from 1 to [`MAX_LINES`](prv_settle::MAX_LINES).
    pub lines: u32,
    /// The most settlements that are made.
    pub settlements: u32,
}

/// The most that the board of an exploration may hold.
pub const BOARD_CAPS: Caps = Caps {
    entries: 200_000,
    numbers: 2_000_000_000,
    literals: 50_000_000,
};
