//! The limits of one settlement. They bound its time and memory, and with them what a journal has to hold and a later
//! check to read.

/// The most distinct terms that are made for one settlement.
pub const MAX_NODES: u32 = 20_000;

/// Room for what parts alone need, which isn't counted: the negations of the literals, at most 1,024 of each
/// slice, and the two nodes that cut a partition; each may want 0 beside itself.
pub(crate) const MORE_NODES: u32 = 5_000;

/// The most numbers of a log, the last line of one that refutes not counted.
pub const MAX_NUMBERS: u32 = 1_000_000;

/// The most lines that a budget may have.
pub const MAX_LINES: u32 = 50_000;

/// The most bytes of a record.
pub const MAX_PAYLOAD: u64 = 17_000_000;
