//! The calls between two writes, as two counts: of all that they were, only their number and the first sync matter.

/// How many calls wrote nothing.
#[derive(Clone, Copy, Debug)]
pub struct QuietCalls {
    /// Up to the first sync that was done.
    pub passed: u64,
    /// That sync and all calls behind it.
    pub synced: u64,
}

impl QuietCalls {
    /// No call.
    pub const NONE: QuietCalls = QuietCalls {
        passed: 0,
        synced: 0,
    };
}
