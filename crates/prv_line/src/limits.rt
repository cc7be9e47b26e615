//! The numbers that the options of a command may take.
use prv_model::MAX_TURNS;

/// The numbers that an option may take, and the one that holds where it isn't given.
#[derive(Clone, Copy, Debug)]
pub struct Range {
    /// The least number.
    pub least: u32,
    /// The greatest number.
    pub most: u32,
    /// The number where the option isn't given.
    pub default: u32,
}

/// `--turns`: the most turns of a run.
pub const TURNS: Range = Range {
    least: 1,
    most: MAX_TURNS,
    default: 32,
};

/// `--lines`: the budget of a log in lines.
pub const LINES: Range = Range {
    least: 1,
    most: 50_000,
    default: 2_000,
};

/// `--settlements`: the most settlements.
pub const SETTLEMENTS: Range = Range {
    least: 1,
    most: 100_000,
    default: 1_000,
};

/// `--workers`: the workers.
pub const WORKERS: Range = Range {
    least: 0,
    most: 8,
    default: 2,
};
