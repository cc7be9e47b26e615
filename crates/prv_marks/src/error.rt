//! Why two versions make no pair, with the marks or the places that show it.
use thiserror::Error;

/// One of the two versions.
#[derive(Clone, Copy, Debug, PartialEq, Eq)]
pub enum Side {
    Before,
    After,
}

/// Why two versions make no pair.
#[derive(Clone, Copy, Debug, PartialEq, Eq, Error)]
pub enum PairError {
    /// They have different numbers of parameters.
    #[error("params {before} and {after}")]
    Params { before: u8, after: u8 },
    /// A version uses a mark twice; of such marks it is the one whose second use comes first.
    #[error("{side:?}: mark {mark} twice")]
    MarkTwice { side: Side, mark: u8 },
    /// A version has a mark inside a mark; the place is that of the first inner `@`.
    #[error("{side:?}: mark inside mark at {place}")]
    MarkInside { side: Side, place: u32 },
    /// The versions differ outside of their marks, first at these places.
    #[error("unmarked at {before} and {after}")]
    Unmarked { before: u32, after: u32 },
}
