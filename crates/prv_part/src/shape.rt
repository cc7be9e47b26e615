//! What the region of an entry can be found to be. Each shape has its own list of parts.

/// What a region is found to be.
#[derive(Clone, Copy, Debug, PartialEq, Eq)]
pub enum Shape {
    /// No input lies in it.
    Empty,
    /// Nothing was decided.
    Stuck,
    /// The inputs on which both versions run as on the member have one claim.
    Whole,
    /// The inputs on which both versions run as on the member are two parts, which compare differently.
    Split,
    /// Some version passes the bound on turns.
    Beyond,
}
