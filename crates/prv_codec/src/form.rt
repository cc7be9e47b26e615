//! The two forms in which a journal writes its payloads.

/// How the numbers of a payload are spelled.
#[derive(Clone, Copy, Debug, PartialEq, Eq)]
pub enum Form {
    /// Numbers of fixed width, the low byte first; words as two's complement.
    One,
    /// Numbers in as few groups of seven bits as serve, the low group first; words in zigzag order.
    Two,
}
