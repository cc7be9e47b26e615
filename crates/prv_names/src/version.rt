//! A version of a program: what it does, its skeleton and its marks. Pairs are made of two of these, and no
//! later step looks at tokens or trees again.
use prv_model::Program;
use prv_parse::Skel;
use sqlite_items::Items;

/// A mark, where it stands, and whether it stands inside another mark's body.
#[derive(Clone, Copy, Debug)]
pub struct MarkAt {
    /// 1 to 255.
    pub mark: u8,
    /// The place of its `@`.
    pub place: u32,
    /// Whether the marked statement lies inside another marked one.
    pub inside: bool,
}

/// One version of a program: what it does, its skeleton, and its marks in the order of the text.
#[derive(Debug, Drop)]
pub struct Version {
    /// What it does.
    pub program: Program,
    /// Its tokens, with a hole for each outermost marked statement.
    pub skeleton: Items<Skel>,
    /// Its marks.
    pub marks: Items<MarkAt>,
}
