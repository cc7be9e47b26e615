//! The skeleton of a text: its tokens, with one hole in place of each outermost marked part. Two texts are a
//! pair where their skeletons are equal, so each item keeps the place at which it begins.

use prv_lex::Tok;

/// One item of a skeleton, and where it begins.
#[derive(Debug, Drop)]
pub struct Skel {
    pub item: SkelItem,
    /// The place of its first byte; that of a hole is the place of its `@`.
    pub place: u32,
}

/// What stands in a skeleton.
#[derive(Debug, Drop)]
pub enum SkelItem {
    /// A token outside of every mark.
    Tok(Tok),
    /// The hole that an outermost marked statement or declaration leaves, with its mark.
    Hole(u8),
}
