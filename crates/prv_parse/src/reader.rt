//! The state of the parser over statements: where it stands, and the skeleton so far. Expressions need the cursor
//! alone, since no mark stands in them.

use crate::cursor::Cursor;
use prv_rule::Skel;

/// Reads the statements of a file, and their skeleton.
#[derive(Drop)]
pub struct Reader<'t> {
    /// Where it stands among the tokens.
    pub cursor: Cursor<'t>,
    /// The skeleton of what was read.
    pub skeleton: Vec<Skel>,
}
