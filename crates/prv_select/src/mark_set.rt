//! Sets of marks.
//!
//! A mark is a number of one byte, so a set is four words and is copied, joined and asked without memory.
ghost use Rattle.std.specs.Prelude.{◌≡◌};
ghost use Rattle.prv_select.specs.MarkSets.{no_marks, one_mark, both_marks, has_mark};

/// A set of marks, with a bit for each.
#[derive(Clone, Copy, Debug, PartialEq, Eq)]
pub struct MarkSet {
    /// The bits of the marks below 64, of those below 128, and so on, the least mark of a word in its last bit.
    pub words: [u64; 4],
}

impl MarkSet {
    /// The set of no mark.
    pub fn none() -> MarkSet
        ensures { result ≡ no_marks }
    {
        MarkSet { words: [0; 4] }
    }

    /// The set of this mark alone.
    pub fn one(mark: u8) -> MarkSet
        ensures { result ≡ one_mark mark }
    {
        let mut words = [0; 4];
        words[(mark / 64) as usize] = 1 << (mark % 64);
        MarkSet { words }
    }

    /// The marks of either set.
    pub fn or(self, other: MarkSet) -> MarkSet
        ensures { result ≡ both_marks self other }
    {
        let [a, b, c, d] = self.words;
        let [e, f, g, h] = other.words;
        MarkSet {
            words: [a | e, b | f, c | g, d | h],
        }
    }

    /// Whether the set has a mark.
    pub fn has(self, mark: u8) -> bool
        ensures { result ≡ has_mark self mark }
    {
        (self.words[(mark / 64) as usize] >> (mark % 64)) & 1 == 1
    }
}
