//! Tests of one version's marks: a mark that is used twice, and a mark inside another.
ghost use Rattle.std.specs.Prelude.{◌≡◌, IfSome, IfNone};
ghost use Rattle.prv_marks.specs.Marks.{AreUsedOnce, IsUsedTwice, first_inner as first_inner_of};

use prv_names::MarkAt;

/// The mark that is used twice and whose second use comes first, if one is.
pub fn used_twice(marks: &[MarkAt]) -> Option<u8>
    ensures found { IfSome result (λ mark. IsUsedTwice marks.now mark) }
    ensures none { IfNone result (AreUsedOnce marks.now) }
{
    let mut seen = [false; 256];
    for i in 0..marks.len() {
        let mark = marks[i].mark;
        if seen[mark as usize] {
            return Some(mark);
        }
        seen[mark as usize] = true;
    }
    None
}

/// The place of the first mark that stands inside another, if one does.
pub fn first_inner(marks: &[MarkAt]) -> Option<u32>
    ensures { result ≡ first_inner_of marks.now }
{
    marks.iter().find(|m| m.inside).map(|m| m.place)
}
