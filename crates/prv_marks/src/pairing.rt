//! From two versions to a pair: the tests in the order in which they are refused. Parameters come first, then
//! marks used twice, marks inside marks, and last the skeletons.
ghost use Rattle.std.specs.Prelude.{◌≡◌, ◌≤◌, ◌↔◌, IsOk, IfOk, IfSome, IfNone};
ghost use Rattle.prv_model.specs.declared.limits.TheConstants.{MAX_TURNS};
ghost use Rattle.prv_marks.specs.Pairs.{MakePair, IsRefused, IsTwice, UseMarksOnce, IsInside, HaveNoInner};

use crate::difference::{first_difference, place_at};
use crate::error::{PairError, Side};
use crate::marks::{first_inner, used_twice};
use prv_model::Pair;
use prv_names::{MarkAt, Version};

/// The side and the mark of the first second use, if there is one.
fn twice(before: &[MarkAt], after: &[MarkAt]) -> Option<(Side, u8)>
    ensures found { IfSome result (λ t. IsTwice before.now after.now t.0 t.1) }
    ensures none { IfNone result (UseMarksOnce before.now after.now) }
{
    if let Some(mark) = used_twice(before) {
        return Some((Side::Before, mark));
    }
    match used_twice(after) {
        Some(mark) => Some((Side::After, mark)),
        None => None,
    }
}

/// The side and the place of the first mark inside a mark, if there is one.
fn inside(before: &[MarkAt], after: &[MarkAt]) -> Option<(Side, u32)>
    ensures found { IfSome result (λ t. IsInside before.now after.now t.0 t.1) }
    ensures none { IfNone result (HaveNoInner before.now after.now) }
{
    if let Some(place) = first_inner(before) {
        return Some((Side::Before, place));
    }
    match first_inner(after) {
        Some(place) => Some((Side::After, place)),
        None => None,
    }
}

/// Why two versions make no pair, if they make none.
fn refusal(before: &Version, after: &Version) -> Option<PairError>
    ensures found { IfSome result (λ why. IsRefused before.now after.now why) }
    ensures none { IfNone result (MakePair before.now after.now) }
{
    if before.program.params != after.program.params {
        return Some(PairError::Params {
            before: before.program.params,
            after: after.program.params,
        });
    }
    if let Some((side, mark)) = twice(before.marks.as_slice(), after.marks.as_slice()) {
        return Some(PairError::MarkTwice { side, mark });
    }
    if let Some((side, place)) = inside(before.marks.as_slice(), after.marks.as_slice()) {
        return Some(PairError::MarkInside { side, place });
    }
    let (old, new) = (before.skeleton.as_slice(), after.skeleton.as_slice());
    match first_difference(old, new) {
        Some(i) => Some(PairError::Unmarked {
            before: place_at(old, i),
            after: place_at(new, i),
        }),
        None => None,
    }
}

/// The pair of two versions of one program, with 1 to `MAX_TURNS` turns for each run.
///
/// It is refused where they make none, for the first of these reasons: other numbers of parameters;
/// a mark used twice; a mark inside a mark; a difference outside of the marks. Of each the version
/// before is tested first.
pub fn pair(before: Version, after: Version, turns: u32) -> Result<Pair, PairError>
    requires some_turns { 1 ≤ turns }
    requires few_turns { turns ≤ MAX_TURNS }
    ensures paired { IsOk result ↔ MakePair before after }
    ensures refused { (why : PairError) → (result ≡ Err why) ↔ IsRefused before after why }

    ensures old { IfOk result (λ pair. pair.before ≡ before.program) }
    ensures new { IfOk result (λ pair. pair.after ≡ after.program) }
    ensures turns { IfOk result (λ pair. pair.turns ≡ turns) }
{
    match refusal(&before, &after) {
        Some(why) => Err(why),
        None => Ok(Pair {
            before: before.program,
            after: after.program,
            turns,
        }),
    }
}
