//! Settling the two halves of a partition: the inputs on which the versions compare as they do at the
//! input that was run, and the others.
ghost use Rattle.std.specs.Prelude.{◌≡◌, ◌≢◌, ◌<◌, ◌≤◌, ◌^◌, ◌++◌, ◌∷◌, [], ℤ, List, length, All, IfOk, Some, true, false};
ghost use Rattle.std.specs.Arc.{arc_value};
ghost use Rattle.prv_model.specs.Terms.{IsTerm};
ghost use Rattle.prv_model.specs.declared.program.Pair.{Pair as ThePair};
ghost use Rattle.prv_model.specs.declared.term.Term.{Term};
ghost use Rattle.prv_sym.specs.Calls.{StandsFor};
ghost use Rattle.prv_part.specs.Literals.{agree_at as agree_at_of, equality as equality_of, slice_before, slice_after};
ghost use Rattle.prv_settle.specs.Answers.{IsSearched};
ghost use Rattle.prv_settle.specs.Counts.{is_wide, has_many_literals, is_beyond};
ghost use Rattle.prv_settle.specs.Grounds.{other_part};
ghost use Rattle.prv_settle.specs.Halving.{AreHalves};
ghost use Rattle.prv_settle.specs.Making.{AreRuns, IsCut};
ghost use Rattle.prv_settle.specs.Rooms.{HasRoom};
ghost use Rattle.prv_settle.specs.Settlings.{raw_of as the_raw};
ghost use Rattle.prv_settle.specs.Steps.{IsMember, SettlesAt, IsSettlingAt};

use crate::answer::Answer;
use crate::cut::Cut;
use crate::partition::{decided, is_granted, marks_of, partition, with_node};
use crate::record::{kind_of, seal, split_parts, whole_parts};
use crate::room::negated;
use crate::runs::Runs;
use crate::search::search;
use crate::settled::Settled;
use crate::task::{Options, Task};
use prv_model::Input;
use prv_part::Shape;
use prv_pool::Pool;
use prv_record::{Proof, Raw, RawOther};
use prv_region::Cond;
use std::alloc::{AllocError, Global};
use std::sync::Arc;

/// A partition, the node that says that the versions compare as they do at the input that was run, and
/// the node of its negation.
#[derive(Drop)]
pub(crate) struct Halves {
    /// The partition.
    pub(crate) cut: Cut,
    /// The node that says that the versions compare as they do at the input that was run.
    pub(crate) first: u32,
    /// The node of its negation.
    pub(crate) second: u32,
    /// Whether the versions agree at the input that was run.
    pub(crate) agree: bool,
}

/// The partition of the input that was run.
pub(crate) fn cut_of(alloc: Global, pool: Pool, runs: &Runs) -> Result<Cut, AllocError>
    requires { (pair : ThePair) × (region : List Term) × (t : List ℤ) × AreRuns pair region t pool runs.now }
    ensures cut { (pair : ThePair) (region : List Term) (t : List ℤ) → AreRuns pair region t pool runs.now → IfOk result (λ cut. IsCut pair region t cut) }
    ensures same { IfOk result (λ cut. cut.pool ≡ pool) }
{
    let region = runs.region.roots();
    let partition = partition(
        alloc,
        &pool,
        region,
        runs.before.literals.as_slice(),
        runs.after.literals.as_slice(),
    )?;
    let marks = marks_of(
        alloc,
        runs.before.marks.as_slice(),
        runs.after.marks.as_slice(),
    )?;
    Ok(Cut {
        pool,
        partition,
        region: region.len(),
        marks,
    })
}

/// Cuts a partition in two by the equality of the slices. Either node may want 0 beside itself.
pub(crate) fn halve(mut cut: Cut, equality: u32, agree: bool) -> Result<Halves, AllocError>
    requires equality { equality < length cut.pool.terms }
    requires room { HasRoom 4 cut }
    ensures { (pair : ThePair) (region : List Term) (t : List ℤ) → IsCut pair region t cut → agree ≡ agree_at_of pair t →
        StandsFor cut.pool.terms equality (equality_of (slice_before pair t) (slice_after pair t)) → IfOk result (λ halves. AreHalves pair region t halves) }
{
    let first = decided(&mut cut.pool, equality, agree)?;
    let second = negated(&mut cut.pool, first)?;
    Ok(Halves {
        cut,
        first,
        second,
        agree,
    })
}

/// Settles a region by the halves of a partition that is neither too large nor beyond the bound on turns.
pub(crate) fn settle_halves(
    alloc: Global,
    task: &Task<'_>,
    member: Input,
    halves: Halves,
) -> Result<Settled, AllocError>
    requires member { IsMember task.now member }
    requires halves { AreHalves (arc_value task.now.pair.now) task.now.region.now member halves }
    requires narrow { is_wide (arc_value task.now.pair.now) task.now.region.now member ≡ false }
    requires literals { has_many_literals (arc_value task.now.pair.now) member ≡ false }
    requires short { is_beyond (arc_value task.now.pair.now) member ≡ false }
    ensures { IfOk result (IsSettlingAt task.now member) }
{
    if is_granted(
        &halves.cut.pool,
        halves.cut.partition.as_slice(),
        halves.first,
    ) {
        let settled = whole(alloc, task, member, halves, Proof::None)?;
        return Ok(settled);
    }
    let params = task.pair.before.params;
    match search_second(alloc, params, &halves, task.options)? {
        Answer::Refuted(log) => {
            let settled = whole(alloc, task, member, halves, Proof::Log(log))?;
            Ok(settled)
        }
        Answer::Held(input) => {
            let other = RawOther::Member(input);
            let settled = split(alloc, task, member, halves, other, Proof::None)?;
            Ok(settled)
        }
        Answer::Undecided(reason, proof) => {
            let other = RawOther::Reason(reason);
            let settled = split(alloc, task, member, halves, other, proof)?;
            Ok(settled)
        }
    }
}

/// Searches for an input of the partition on which the versions compare otherwise.
fn search_second(
    alloc: Global,
    params: u8,
    halves: &Halves,
    options: Options,
) -> Result<Answer, AllocError>
    requires words { params ≤ 8 }
    requires halves { (pair : ThePair) × (region : List Term) × (t : List ℤ) × AreHalves pair region t halves.now × All (IsTerm params) (other_part pair region t) × (length (other_part pair region t) ≤ 2 ^ 49) }
    ensures { (pair : ThePair) (region : List Term) (t : List ℤ) → AreHalves pair region t halves.now →
        IfOk result (λ answer. IsSearched params options.lines (other_part pair region t) answer) }
{
    let cond = cond_of(alloc, halves.cut.partition.as_slice(), halves.second)?;
    let answer = search(alloc, &halves.cut.pool, &cond, params, options)?;
    Ok(answer)
}

/// The condition of some nodes and one more.
fn cond_of(alloc: Global, nodes: &[u32], node: u32) -> Result<Cond, AllocError>
    ensures { IfOk result (λ cond. cond ≡ nodes.now ++ node ∷ []) }
{
    let nodes = with_node(alloc, nodes, node)?;
    let nodes = Arc::new(alloc, nodes)?;
    Ok(Cond::new(nodes))
}

/// The settlement of a region whose partition has one claim.
fn whole(
    alloc: Global,
    task: &Task<'_>,
    member: Input,
    halves: Halves,
    proof: Proof,
) -> Result<Settled, AllocError>
    requires member { IsMember task.now member }
    requires settled { SettlesAt task.now member (the_raw task.now.entry Shape.Whole (Some member) RawOther.None proof) }
    requires halves { AreHalves (arc_value task.now.pair.now) task.now.region.now member halves }
    ensures { IfOk result (IsSettlingAt task.now member) }
{
    let kind = kind_of(alloc, halves.agree, &member)?;
    let parts = whole_parts(alloc, kind, halves.cut)?;
    let raw = Raw {
        entry: task.entry,
        shape: Shape::Whole,
        member: Some(member),
        other: RawOther::None,
        proof,
    };
    let settled = seal(alloc, task, raw, parts)?;
    Ok(settled)
}

/// The settlement of a region whose partition is cut in two, with what is shown of the second half.
fn split(
    alloc: Global,
    task: &Task<'_>,
    member: Input,
    halves: Halves,
    other: RawOther,
    proof: Proof,
) -> Result<Settled, AllocError>
    requires member { IsMember task.now member }
    requires settled { SettlesAt task.now member (the_raw task.now.entry Shape.Split (Some member) other proof) }
    requires halves { AreHalves (arc_value task.now.pair.now) task.now.region.now member halves }
    requires shown { other ≢ RawOther.None }
    ensures { IfOk result (IsSettlingAt task.now member) }
{
    let parts = split_parts(alloc, halves, &member, &other)?;
    let raw = Raw {
        entry: task.entry,
        shape: Shape::Split,
        member: Some(member),
        other,
        proof,
    };
    let settled = seal(alloc, task, raw, parts)?;
    Ok(settled)
}
