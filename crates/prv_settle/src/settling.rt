//! Settling the region of an entry. An input of the region is found, both versions are run there, and what the runs
//! leave open is settled by the two halves of their partition. Each step gives a settlement beside its record.
ghost use Rattle.std.specs.Prelude.{◌≡◌, ◌≢◌, ◌↔◌, ◌+◌, ◌≤◌, ◌^◌, ◌∷◌, [], length, All, Err, IfOk, Some, None, true, false};
ghost use Rattle.std.specs.Arc.{arc_value};
ghost use Rattle.prv_model.specs.Terms.{IsTerm, holds};
ghost use Rattle.prv_model.specs.declared.entry.Kind.{Kind as TheKind};
ghost use Rattle.prv_part.specs.Parts.{unmarked};
ghost use Rattle.prv_board.specs.Slots.{is_claimable_kind, may_replace};
ghost use Rattle.prv_settle.specs.Answers.{IsSearched};
ghost use Rattle.prv_settle.specs.Budgets.{HasBudget};
ghost use Rattle.prv_settle.specs.Counts.{is_wide, has_many_literals};
ghost use Rattle.prv_settle.specs.Making.{AreRuns, IsCut};
ghost use Rattle.prv_settle.specs.Rooms.{HasRoom};
ghost use Rattle.prv_settle.specs.Settlings.{IsSettled, IsSettledAt, raw_of as the_raw};
ghost use Rattle.prv_settle.specs.Steps.{IsMember, SettlesAt, MaySettle, sealed, IsSettling, IsSettlingAt};
ghost use Rattle.prv_settle.specs.Supported.{finding_of, raw_parts};

use crate::answer::Answer;
use crate::cut::Cut;
use crate::error::SettleAtError;
use crate::halves::{cut_of, halve, settle_halves};
use crate::limits::{MAX_NODES, MORE_NODES};
use crate::record::{only_part, seal, whole_parts};
use crate::runs::{Runs, run_both};
use crate::search::search;
use crate::settled::Settled;
use crate::task::{Options, Task};
use prv_model::{Input, Kind, Pair, Reason};
use prv_part::Shape;
use prv_pool::Pool;
use prv_record::{Proof, Raw, RawOther};
use prv_region::{Cond, Region, Scratch};
use std::alloc::{AllocError, Global};
use std::sync::Arc;

/// Settles the region of an entry. The versions are run at the first probe that the region holds; where
/// it holds none, at an input that the solver finds.
///
/// Time and memory are in proportion to the runs, the terms and the clauses of this one settlement.
pub fn settle(
    alloc: Global,
    pair: &Arc<Pair>,
    entry: u32,
    region: &Region,
    options: Options,
) -> Result<Settled, AllocError>
    requires known { All (IsTerm (arc_value pair.now).before.params) region.now }
    requires few { length region.now ≤ 2 ^ 48 }
    ensures settled { IfOk result (λ s. IsSettled (arc_value pair.now) region.now entry options.lines s.raw) }
    ensures finding { IfOk result (λ s. s.finding ≡ finding_of (arc_value pair.now) region.now s.raw) }

    // What follows: the record is the entry's, parts left for want of lines name the budget, and an entry of
    // any kind that can be worked on with the budget is open to the parts.
    ensures entry { IfOk result (λ s. s.raw.entry ≡ entry) }
    ensures budget { IfOk result (λ s. HasBudget options.lines s.finding) }
    ensures open_entry { IfOk result (λ s. (kind : TheKind) → is_claimable_kind options.lines kind ≡ true → may_replace s.finding.parts kind ≡ true) }
{
    let task = Task {
        pair,
        entry,
        region,
        options,
    };
    let settled = settle_task(alloc, &task)?;
    Ok(settled)
}

/// Settles the region of an entry by the runs at one of its inputs.
///
/// `NotInRegion` comes exactly where the input isn't in the region.
pub fn settle_at(
    alloc: Global,
    pair: &Arc<Pair>,
    entry: u32,
    region: &Region,
    options: Options,
    input: &Input,
) -> Result<Settled, SettleAtError>
    requires known { All (IsTerm (arc_value pair.now).before.params) region.now }
    requires few { length region.now ≤ 2 ^ 48 }
    requires arity { length input.now ≡ (arc_value pair.now).before.params }
    ensures settled { IfOk result (λ s. IsSettledAt (arc_value pair.now) region.now entry options.lines input.now s.raw) }
    ensures finding { IfOk result (λ s. s.finding ≡ finding_of (arc_value pair.now) region.now s.raw) }
    ensures refused { result ≢ Err SettleAtError.Memory → (result ≡ Err SettleAtError.NotInRegion) ↔ (holds region.now input.now ≡ false) }

    // What follows: as for `settle`, and the input is the one that was run.
    ensures entry { IfOk result (λ s. s.raw.entry ≡ entry) }
    ensures member { IfOk result (λ s. s.raw.member ≡ Some input.now) }
    ensures budget { IfOk result (λ s. HasBudget options.lines s.finding) }
    ensures open_entry { IfOk result (λ s. (kind : TheKind) → is_claimable_kind options.lines kind ≡ true → may_replace s.finding.parts kind ≡ true) }
{
    if !is_in(alloc, region, input)? {
        return Err(SettleAtError::NotInRegion);
    }
    let task = Task {
        pair,
        entry,
        region,
        options,
    };
    let member = input.copy(alloc)?;
    let settled = settle_member(alloc, &task, member)?;
    Ok(settled)
}

/// Whether a region holds an input.
fn is_in(alloc: Global, region: &Region, input: &Input) -> Result<bool, AllocError>
    ensures { IfOk result (λ yes. yes ≡ holds region.now input.now) }
{
    let mut scratch = Scratch::new(alloc);
    scratch.reserve_for_regions()?;
    Ok(region.holds(input, &mut scratch))
}

/// Settles a region from an input that is searched.
fn settle_task(alloc: Global, task: &Task<'_>) -> Result<Settled, AllocError>
    ensures { IfOk result (IsSettling task.now) }
{
    match search_region(alloc, task)? {
        Answer::Held(member) => {
            let settled = settle_member(alloc, task, member)?;
            Ok(settled)
        }
        Answer::Refuted(log) => {
            let raw = Raw {
                entry: task.entry,
                shape: Shape::Empty,
                member: None,
                other: RawOther::None,
                proof: Proof::Log(log),
            };
            let settled = seal_only(alloc, task, raw, Kind::Empty)?;
            Ok(settled)
        }
        Answer::Undecided(reason, proof) => {
            let raw = Raw {
                entry: task.entry,
                shape: Shape::Stuck,
                member: None,
                other: RawOther::Reason(reason),
                proof,
            };
            let settled = seal_only(alloc, task, raw, Kind::Undecided { reason })?;
            Ok(settled)
        }
    }
}

/// Searches for an input of a region.
fn search_region(alloc: Global, task: &Task<'_>) -> Result<Answer, AllocError>
    ensures { IfOk result (λ answer. IsSearched (arc_value task.now.pair.now).before.params task.now.options.lines task.now.region.now answer) }
{
    let parts = task.region.parts();
    let roots = Vec::from_slice(alloc, parts.roots)?;
    let cond = Cond::new(Arc::new(alloc, roots)?);
    let params = task.pair.before.params;
    let answer = search(alloc, parts.pool, &cond, params, task.options)?;
    Ok(answer)
}

/// The settlement of a region that is one part, of this kind.
fn seal_only(alloc: Global, task: &Task<'_>, raw: Raw, kind: Kind) -> Result<Settled, AllocError>
    requires grounds { MaySettle task.now raw }
    requires parts { raw_parts (arc_value task.now.pair.now) task.now.region.now raw ≡ unmarked kind task.now.region.now ∷ [] }
    ensures { IfOk result (λ s. s ≡ sealed task.now raw) }
{
    let parts = only_part(alloc, kind, task.region)?;
    let settled = seal(alloc, task, raw, parts)?;
    Ok(settled)
}

/// Settles a region by the runs at one of its inputs.
fn settle_member(alloc: Global, task: &Task<'_>, member: Input) -> Result<Settled, AllocError>
    requires { IsMember task.now member }
    ensures { IfOk result (IsSettlingAt task.now member) }
{
    let mut pool = Pool::new(alloc, MAX_NODES + MORE_NODES);
    match run_both(alloc, task, &member, &mut pool)? {
        None => {
            let settled = stuck_at(alloc, task, member, Reason::Wide)?;
            Ok(settled)
        }
        Some(runs) => {
            if runs.has_many_literals() {
                let settled = stuck_at(alloc, task, member, Reason::Literals)?;
                return Ok(settled);
            }
            let settled = settle_runs(alloc, task, member, pool, &runs)?;
            Ok(settled)
        }
    }
}

/// The settlement of a region whose runs are too large.
fn stuck_at(
    alloc: Global,
    task: &Task<'_>,
    member: Input,
    reason: Reason,
) -> Result<Settled, AllocError>
    requires member { IsMember task.now member }
    requires settled { SettlesAt task.now member (the_raw task.now.entry Shape.Stuck (Some member) (RawOther.Reason reason) Proof.None) }
    ensures { IfOk result (IsSettlingAt task.now member) }
{
    let raw = Raw {
        entry: task.entry,
        shape: Shape::Stuck,
        member: Some(member),
        other: RawOther::Reason(reason),
        proof: Proof::None,
    };
    let settled = seal_only(alloc, task, raw, Kind::Undecided { reason })?;
    Ok(settled)
}

/// Settles a region by runs that are within the limits.
fn settle_runs(
    alloc: Global,
    task: &Task<'_>,
    member: Input,
    pool: Pool,
    runs: &Runs,
) -> Result<Settled, AllocError>
    requires member { IsMember task.now member }
    requires runs { AreRuns (arc_value task.now.pair.now) task.now.region.now member pool runs.now }
    requires narrow { is_wide (arc_value task.now.pair.now) task.now.region.now member ≡ false }
    requires literals { has_many_literals (arc_value task.now.pair.now) member ≡ false }
    requires few { length pool.terms ≤ MAX_NODES }
    requires limit { pool.max_nodes ≡ MAX_NODES + MORE_NODES }
    ensures { IfOk result (IsSettlingAt task.now member) }
{
    let cut = cut_of(alloc, pool, runs)?;
    if runs.is_beyond() {
        let settled = beyond(alloc, task, member, cut)?;
        return Ok(settled);
    }
    let halves = halve(cut, runs.equality, runs.agree())?;
    let settled = settle_halves(alloc, task, member, halves)?;
    Ok(settled)
}

/// The settlement of a region whose partition passes the bound on turns.
fn beyond(alloc: Global, task: &Task<'_>, member: Input, cut: Cut) -> Result<Settled, AllocError>
    requires member { IsMember task.now member }
    requires settled { SettlesAt task.now member (the_raw task.now.entry Shape.Beyond (Some member) RawOther.None Proof.None) }
    requires cut { IsCut (arc_value task.now.pair.now) task.now.region.now member cut }
    requires room { HasRoom 0 cut }
    ensures { IfOk result (IsSettlingAt task.now member) }
{
    let parts = whole_parts(alloc, Kind::Beyond, cut)?;
    let raw = Raw {
        entry: task.entry,
        shape: Shape::Beyond,
        member: Some(member),
        other: RawOther::None,
        proof: Proof::None,
    };
    let settled = seal(alloc, task, raw, parts)?;
    Ok(settled)
}
