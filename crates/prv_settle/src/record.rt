//! Settlements with their records, shape by shape. The record says what was found and by what it is proved; the parts
//! are made from the nodes of the partition, and the settlement has both.
ghost use Rattle.std.specs.Prelude.{◌≡◌, ◌<◌, ◌≤◌, ◌^◌, ◌∷◌, [], ◌++◌, length, IfOk};
ghost use Rattle.std.specs.Arc.{arc_value};
ghost use Rattle.prv_pool.specs.Tables.{term_at};
ghost use Rattle.prv_part.specs.Parts.{unmarked as unmarked_of};
ghost use Rattle.prv_part.specs.Settlements.{finding, IsSettlement};
ghost use Rattle.prv_general.specs.Answers.{terms_at};
ghost use Rattle.prv_settle.specs.Making.{AreNodes, claimed, second_of, parts_from};
ghost use Rattle.prv_settle.specs.Rooms.{HasRoom};
ghost use Rattle.prv_settle.specs.Steps.{MaySettle, sealed};
ghost use Rattle.prv_settle.specs.Supported.{raw_parts, parts_terms, proof_numbers as proof_numbers_of};

use crate::cut::Cut;
use crate::halves::Halves;
use crate::parts::{Terms, add_rests, decided_part, unmarked};
use crate::settled::Settled;
use crate::task::Task;
use prv_model::{Input, Kind};
use prv_part::{Part, Settlement, Shape};
use prv_record::{Proof, Raw, RawOther};
use prv_region::Region;
use std::alloc::{AllocError, Global};
use std::sync::Arc;

/// Parts, and the count of their distinct terms.
#[derive(Drop)]
pub(crate) struct Parts {
    /// The parts, in order.
    pub(crate) list: Vec<Part>,
    /// How many distinct terms stand in their regions, with their subterms.
    pub(crate) terms: u32,
}

/// The settlement of a region by its record, of these parts.
pub(crate) fn seal(
    alloc: Global,
    task: &Task<'_>,
    raw: Raw,
    parts: Parts,
) -> Result<Settled, AllocError>
    requires grounds { MaySettle task.now raw }
    requires parts { parts.list.items ≡ raw_parts (arc_value task.now.pair.now) task.now.region.now raw }
    requires terms { parts.terms ≡ length (parts_terms parts.list.items) }
    ensures { IfOk result (λ s. s ≡ sealed task.now raw) }
{
    let Parts { list, terms } = parts;
    let numbers = proof_numbers(&raw.proof);
    let settlement = settlement_of(alloc, task, &raw, list, u64::from(terms) + numbers)?;
    let settled = Settled::new(alloc, settlement, raw)?;
    Ok(settled)
}

/// The settlement of the shape that a record names.
fn settlement_of(
    alloc: Global,
    task: &Task<'_>,
    raw: &Raw,
    parts: Vec<Part>,
    numbers: u64,
) -> Result<Settlement, AllocError>
    requires { IsSettlement (finding (arc_value task.now.pair.now) raw.now.entry task.now.region.now raw.now.member raw.now.shape parts.items numbers) }
    ensures { IfOk result (λ s. s ≡ finding (arc_value task.now.pair.now) raw.now.entry task.now.region.now raw.now.member raw.now.shape parts.items numbers) }
{
    let pair = Arc::try_clone(task.pair)?;
    let region = task.region.share()?;
    match (raw.shape, copied(alloc, &raw.member)?) {
        (Shape::Empty, _) => Settlement::empty(pair, raw.entry, region, parts, numbers),
        (Shape::Stuck, member) => {
            Settlement::stuck(pair, raw.entry, region, member, parts, numbers)
        }
        (Shape::Whole, Some(member)) => {
            Settlement::whole(pair, raw.entry, region, member, parts, numbers)
        }
        (Shape::Split, Some(member)) => {
            Settlement::split(pair, raw.entry, region, member, parts, numbers)
        }
        (Shape::Beyond, Some(member)) => {
            Settlement::beyond(pair, raw.entry, region, member, parts, numbers)
        }
        (_, None) => unreachable!(),
    }
}

/// The input once more, if there is one.
fn copied(alloc: Global, input: &Option<Input>) -> Result<Option<Input>, AllocError>
    ensures { IfOk result (λ o. o ≡ input.now) }
{
    match input {
        None => Ok(None),
        Some(input) => Ok(Some(input.copy(alloc)?)),
    }
}

/// The one part that is a whole region.
pub(crate) fn only_part(alloc: Global, kind: Kind, region: &Region) -> Result<Parts, AllocError>
    ensures list { IfOk result (λ parts. parts.list.items ≡ unmarked_of kind region.now ∷ []) }
    ensures terms { IfOk result (λ parts. parts.terms ≡ length (parts_terms (unmarked_of kind region.now ∷ []))) }
{
    let terms = Terms::of(alloc, region)?;
    let mut list = Vec::new(alloc);
    let all = terms.front(alloc, terms.len())?;
    list.push(unmarked(alloc, kind, all))?;
    Ok(Parts {
        list,
        terms: terms.count(),
    })
}

/// The partition with a claim, and the rests.
pub(crate) fn whole_parts(alloc: Global, kind: Kind, cut: Cut) -> Result<Parts, AllocError>
    requires region { cut.region ≤ length cut.partition.items }
    requires nodes { AreNodes cut.pool.terms cut.partition.items }
    requires room { HasRoom 0 cut }
    ensures list { IfOk result (λ parts. parts.list.items ≡ parts_from cut.region (terms_at cut.pool.terms cut.partition.items)
        (record { region = terms_at cut.pool.terms cut.partition.items; kind = kind; marks = cut.marks.items } ∷ [])) }
    ensures terms { IfOk result (λ parts. parts.terms ≡ length (parts_terms parts.list.items)) }
{
    let region = cut.region;
    let literals = cut.literals();
    let marks = Vec::from_slice(alloc, cut.marks.as_slice())?;
    let terms = cut.into_terms(alloc, &[])?;
    let all = region + literals;
    let mut list = Vec::new(alloc);
    let first = terms.front(alloc, all)?;
    list.push(decided_part(alloc, kind, first, marks.as_slice())?)?;
    add_rests(alloc, &terms, region, literals, all, &mut list)?;
    Ok(Parts {
        list,
        terms: terms.count(),
    })
}

/// Both halves of a partition with their claims, and the rests. The halves are those of the decided
/// equality and of its negation.
pub(crate) fn split_parts(
    alloc: Global,
    halves: Halves,
    member: &Input,
    other: &RawOther,
) -> Result<Parts, AllocError>
    requires region { halves.cut.region ≤ length halves.cut.partition.items }
    requires nodes { AreNodes halves.cut.pool.terms halves.cut.partition.items }
    requires first { halves.first < length halves.cut.pool.terms }
    requires second { halves.second < length halves.cut.pool.terms }
    requires room { HasRoom 0 halves.cut }
    ensures list { let cut = halves.cut in
        IfOk result (λ parts. parts.list.items ≡ parts_from cut.region (terms_at cut.pool.terms cut.partition.items) (
        record { region = terms_at cut.pool.terms cut.partition.items ++ term_at cut.pool.terms halves.first ∷ []; kind = claimed halves.agree member.now; marks = cut.marks.items }
        ∷ second_of halves.agree other.now cut.marks.items (terms_at cut.pool.terms cut.partition.items ++ term_at cut.pool.terms halves.second ∷ []) ∷ [])) }
    ensures terms { IfOk result (λ parts. parts.terms ≡ length (parts_terms parts.list.items)) }
{
    let Halves {
        cut,
        first,
        second,
        agree,
    } = halves;
    let region = cut.region;
    let literals = cut.literals();
    let marks = Vec::from_slice(alloc, cut.marks.as_slice())?;
    let terms = cut.into_terms(alloc, &[first, second])?;
    let all = region + literals;
    let mut list = Vec::new(alloc);
    let half = terms.front_with(alloc, all, all)?;
    let kind = kind_of(alloc, agree, member)?;
    list.push(decided_part(alloc, kind, half, marks.as_slice())?)?;
    let half = terms.front_with(alloc, all, all + 1)?;
    list.push(second_part(alloc, agree, other, half, marks.as_slice())?)?;
    add_rests(alloc, &terms, region, literals, all + 2, &mut list)?;
    Ok(Parts {
        list,
        terms: terms.count(),
    })
}

/// The second part of a split.
fn second_part(
    alloc: Global,
    agree: bool,
    other: &RawOther,
    region: Region,
    marks: &[u8],
) -> Result<Part, AllocError>
    ensures { IfOk result (λ part. part ≡ second_of agree other.now marks.now region) }
{
    match other {
        RawOther::Member(input) => {
            let kind = kind_of(alloc, !agree, input)?;
            let part = decided_part(alloc, kind, region, marks)?;
            Ok(part)
        }
        RawOther::Reason(reason) => Ok(unmarked(
            alloc,
            Kind::Undecided { reason: *reason },
            region,
        )),
        RawOther::None => Ok(unmarked(alloc, Kind::Unexplored, region)),
    }
}

/// Same where the versions agree, else Different with the input as the sample.
pub(crate) fn kind_of(alloc: Global, agree: bool, input: &Input) -> Result<Kind, AllocError>
    ensures { IfOk result (λ kind. kind ≡ claimed agree input.now) }
{
    if agree {
        return Ok(Kind::Same);
    }
    Ok(Kind::Different {
        sample: input.copy(alloc)?,
    })
}

/// The numbers of the log that a proof has.
fn proof_numbers(proof: &Proof) -> u64
    requires { proof_numbers_of proof.now < 2 ^ 61 }
    ensures value { result ≡ proof_numbers_of proof.now }
    ensures bound { result < 2 ^ 61 }
{
    match proof {
        Proof::None => 0,
        Proof::Log(log) => log.numbers(),
        Proof::Spent { log, next: _ } => log.numbers(),
    }
}
