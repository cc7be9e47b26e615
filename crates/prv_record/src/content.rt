//! What a record has behind the code of its shape, as it is read.
ghost use Rattle.std.specs.Prelude.{◌≡◌};
ghost use Rattle.prv_codec.specs.Reading.{Gives};
ghost use Rattle.prv_record.specs.Reading.{lines_at as lines_at_of, numbers_at as numbers_at_of, clauses_at as clauses_at_of, undecided_at as undecided_at_of, run_reason as run_reason_of, run_at as run_at_of, unrun_at as unrun_at_of, empty_at as empty_at_of, stuck_at as stuck_at_of, whole_at as whole_at_of, split_at as split_at_of, beyond_at as beyond_at_of, content_at as content_at_of};

use crate::raw::{Proof, RawOther};
use prv_codec::{Form, ReadError, byte_at, input_at, line_at, log_at, long_at, number_at};
use prv_model::{Input, Reason};
use prv_part::Shape;
use std::alloc::Global;

/// What a shape has.
#[derive(Drop)]
pub(crate) struct Content {
    /// The input that was run.
    pub(crate) member: Option<Input>,
    /// What is shown beside it.
    pub(crate) other: RawOther,
    pub(crate) proof: Proof,
}

/// Why a search left something undecided, and what was spent on it.
#[derive(Drop)]
pub(crate) struct Undecided {
    pub(crate) reason: Reason,
    pub(crate) proof: Proof,
}

/// What the shape has, and the bytes behind it.
pub(crate) fn content_at(
    alloc: Global,
    form: Form,
    shape: Shape,
    bytes: &[u8],
) -> Result<(Content, &[u8]), ReadError>
    ensures { Gives (λ x. (x.0, x.1.now)) result (content_at_of form shape bytes.now) }
{
    match shape {
        Shape::Empty => empty_at(alloc, form, bytes),
        Shape::Stuck => stuck_at(alloc, form, bytes),
        Shape::Whole => whole_at(alloc, form, bytes),
        Shape::Split => split_at(alloc, form, bytes),
        Shape::Beyond => beyond_at(alloc, form, bytes),
    }
}

#[tactic(auto, unfolding(crate::specs::Reading::empty_at))]
fn empty_at(alloc: Global, form: Form, bytes: &[u8]) -> Result<(Content, &[u8]), ReadError>
    ensures { Gives (λ x. (x.0, x.1.now)) result (empty_at_of form bytes.now) }
{
    let (log, rest) = log_at(alloc, form, bytes)?;
    let content = Content {
        member: None,
        other: RawOther::None,
        proof: Proof::Log(log),
    };
    Ok((content, rest))
}

#[tactic(auto, unfolding(crate::specs::Reading::stuck_at))]
fn stuck_at(alloc: Global, form: Form, bytes: &[u8]) -> Result<(Content, &[u8]), ReadError>
    ensures { Gives (λ x. (x.0, x.1.now)) result (stuck_at_of form bytes.now) }
{
    let (code, rest) = byte_at(1, 5, bytes)?;
    if code < 4 {
        unrun_at(alloc, form, code, rest)
    } else {
        run_at(alloc, form, code, rest)
    }
}

/// Of a region of which no input was found.
#[tactic(auto, unfolding(crate::specs::Reading::unrun_at))]
fn unrun_at(
    alloc: Global,
    form: Form,
    code: u8,
    bytes: &[u8],
) -> Result<(Content, &[u8]), ReadError>
    ensures { Gives (λ x. (x.0, x.1.now)) result (unrun_at_of form code bytes.now) }
{
    let (why, rest) = undecided_at(alloc, form, code, bytes)?;
    let Undecided { reason, proof } = why;
    let content = Content {
        member: None,
        other: RawOther::Reason(reason),
        proof,
    };
    Ok((content, rest))
}

/// Of a region of which an input was run, and no more.
#[tactic(auto, unfolding(crate::specs::Reading::run_at))]
fn run_at(alloc: Global, form: Form, code: u8, bytes: &[u8]) -> Result<(Content, &[u8]), ReadError>
    ensures { Gives (λ x. (x.0, x.1.now)) result (run_at_of form code bytes.now) }
{
    let (member, rest) = input_at(alloc, form, bytes)?;
    let content = Content {
        member: Some(member),
        other: RawOther::Reason(run_reason(code)),
        proof: Proof::None,
    };
    Ok((content, rest))
}

fn run_reason(code: u8) -> Reason
    ensures { result ≡ run_reason_of code }
{
    if code == 4 {
        Reason::Wide
    } else {
        Reason::Literals
    }
}

#[tactic(auto, unfolding(crate::specs::Reading::whole_at))]
fn whole_at(alloc: Global, form: Form, bytes: &[u8]) -> Result<(Content, &[u8]), ReadError>
    ensures { Gives (λ x. (x.0, x.1.now)) result (whole_at_of form bytes.now) }
{
    let (member, rest) = input_at(alloc, form, bytes)?;
    let (code, rest) = byte_at(0, 1, rest)?;
    if code == 0 {
        let content = Content {
            member: Some(member),
            other: RawOther::None,
            proof: Proof::None,
        };
        return Ok((content, rest));
    }
    let (log, rest) = log_at(alloc, form, rest)?;
    let content = Content {
        member: Some(member),
        other: RawOther::None,
        proof: Proof::Log(log),
    };
    Ok((content, rest))
}

#[tactic(auto, unfolding(crate::specs::Reading::split_at))]
fn split_at(alloc: Global, form: Form, bytes: &[u8]) -> Result<(Content, &[u8]), ReadError>
    ensures { Gives (λ x. (x.0, x.1.now)) result (split_at_of form bytes.now) }
{
    let (member, rest) = input_at(alloc, form, bytes)?;
    let (code, rest) = byte_at(0, 3, rest)?;
    if code == 0 {
        let (other, rest) = input_at(alloc, form, rest)?;
        let content = Content {
            member: Some(member),
            other: RawOther::Member(other),
            proof: Proof::None,
        };
        return Ok((content, rest));
    }
    let (why, rest) = undecided_at(alloc, form, code, rest)?;
    let Undecided { reason, proof } = why;
    let content = Content {
        member: Some(member),
        other: RawOther::Reason(reason),
        proof,
    };
    Ok((content, rest))
}

#[tactic(auto, unfolding(crate::specs::Reading::beyond_at))]
fn beyond_at(alloc: Global, form: Form, bytes: &[u8]) -> Result<(Content, &[u8]), ReadError>
    ensures { Gives (λ x. (x.0, x.1.now)) result (beyond_at_of form bytes.now) }
{
    let (member, rest) = input_at(alloc, form, bytes)?;
    let content = Content {
        member: Some(member),
        other: RawOther::None,
        proof: Proof::None,
    };
    Ok((content, rest))
}

/// Why a search left something undecided, behind the code of the reason, and the bytes behind it.
#[tactic(auto, unfolding(crate::specs::Reading::undecided_at))]
fn undecided_at(
    alloc: Global,
    form: Form,
    code: u8,
    bytes: &[u8],
) -> Result<(Undecided, &[u8]), ReadError>
    ensures { Gives (λ x. (x.0, x.1.now)) result (undecided_at_of form code bytes.now) }
{
    if code == 1 {
        lines_at(alloc, form, bytes)
    } else if code == 2 {
        numbers_at(alloc, form, bytes)
    } else {
        clauses_at(form, bytes)
    }
}

/// A spent budget of lines.
#[tactic(auto, unfolding(crate::specs::Reading::lines_at))]
fn lines_at(alloc: Global, form: Form, bytes: &[u8]) -> Result<(Undecided, &[u8]), ReadError>
    ensures { Gives (λ x. (x.0, x.1.now)) result (lines_at_of form bytes.now) }
{
    let (budget, rest) = number_at(form, bytes)?;
    let (log, rest) = log_at(alloc, form, rest)?;
    let why = Undecided {
        reason: Reason::Lines { budget },
        proof: Proof::Spent { log, next: None },
    };
    Ok((why, rest))
}

/// A log up to the limit on its numbers, and the line that would pass it.
#[tactic(auto, unfolding(crate::specs::Reading::numbers_at))]
fn numbers_at(alloc: Global, form: Form, bytes: &[u8]) -> Result<(Undecided, &[u8]), ReadError>
    ensures { Gives (λ x. (x.0, x.1.now)) result (numbers_at_of form bytes.now) }
{
    let (log, rest) = log_at(alloc, form, bytes)?;
    let (next, rest) = line_at(alloc, form, rest)?;
    let lines = log.lines().len() as u32;
    let why = Undecided {
        reason: Reason::Numbers { lines },
        proof: Proof::Spent {
            log,
            next: Some(next),
        },
    };
    Ok((why, rest))
}

/// A formula that would cost too much.
#[tactic(auto, unfolding(crate::specs::Reading::clauses_at))]
fn clauses_at(form: Form, bytes: &[u8]) -> Result<(Undecided, &[u8]), ReadError>
    ensures { Gives (λ x. (x.0, x.1.now)) result (clauses_at_of form bytes.now) }
{
    let (count, rest) = long_at(form, bytes)?;
    let why = Undecided {
        reason: Reason::Clauses { count },
        proof: Proof::None,
    };
    Ok((why, rest))
}
