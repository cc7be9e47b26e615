//! The fields of a record behind the code of its shape, as they are written. Each shape writes its
//! fields in one order: what a search without an input left open stands behind the shape's code, and
//! else the input that was run comes first.
ghost use Rattle.std.specs.Prelude.{◌≡◌, ◌++◌, IfSome, OnOk};
ghost use Rattle.prv_record.specs.Fields.{IsShort, IsShortOther, HasFields};
ghost use Rattle.prv_record.specs.Parts.{choice as choice_of_parts, reason_code as reason_code_of, front_codes, back_codes, member_bytes, reason_bytes, other_bytes, next_bytes, proof_bytes, part_bytes, IsToldMember, IsToldReason, IsToldOther, IsToldNext, IsToldProof, IsTold, IsSizedNext, IsSizedProof};

use crate::raw::{Proof, Raw, RawOther};
use prv_check::Line;
use prv_codec::{Form, put_input, put_line, put_log, put_long, put_number};
use prv_model::{Input, Reason};
use prv_part::Shape;
use std::alloc::AllocError;

/// The code that says what follows, where a shape leaves a choice.
fn choice_of(other: &RawOther, proof: &Proof) -> u8
    ensures { result ≡ choice_of_parts other.now proof.now }
{
    match other {
        RawOther::Reason(reason) => reason_code(*reason),
        RawOther::Member(_) => 0,
        RawOther::None => match proof {
            Proof::None => 0,
            Proof::Log(_) => 1,
            Proof::Spent { .. } => 1,
        },
    }
}

fn reason_code(reason: Reason) -> u8
    ensures { result ≡ reason_code_of reason }
{
    match reason {
        Reason::Lines { .. } => 1,
        Reason::Numbers { .. } => 2,
        Reason::Clauses { .. } => 3,
        Reason::Wide => 4,
        Reason::Literals => 5,
    }
}

/// Adds what the shape has.
pub(crate) fn put_parts(out: &mut Vec<u8>, form: Form, raw: &Raw) -> Result<(), AllocError>
    requires fields { HasFields raw.now }
    requires sized { IsSizedProof raw.now.proof }
    ensures added { OnOk result (out.new.items ≡ out.old.items ++ part_bytes form raw.now) }
    ensures told { OnOk result (IsTold raw.now) }
{
    let choice = choice_of(&raw.other, &raw.proof);
    put_front(out, raw.shape, choice)?;
    put_member(out, form, &raw.member)?;
    put_back(out, raw.shape, choice)?;
    put_other(out, form, &raw.other)?;
    put_proof(out, form, &raw.proof)
}

/// Adds the choice before the member.
fn put_front(out: &mut Vec<u8>, shape: Shape, choice: u8) -> Result<(), AllocError>
    ensures { OnOk result (out.new.items ≡ out.old.items ++ front_codes shape choice) }
{
    match shape {
        Shape::Stuck => {
            out.push(choice)?;
            Ok(())
        }
        Shape::Empty => Ok(()),
        Shape::Whole => Ok(()),
        Shape::Split => Ok(()),
        Shape::Beyond => Ok(()),
    }
}

/// Adds the choice behind the member.
fn put_back(out: &mut Vec<u8>, shape: Shape, choice: u8) -> Result<(), AllocError>
    ensures { OnOk result (out.new.items ≡ out.old.items ++ back_codes shape choice) }
{
    match shape {
        Shape::Whole => {
            out.push(choice)?;
            Ok(())
        }
        Shape::Split => {
            out.push(choice)?;
            Ok(())
        }
        Shape::Empty => Ok(()),
        Shape::Stuck => Ok(()),
        Shape::Beyond => Ok(()),
    }
}

/// Adds the input that was run, where there is one.
fn put_member(out: &mut Vec<u8>, form: Form, member: &Option<Input>) -> Result<(), AllocError>
    requires { IfSome member.now IsShort }
    ensures added { OnOk result (out.new.items ≡ out.old.items ++ member_bytes form member.now) }
    ensures told { OnOk result (IsToldMember member.now) }
{
    match member {
        None => Ok(()),
        Some(input) => put_input(out, form, input),
    }
}

/// Adds what is shown beside the member.
fn put_other(out: &mut Vec<u8>, form: Form, other: &RawOther) -> Result<(), AllocError>
    requires { IsShortOther other.now }
    ensures added { OnOk result (out.new.items ≡ out.old.items ++ other_bytes form other.now) }
    ensures told { OnOk result (IsToldOther other.now) }
{
    match other {
        RawOther::None => Ok(()),
        RawOther::Member(input) => put_input(out, form, input),
        RawOther::Reason(reason) => put_reason(out, form, *reason),
    }
}

/// Adds what a reason tells behind its code.
fn put_reason(out: &mut Vec<u8>, form: Form, reason: Reason) -> Result<(), AllocError>
    ensures added { OnOk result (out.new.items ≡ out.old.items ++ reason_bytes form reason) }
    ensures told { IsToldReason reason }
{
    match reason {
        Reason::Lines { budget } => put_number(out, form, budget),
        Reason::Clauses { count } => put_long(out, form, count),
        Reason::Numbers { .. } => Ok(()),
        Reason::Wide => Ok(()),
        Reason::Literals => Ok(()),
    }
}

/// Adds what a record proves itself by.
fn put_proof(out: &mut Vec<u8>, form: Form, proof: &Proof) -> Result<(), AllocError>
    requires { IsSizedProof proof.now }
    ensures added { OnOk result (out.new.items ≡ out.old.items ++ proof_bytes form proof.now) }
    ensures told { OnOk result (IsToldProof proof.now) }
{
    match proof {
        Proof::None => Ok(()),
        Proof::Log(log) => put_log(out, form, log),
        Proof::Spent { log, next } => {
            put_log(out, form, log)?;
            put_next(out, form, next)
        }
    }
}

/// Adds the line that would come next, where there is one.
fn put_next(out: &mut Vec<u8>, form: Form, next: &Option<Line>) -> Result<(), AllocError>
    requires { IsSizedNext next.now }
    ensures added { OnOk result (out.new.items ≡ out.old.items ++ next_bytes form next.now) }
    ensures told { OnOk result (IsToldNext next.now) }
{
    match next {
        None => Ok(()),
        Some(line) => put_line(out, form, line),
    }
}
